// Review's count, from the lines of a rule's program.
ghost use Rattle.std.specs.Prelude.{◌≡◌, ◌≤◌, ◌<◌, ◌+◌, ◌-◌};
ghost use Rattle.words.specs.Words.{entries};
ghost use Rattle.tables.specs.Line.{columns_of};
ghost use Rattle.review_count.specs.Tally.{step_of, factor_of, next_of, reserved_after, turn_of, laid_of, taken_of, last_of, whole_sum, whole_product, within};
ghost use Rattle.review_count.specs.Pile.{top_in, depth_by};

use tables::instruction::{
    DROP, END, JOIN, LIST_CONS, MULTISET_CONS, NIL, NOT_END, OR_END, OR_OTHER, QUADRUPLE, SAME,
    TRIPLE,
};
use tables::line::{Lines, op_at};
use words::ENTRIES;

// The largest count that review tells.
const LARGEST_COUNT: u64 = 4294967295;

// The count, and the product of all factors.
#[derive(Clone, Copy)]
pub struct Tally {
    pub count: u64,
    pub product: u64,
}

// What waits: the product before the line that laid it aside, and how many conses are taken from its collection.
#[derive(Clone, Copy)]
pub struct Laid {
    pub product: u64,
    pub taken: u16,
}

const NOTHING: Laid = Laid {
    product: 0,
    taken: 0,
};

// What a line does with what waits: nothing; it lays aside the rest of a cons, a part that begins anew, or one on the same collection; or the next part
// is the one that was laid aside last.
#[derive(Clone, Copy)]
pub enum Turn {
    Stay,
    Rest,
    Anew,
    Same,
    Take,
}

// What a line adds to the count.
#[tactic(auto, unfolding(crate::specs::Tally::step_of))]
fn step(o: u16, earlier: u64) -> u64
    ensures { result ≡ step_of o earlier }
{
    match o {
        OR_OTHER | OR_END => 0,
        _ => earlier,
    }
}

// The most elements of a collection.
#[derive(Clone, Copy)]
pub struct Cap {
    pub most: u64,
    ghost few: { most ≤ 64 },
}

// The factor of a line, so many conses being taken from the collection there.
#[tactic(auto, unfolding(crate::specs::Tally::factor_of))]
fn factor(o: u16, taken: u16, cap: Cap) -> u64
    ensures { result ≡ factor_of cap.most taken o }
{
    match o {
        MULTISET_CONS => cap.most.saturating_sub(u64::from(taken)),
        JOIN => cap.most + 1,
        _ => 1,
    }
}

// The product of the factors before the next line, `last` being the product that was laid aside with what was taken last.
#[tactic(auto, unfolding(crate::specs::Tally::next_of, crate::specs::Tally::factor_of))]
fn product(o: u16, earlier: u64, taken: u16, last: u64, cap: Cap) -> u64
    requires sum_fits { earlier + last ≤ 281474976710656 }
    ensures { result ≡ next_of cap.most o earlier taken last }
{
    match o {
        NOT_END | OR_OTHER => last,
        OR_END => last + earlier,
        _ => earlier * factor(o, taken, cap),
    }
}

// How many places after a line are reserved for a tuple's parts.
#[tactic(auto, unfolding(crate::specs::Tally::reserved_after))]
fn reserved_after(o: u16) -> u8
    ensures { result ≡ reserved_after o }
{
    match o {
        TRIPLE => 1,
        QUADRUPLE => 2,
        _ => 0,
    }
}

// What a line does with what waits.
#[tactic(auto, unfolding(crate::specs::Tally::turn_of))]
fn turn_of(o: u16) -> Turn
    ensures { result ≡ turn_of o }
{
    match o {
        END..=SAME => Turn::Stay,
        DROP..=NIL => Turn::Take,
        LIST_CONS..=MULTISET_CONS => Turn::Rest,
        JOIN..=QUADRUPLE => Turn::Anew,
        NOT_END | OR_END => Turn::Take,
        _ => Turn::Same,
    }
}

// How many conses are taken from the collection of the part that is laid aside.
#[tactic(auto, unfolding(crate::specs::Tally::laid_of))]
fn taken_aside(t: Turn, taken: u16) -> u16
    requires { taken < entries }
    ensures { result ≡ laid_of t taken }
{
    match t {
        Turn::Rest => taken + 1,
        Turn::Same => taken,
        Turn::Stay | Turn::Anew | Turn::Take => 0,
    }
}

// What was laid aside last.
#[tactic(auto, unfolding(crate::specs::Pile::top_in))]
fn top(depth: usize, waits: &[Laid; ENTRIES]) -> Laid
    requires { depth < entries }
    ensures { result ≡ top_in waits.now depth }
{
    if depth == 0 {
        return NOTHING;
    }
    waits[depth - 1]
}

// The product that was laid aside with what the next line takes up.
#[tactic(auto, unfolding(crate::specs::Tally::last_of))]
fn last_after(t: Turn, top: u64) -> u64
    ensures { result ≡ last_of t top }
{
    match t {
        Turn::Take => top,
        _ => 0,
    }
}

// How many conses are taken from the collection at the next line.
#[tactic(auto, unfolding(crate::specs::Tally::taken_of))]
fn taken_after(t: Turn, taken: u16, top: u16) -> u16
    ensures { result ≡ taken_of t taken top }
{
    match t {
        Turn::Stay | Turn::Same => taken,
        Turn::Rest | Turn::Anew => 0,
        Turn::Take => top,
    }
}

// How much waits after a line.
#[tactic(auto, unfolding(crate::specs::Pile::depth_by))]
fn depth_after(t: Turn, depth: usize) -> usize
    requires { depth < entries }
    ensures { result ≡ depth_by t depth }
{
    match t {
        Turn::Stay => depth,
        Turn::Rest | Turn::Anew | Turn::Same => depth + 1,
        Turn::Take => depth.saturating_sub(1),
    }
}

// The count for a largest collection of `cap` elements, none where it is too big. The sum never falls, so the first sum that is too big decides. `waits` is
// what waits, up to a depth.
#[tactic(auto, using(crate::proofs::count::Sums::own_rules))]
pub fn tallied(lines: &Lines, cap: Cap) -> Option<Tally>
    ensures { result ≡ within (whole_sum cap.most (columns_of lines.now).op) (whole_product cap.most (columns_of lines.now).op) }
{
    let mut waits = [NOTHING; ENTRIES];
    let mut depth: usize = 0;
    let mut total: u64 = 0;
    let mut earlier: u64 = 1;
    let mut last: u64 = 0;
    let mut taken: u16 = 0;
    let mut skip: u8 = 0;
    for pc in 0..ENTRIES {
        if 0 < skip {
            skip -= 1;
            waits[depth] = NOTHING;
            depth += 1;
            continue;
        }
        let o = op_at(lines, pc);
        total += step(o, earlier);
        if LARGEST_COUNT < total {
            return None;
        }
        if o == END {
            return Some(Tally {
                count: total,
                product: earlier,
            });
        }
        let t = turn_of(o);
        let above = top(depth, &waits);
        waits[depth] = Laid {
            product: earlier,
            taken: taken_aside(t, taken),
        };
        earlier = product(o, earlier, taken, last, cap);
        last = last_after(t, above.product);
        taken = taken_after(t, taken, above.taken);
        depth = depth_after(t, depth);
        skip = reserved_after(o);
    }
    Some(Tally {
        count: total,
        product: earlier,
    })
}
