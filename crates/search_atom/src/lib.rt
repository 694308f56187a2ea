// Leaves of a step: what the first atom's test says, and the choices of a cons or a join.
#![tactic(auto)]

pub mod tuples;

ghost use Rattle.std.specs.Prelude.{◌≡◌, ◌+◌, ◌^◌, ◌<◌, length, get_or, false, pos};
ghost use Rattle.rules.specs.Numbers.{same};
ghost use Rattle.words.specs.Words.{entries};
ghost use Rattle.search_atom.specs.Leaves.{none_of, passes_of, opens_of, longer_of, top_by, left_in, slot_by};
ghost use Rattle.tables.specs.Line.{columns_of};
ghost use Rattle.tables.specs.Slot.{view_of, Slotted, Alone};

use tables::instruction::{CONSTANT, EQUAL, JOIN, LIST_CONS, NIL, OR, SUM};
use tables::line::{Lines, con_at, from_at};
use tables::slot::{Slots, low_at, put_left};
use words::marks::{Parts, lowest, one};

// Whether a word of the target is an instruction's constant.
#[tactic(auto, using(crate::proofs::Laws::word_rules))]
fn is_constant(s: &[i32], at: usize, lines: &Lines, pc: usize) -> bool
    requires number { at + 1 < length s.now }
    requires line { pc < entries }
    requires constant { pc < length (columns_of lines.now).con }
    ensures { result ≡ same (get_or s.now (at + 1) (pos 0)) (get_or (columns_of lines.now).con pc (pos 0)) }
{
    s[at + 1] == con_at(lines, pc)
}

// Whether the atom's test holds.
#[tactic(auto, using(crate::proofs::Laws::cases), unfolding(crate::specs::Leaves::passes_of))]
pub fn passes(o: u16, q: bool, s: &[i32], at: usize, m: u64, lines: &Lines, pc: usize) -> bool
    requires number { at + 1 < length s.now }
    requires line { pc < entries }
    requires constant { pc < length (columns_of lines.now).con }
    ensures { result ≡ passes_of o q s.now at m (get_or (columns_of lines.now).con pc (pos 0)) }
{
    if o == CONSTANT {
        return is_constant(s, at, lines, pc);
    }
    if o == SUM {
        return q;
    }
    if o == EQUAL {
        return q;
    }
    if o == NIL {
        return m == 0;
    }
    true
}

// Whether a cons has nothing to choose from.
#[tactic(auto, using(crate::proofs::Laws::cases), unfolding(crate::specs::Leaves::none_of))]
pub fn nothing(o: u16, m: u64) -> bool
    ensures { result ≡ none_of o m }
{
    if o == JOIN {
        return false;
    }
    m == 0
}

// The choices that a frame is opened with.
#[tactic(auto, using(crate::proofs::Laws::open_rules), unfolding(crate::specs::Leaves::opens_of))]
pub fn opens(o: u16, m: u64) -> u64
    requires { none_of o m ≡ false }
    ensures { result ≡ opens_of o m }
{
    if o == JOIN {
        return 0;
    }
    if o == LIST_CONS {
        let k = lowest(m);
        return one(k);
    }
    m
}

// The next longer front of a join; 0 where the back is empty.
#[tactic(auto, using(crate::proofs::Laws::cases), unfolding(crate::specs::Leaves::longer_of))]
pub fn longer_front(c: u64, b: u64) -> u64
    requires { c + b < 2 ^ 64 }
    ensures { result ≡ longer_of c b }
{
    if b == 0 {
        return 0;
    }
    let p = Parts { front: c, back: b }.longer();
    p.front
}

// What is left to choose from at a line: with nothing left the frame is no longer open. The last open frame then.
#[tactic(auto, using(crate::proofs::Laws::leave_rules))]
pub fn leave(top: usize, more: u64, pc: usize, lines: &Lines, slots: &mut Slots) -> usize
    requires slotted { Slotted (columns_of lines.now).arg slots.old pc }
    requires alone { Alone (columns_of lines.now).arg pc }
    ensures value { result ≡ top_by more pc (view_of (columns_of lines.now).arg slots.old).lows top }
    ensures slots { view_of (columns_of lines.now).arg slots.new ≡ left_in more pc (view_of (columns_of lines.now).arg slots.old) }
{
    if more == 0 {
        return low_at(slots, lines, pc);
    }
    put_left(slots, lines, pc, more);
    top
}

// The slot of the value with which a frame's choice goes on: an or's own, and of a not that of what waits behind it.
#[tactic(auto, using(crate::proofs::Laws::slot_rules))]
pub fn slot_of(o: u16, j: usize, lines: &Lines) -> usize
    requires { j < entries }
    ensures { result ≡ slot_by o j (columns_of lines.now).from }
{
    if o == OR {
        return j;
    }
    from_at(lines, j)
}
