// The lines by which a multiset's cons asks for an integer: as an element, or as the parts of an element that is a pair. What is passed over goes by lines and
// numbers alone, and for pairs by a function that is called twice: then the search's own loop is what it is without it.
ghost use Rattle.std.specs.Prelude.{◌≡◌, ◌-◌, ◌<◌, length, get_or};
ghost use Rattle.words.specs.Words.{entries};
ghost use Rattle.tables.specs.Line.{columns_of};
ghost use Rattle.tables.specs.Slot.{view_of};
ghost use Rattle.value_places.specs.Places.{Target};
ghost use Rattle.value_places.specs.Tables.{Placed};
ghost use Rattle.search_seek.specs.Passed.{Over};
ghost use Rattle.search_seek.specs.Pairs.{OverPairs};
ghost use Rattle.search_seek.specs.Asked.{first_of, second_of, asked_of, sum_of, wanted_of, Opens, Seeking};

use crate::pairs::{Sum, Wanted, pass_pairs};
use crate::pass_over;
use search_step::{CHOOSES, State};
use tables::instruction::{MULTISET_CONS, PAIR, SUM};
use tables::line::{Lines, con_at, from_at, op_at, to_at};
use tables::place::Places;
use tables::slot::Slots;
use value_places::places::Units;

// The line at which the first part starts; the line that asks for an integer, 0 where there is none; and the one that asks for the second part of a pair
// after it, the same where there is none.
#[derive(Clone, Copy)]
pub struct Asking {
    pub part: usize,
    pub first: usize,
    pub second: usize,
}

// The line that asks, where the next choice is that of a multiset's cons: the first part's own, or that of a pair's first part.
#[tactic(auto, using(crate::proofs::Lines::first_rules))]
fn first_at(x: State, lines: &Lines) -> usize
    requires { Opens (columns_of lines.now).op (columns_of lines.now).to x }
    ensures { result ≡ first_of (columns_of lines.now).op x }
{
    let live = x.live;
    if live != CHOOSES {
        return 0;
    }
    let top = x.top;
    if top == 0 {
        return 0;
    }
    let o = op_at(lines, top - 1);
    if o != MULTISET_CONS {
        return 0;
    }
    let p = op_at(lines, top);
    if p == SUM {
        return top;
    }
    if p != PAIR {
        return 0;
    }
    let q = op_at(lines, top + 1);
    if q == SUM {
        return top + 1;
    }
    0
}

// The line that asks after line i, for what waits at the pair's line.
#[tactic(auto, using(crate::proofs::Lines::second_rules))]
fn second_at(top: usize, i: usize, lines: &Lines) -> usize
    requires { top < i → (i < entries) × (get_or (columns_of lines.now).to i 0 < entries) }
    ensures { result ≡ second_of (columns_of lines.now).op (columns_of lines.now).from (columns_of lines.now).to top i }
{
    if i <= top {
        return i;
    }
    let f = from_at(lines, i);
    if f != top {
        return i;
    }
    let k = to_at(lines, i);
    let o = op_at(lines, k);
    if o == SUM {
        return k;
    }
    i
}

// The lines of the next choice that ask.
#[tactic(auto, using(crate::proofs::Lines::asked_rules))]
pub fn asked_at(x: State, lines: &Lines) -> Asking
    requires { Opens (columns_of lines.now).op (columns_of lines.now).to x }
    ensures { result ≡ asked_of (columns_of lines.now).op (columns_of lines.now).from (columns_of lines.now).to x }
{
    let i = first_at(x, lines);
    Asking {
        part: x.top,
        first: i,
        second: second_at(x.top, i, lines),
    }
}

// The integer that a line asks for: the one at an index, plus the line's constant.
#[tactic(auto, using(crate::proofs::Lines::asked_rules))]
fn sum_at(i: usize, at: usize, lines: &Lines) -> Sum
    requires line { i < entries }
    requires constant { i < length (columns_of lines.now).con }
    ensures { result ≡ sum_of (columns_of lines.now).con i at }
{
    Sum {
        at,
        plus: con_at(lines, i),
    }
}

// The choices of the last open frame that fail are passed over; g and h: where the integers stand that the first line and the second ask for. The steps.
pub fn pass(
    begun: u64,
    a: Asking,
    g: usize,
    h: usize,
    budget: u64,
    units: Units,
    places: &Places,
    lines: &Lines,
    slots: &mut Slots,
) -> u64
    requires placed { Placed units.words.now places.now }
    requires seeking { Seeking units.words.now (columns_of lines.now).con (columns_of lines.now).arg slots.old a g h budget begun }
    ensures integers { (a.first ≡ a.part → Over units.entry.words.now (columns_of lines.now).con g budget a.part begun (view_of (columns_of lines.now).arg slots.old) result (view_of (columns_of lines.now).arg slots.new)) }
    ensures pairs { ((a.first ≡ a.part → ⊥) → OverPairs units.entry.words.now (wanted_of (columns_of lines.now).con a g h) budget a.part begun (view_of (columns_of lines.now).arg slots.old) result (view_of (columns_of lines.now).arg slots.new)) }
{
    if a.first == a.part {
        return pass_over(a.part, begun, g, budget, units, places, lines, slots);
    }
    let first = sum_at(a.first, g, lines);
    if a.first == a.second {
        let one = Wanted {
            first,
            second: None,
        };
        return pass_pairs(a.part, begun, one, budget, units, places, lines, slots);
    }
    let second = sum_at(a.second, h, lines);
    let two = Wanted {
        first,
        second: Some(second),
    };
    pass_pairs(a.part, begun, two, budget, units, places, lines, slots)
}
