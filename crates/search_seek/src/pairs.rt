// Document 01, section 4: choices of a multiset's cons that are pairs, and fail at the integer which their first part is asked for or at that of their second,
// passed over at once, each for its steps.
ghost use Rattle.std.specs.Prelude.{◌≡◌, ◌-◌, ◌<◌, ◌≤◌};
ghost use Rattle.tables.specs.Line.{columns_of};
ghost use Rattle.tables.specs.Slot.{view_of, Slotted, Alone};
ghost use Rattle.value_places.specs.Places.{Target, Tag};
ghost use Rattle.value_places.specs.Tables.{Placed};
ghost use Rattle.value_places.specs.Held.{Held};
ghost use Rattle.search_atom.specs.Leaves.{Parts};
ghost use Rattle.search_seek.specs.Pairs.{cost_of, PassedPairs, OverPairs, Integers, SeeksPairs};

use crate::Sought;
use search_atom::tuples::{is_wide, keep};
use tables::line::Lines;
use tables::place::Places;
use tables::slot::{Slots, frame_at, put_left};
use value_equality::is_sum;
use value_places::places::{Units, element};
use words::marks::{lowest, rest};

// An integer that is asked for: the one at an index, plus a constant.
#[derive(Clone, Copy)]
pub struct Sum {
    pub at: usize,
    pub plus: i32,
}

// What a pair is asked for: an integer as its first part, and perhaps another as its second.
#[derive(Clone, Copy)]
pub struct Wanted {
    pub first: Sum,
    pub second: Option<Sum>,
}

// The steps of a value that fails: two at the first part of a pair, which stands after its two words; three at its second. 0 where it does not fail, or is
// no pair.
#[tactic(auto, using(crate::proofs::Passing::cost_rules))]
fn cost(e: usize, w: Wanted, units: Units, places: &Places) -> u64
    requires placed { Placed units.words.now places.now }
    requires tag { Tag units.words.now e }
    requires integers { Integers units.words.now w }
    ensures { result ≡ cost_of units.entry.words.now w e }
{
    let fits = is_wide(units, e, 1);
    if !fits {
        return 0;
    }
    let first = is_sum(units.words, w.first.at, w.first.plus, e + 2);
    if !first {
        return 2;
    }
    let Some(second) = w.second else {
        return 0;
    };
    let b = element(units, places, e, 1);
    let found = is_sum(units.words, second.at, second.plus, b);
    if found {
        return 0;
    }
    3
}

// The choices left, the steps taken, and the last choice passed over; 0 where none is.
#[derive(Drop)]
pub struct Passing {
    pub left: u64,
    pub steps: u64,
    pub last: usize,
}

// The choices of the collection at an index are passed over, the lowest first, up to one that does not fail, to the last, or to the budget.
#[tactic(auto, using(crate::proofs::Passing::pair_rules))]
pub fn seek_pairs(
    first: Sought,
    at: usize,
    w: Wanted,
    budget: u64,
    units: Units,
    places: &Places,
) -> Passing
    requires placed { Placed units.words.now places.now }
    requires integers { Integers units.words.now w }
    requires held { Held units.words.now at first.left }
    requires counted { (0 < first.left) × (first.steps ≤ budget) }
    ensures { PassedPairs units.entry.words.now at w first.left first.steps result.left result.steps result.last × (result.steps ≤ budget) }
{
    let mut left = first.left;
    let mut steps = first.steps;
    let mut last: usize = 0;
    let mut more = rest(left);
    // Not over positions: the marks that are left are the answer, and end it one mark early.
    while 0 < more {
        let k = lowest(left);
        let e = element(units, places, at, k);
        let n = cost(e, w, units, places);
        if n == 0 {
            return Passing {
                left: left,
                steps: steps,
                last: last,
            };
        }
        if budget - steps < n {
            return Passing {
                left: left,
                steps: steps,
                last: last,
            };
        }
        steps += n;
        last = e;
        left = more;
        more = rest(left);
    }
    Passing {
        left: left,
        steps: steps,
        last: last,
    }
}

// The pairs of the frame before line `top` that fail are passed over; the second part of the last one waits at that line. The steps.
pub fn pass_pairs(
    top: usize,
    begun: u64,
    w: Wanted,
    budget: u64,
    units: Units,
    places: &Places,
    lines: &Lines,
    slots: &mut Slots,
) -> u64
    requires placed { Placed units.words.now places.now }
    requires seeks_pairs { SeeksPairs units.words.now w budget top begun (view_of (columns_of lines.now).arg slots.old) }
    requires slotted { Slotted (columns_of lines.now).arg slots.old (top - 1) }
    requires alone { Alone (columns_of lines.now).arg (top - 1) × Parts (columns_of lines.now).arg slots.old top 1 }
    ensures { OverPairs units.entry.words.now w budget top begun (view_of (columns_of lines.now).arg slots.old) result (view_of (columns_of lines.now).arg slots.new) }
{
    let j = top - 1;
    let f = frame_at(slots, lines, j);
    let first = Sought {
        left: f.left,
        steps: begun,
    };
    let r = seek_pairs(first, f.at, w, budget, units, places);
    if r.last == 0 {
        return begun;
    }
    keep(units, places, r.last, top, 1, lines, slots);
    put_left(slots, lines, j, r.left);
    r.steps
}
