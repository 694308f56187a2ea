// Document 01, section 4: choices of a multiset's cons that fail at the integer which its first part asks for, passed over at once, each for its step.
#![tactic(auto)]

pub mod asked;
pub mod pairs;

ghost use Rattle.std.specs.Prelude.{◌+◌, ◌-◌, ◌<◌, ◌≤◌, length};
ghost use Rattle.tables.specs.Line.{columns_of};
ghost use Rattle.tables.specs.Slot.{view_of, Slotted, Alone};
ghost use Rattle.value_places.specs.Places.{Target};
ghost use Rattle.value_places.specs.Tables.{Placed};
ghost use Rattle.value_places.specs.Held.{Held};
ghost use Rattle.search_seek.specs.Passed.{Passed, Over, Seeks};

use tables::line::{Lines, con_at};
use tables::place::Places;
use tables::slot::{Slots, frame_at, put_left};
use value_equality::is_sum;
use value_places::places::{Units, element};
use words::marks::{lowest, rest};

// The choices left, and the steps taken.
#[derive(Drop)]
pub struct Sought {
    pub left: u64,
    pub steps: u64,
}

// The choices of the collection at an index are passed over, the lowest first, up to one that is the integer at g plus c, to the last, or to the budget.
#[tactic(auto, using(crate::proofs::Laws::seek_rules))]
pub fn seek(
    first: Sought,
    at: usize,
    g: usize,
    c: i32,
    budget: u64,
    units: Units,
    places: &Places,
) -> Sought
    requires placed { Placed units.words.now places.now }
    requires held { Held units.words.now at first.left }
    requires counted { (0 < first.left) × (g + 1 < length units.words.now) × (first.steps ≤ budget) }
    ensures { Passed units.entry.words.now at g c first.left first.steps result.left result.steps × (result.steps ≤ budget) }
{
    let mut left = first.left;
    let mut steps = first.steps;
    let mut more = rest(left);
    // Not over positions: the marks that are left are the answer, and end it one mark early.
    while 0 < more {
        let k = lowest(left);
        let e = element(units, places, at, k);
        let found = is_sum(units.words, g, c, e);
        if found {
            return Sought {
                left: left,
                steps: steps,
            };
        }
        if budget <= steps {
            return Sought {
                left: left,
                steps: steps,
            };
        }
        steps += 1;
        left = more;
        more = rest(left);
    }
    Sought {
        left: left,
        steps: steps,
    }
}

// The choices of the frame before line `top` that fail are passed over; g: the index of the integer that is asked for, but for the line's constant. The steps.
pub fn pass_over(
    top: usize,
    begun: u64,
    g: usize,
    budget: u64,
    units: Units,
    places: &Places,
    lines: &Lines,
    slots: &mut Slots,
) -> u64
    requires placed { Placed units.words.now places.now }
    requires seeks { Seeks units.words.now (columns_of lines.now).con g budget top begun (view_of (columns_of lines.now).arg slots.old) }
    requires slotted { Slotted (columns_of lines.now).arg slots.old (top - 1) }
    requires alone { Alone (columns_of lines.now).arg (top - 1) }
    ensures { Over units.entry.words.now (columns_of lines.now).con g budget top begun (view_of (columns_of lines.now).arg slots.old) result (view_of (columns_of lines.now).arg slots.new) }
{
    let j = top - 1;
    let f = frame_at(slots, lines, j);
    let at = f.at;
    let c = con_at(lines, top);
    let first = Sought {
        left: f.left,
        steps: begun,
    };
    let last = seek(first, at, g, c, budget, units, places);
    put_left(slots, lines, j, last.left);
    last.steps
}
