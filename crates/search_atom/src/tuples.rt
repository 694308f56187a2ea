// A tuple's parts: the first is next, the others wait in slots.
ghost use Rattle.std.specs.Prelude.{◌≡◌, ◌+◌, ◌-◌, ◌<◌, ◌≤◌};
ghost use Rattle.tables.specs.Line.{columns_of};
ghost use Rattle.tables.specs.Slot.{view_of, Slotted, Alone, put_held};
ghost use Rattle.value_places.specs.Places.{count_at, element_at, Target, Tag};
ghost use Rattle.value_places.specs.Tables.{Placed};
ghost use Rattle.search_atom.specs.Leaves.{is_wide, part_held, parts_in, Parts};

use tables::instruction::JOIN;
use tables::line::Lines;
use tables::place::Places;
use tables::slot::{Held, Slots, put_held};
use value_places::places::{Units, count_at, element, whole};

// How many parts wait at an instruction: of two to four parts, all but the first.
pub fn later(o: u16) -> usize
    requires { 10 < o }
    ensures { result ≡ o - 10 }
{
    let n = o - JOIN;
    n as usize
}

// Whether the value at an index has n parts and one.
#[tactic(auto, using(crate::proofs::Laws::wide_rules))]
pub fn is_wide(units: Units, at: usize, n: usize) -> bool
    requires tag { Tag units.words.now at }
    requires few { n < 256 }
    ensures { result ≡ is_wide units.entry.words.now at n }
{
    let k = count_at(units, at);
    (k as usize) == n + 1
}

// Part i waits at a line.
#[tactic(auto, using(crate::proofs::Laws::part_rules))]
fn put_part(
    units: Units,
    places: &Places,
    at: usize,
    i: u32,
    pc: usize,
    lines: &Lines,
    slots: &mut Slots,
)
    requires placed { Placed units.words.now places.now }
    requires part { Tag units.words.now at × (i < count_at units.words.now at) }
    requires slotted { Slotted (columns_of lines.now).arg slots.old pc }
    requires alone { Alone (columns_of lines.now).arg pc }
    ensures { view_of (columns_of lines.now).arg slots.new ≡ put_held pc (part_held units.entry.words.now at i) (view_of (columns_of lines.now).arg slots.old) }
{
    let e = element(units, places, at, i);
    let m = whole(units, e);
    put_held(slots, lines, pc, Held { at: e, marks: m });
}

// The n parts after the first, one to three, wait at the lines from one on.
#[tactic(auto, using(crate::proofs::Laws::keep_rules))]
pub fn keep(
    units: Units,
    places: &Places,
    at: usize,
    from: usize,
    n: usize,
    lines: &Lines,
    slots: &mut Slots,
)
    requires placed { Placed units.words.now places.now }
    requires tag { Tag units.words.now at }
    requires parts_wide { (n < count_at units.words.now at) × (0 < n) × (n < 4) }
    requires parts { Parts (columns_of lines.now).arg slots.old from n }
    ensures { view_of (columns_of lines.now).arg slots.new ≡ parts_in units.entry.words.now at from n (view_of (columns_of lines.now).arg slots.old) }
{
    put_part(units, places, at, 1, from, lines, slots);
    if n < 2 {
        return;
    }
    put_part(units, places, at, 2, from + 1, lines, slots);
    if n < 3 {
        return;
    }
    put_part(units, places, at, 3, from + 2, lines, slots);
}
