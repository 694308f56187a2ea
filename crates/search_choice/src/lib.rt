// The next choice of the last open frame, taken where no state stands.
#![tactic(auto)]

ghost use Rattle.std.specs.Prelude.{◌≡◌, get_or};
ghost use Rattle.tables.specs.Line.{columns_of};
ghost use Rattle.tables.specs.Slot.{view_of, Slotted, Alone};
ghost use Rattle.value_places.specs.Places.{Target};
ghost use Rattle.value_places.specs.Tables.{Placed};
ghost use Rattle.search_step.specs.Steps.{turned};
ghost use Rattle.search_choice.specs.Choices.{join_of, cons_of, resumed_at, pick_of, settle_of, Joins, Conses, Named, Picks, PicksIf};

use search_atom::{leave, longer_front, slot_of};
use search_step::{CHOOSES, ENDED, STANDS, State};
use tables::instruction::{JOIN, MULTISET_CONS};
use tables::line::{Lines, op_at, to_at};
use tables::place::Places;
use tables::slot::{Slots, frame_at, held_at, low_at, put_back};
use value_places::places::{Units, element, whole};
use words::marks::{lowest, rest, without};

// The next front and back of the join at a line.
#[tactic(auto, using(crate::proofs::Laws::join_rules), unfolding(search_step::specs::Steps::moved, search_step::specs::Steps::topped))]
fn join(mut x: State, pc: usize, lines: &Lines, slots: &mut Slots) -> State
    requires joins { Joins (view_of (columns_of lines.now).arg slots.old).wholes (view_of (columns_of lines.now).arg slots.old).lefts pc }
    requires slotted { Slotted (columns_of lines.now).arg slots.old pc }
    requires alone { Alone (columns_of lines.now).arg pc }
    ensures { turned result (view_of (columns_of lines.now).arg slots.new) ≡ join_of pc x (view_of (columns_of lines.now).arg slots.old) }
{
    let f = frame_at(slots, lines, pc);
    let m = f.whole;
    let c = f.left;
    let b = m - c;
    put_back(slots, lines, pc, b);
    x.pc = pc + 1;
    x.at = f.at;
    x.marks = c;
    x.live = STANDS;
    let more = longer_front(c, b);
    let top = x.top;
    x.top = leave(top, more, pc, lines, slots);
    x
}

// The next element of the cons at a line.
#[tactic(auto, using(crate::proofs::Laws::cons_rules), unfolding(search_step::specs::Steps::moved, search_step::specs::Steps::topped))]
fn cons(
    mut x: State,
    pc: usize,
    units: Units,
    places: &Places,
    lines: &Lines,
    slots: &mut Slots,
) -> State
    requires placed { Placed units.words.now places.now }
    requires conses { Conses units.words.now (view_of (columns_of lines.now).arg slots.old).ats (view_of (columns_of lines.now).arg slots.old).lefts pc }
    requires slotted { Slotted (columns_of lines.now).arg slots.old pc }
    requires alone { Alone (columns_of lines.now).arg pc }
    ensures { turned result (view_of (columns_of lines.now).arg slots.new) ≡ cons_of units.entry.words.now pc x (view_of (columns_of lines.now).arg slots.old) }
{
    let f = frame_at(slots, lines, pc);
    let t = f.at;
    let m = f.whole;
    let c = f.left;
    let k = lowest(c);
    let e = element(units, places, t, k);
    let a = whole(units, e);
    let b = without(m, k);
    put_back(slots, lines, pc, b);
    x.pc = pc + 1;
    x.at = e;
    x.marks = a;
    x.live = STANDS;
    let more = rest(c);
    let top = x.top;
    x.top = leave(top, more, pc, lines, slots);
    x
}

// The frame of the or or not at a line is no longer open: the second side, or what follows the not.
#[tactic(auto, using(crate::proofs::Laws::resume_rules), unfolding(search_step::specs::Steps::moved, search_step::specs::Steps::topped))]
fn resume(mut x: State, o: u16, pc: usize, lines: &Lines, slots: &Slots) -> State
    requires slotted { Slotted (columns_of lines.now).arg slots.now pc }
    requires slotted_from { Slotted (columns_of lines.now).arg slots.now (get_or (columns_of lines.now).from pc 0) }
    ensures { result ≡ resumed_at o pc (columns_of lines.now).from (columns_of lines.now).to (view_of (columns_of lines.now).arg slots.now).ats (view_of (columns_of lines.now).arg slots.now).lows (view_of (columns_of lines.now).arg slots.now).backs x }
{
    let i = slot_of(o, pc, lines);
    let h = held_at(slots, lines, i);
    x.pc = to_at(lines, pc);
    x.at = h.at;
    x.marks = h.marks;
    x.top = low_at(slots, lines, pc);
    x.live = STANDS;
    x
}

// The next choice of the last open frame.
#[tactic(auto, using(crate::proofs::Laws::pick_rules), unfolding(search_step::specs::Steps::lived))]
pub fn pick(mut x: State, units: Units, places: &Places, lines: &Lines, slots: &mut Slots) -> State
    requires placed { Placed units.words.now places.now }
    requires named { Named (columns_of lines.now).op (columns_of lines.now).from (columns_of lines.now).arg slots.old }
    requires picks { Picks (columns_of lines.now).op units.words.now x.top (view_of (columns_of lines.now).arg slots.old).ats (view_of (columns_of lines.now).arg slots.old).wholes (view_of (columns_of lines.now).arg slots.old).lefts }
    ensures { turned result (view_of (columns_of lines.now).arg slots.new) ≡ pick_of (columns_of lines.now).op (columns_of lines.now).from (columns_of lines.now).to units.entry.words.now x (view_of (columns_of lines.now).arg slots.old) }
{
    let top = x.top;
    if top == 0 {
        x.live = ENDED;
        return x;
    }
    let pc = top - 1;
    let o = op_at(lines, pc);
    if MULTISET_CONS < o {
        if o == JOIN {
            return join(x, pc, lines, slots);
        }
        return resume(x, o, pc, lines, slots);
    }
    cons(x, pc, units, places, lines, slots)
}

// The next choice is taken where no state stands.
#[tactic(auto, using(crate::proofs::Laws::settle_rules), unfolding(crate::specs::Choices::settle_of))]
pub fn settle(x: State, units: Units, places: &Places, lines: &Lines, slots: &mut Slots) -> State
    requires placed { Placed units.words.now places.now }
    requires named { Named (columns_of lines.now).op (columns_of lines.now).from (columns_of lines.now).arg slots.old }
    requires picks_if { PicksIf x.live (columns_of lines.now).op units.words.now x.top (view_of (columns_of lines.now).arg slots.old).ats (view_of (columns_of lines.now).arg slots.old).wholes (view_of (columns_of lines.now).arg slots.old).lefts }
    ensures { turned result (view_of (columns_of lines.now).arg slots.new) ≡ settle_of (columns_of lines.now).op (columns_of lines.now).from (columns_of lines.now).to units.entry.words.now x (view_of (columns_of lines.now).arg slots.old) }
{
    let live = x.live;
    if live == CHOOSES {
        return pick(x, units, places, lines, slots);
    }
    x
}
