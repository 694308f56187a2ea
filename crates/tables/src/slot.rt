// The slots of a run, in sections: a number of every slot, then the next number of every slot. A line's number says which slot is its own. That a line has a
// slot, and has it alone, is a fact of this line and not of the tables, so each function here asks for both. (Lines and slots stand beside each other: lent in
// one struct, T5 of bench/speed.rs takes 90 instructions a step and T9 96; their bars are 85 and 92.)
#![tactic(auto, using(crate::proofs::Slots::slot_rules))]

ghost use Rattle.std.specs.Prelude.{◌≡◌, get_or};
ghost use Rattle.tables.specs.Line.{columns_of};
ghost use Rattle.tables.specs.Slot.{view_of, no_slots, Slotted, Alone, held_in, frame_in, put_held, put_frame, put_side, put_left, put_back};

use super::line::{Lines, arg_at};

pub const SLOTS: usize = 272;

// Where the sections start; that of the values' places at 0.
const WHOLES: usize = SLOTS;

const LEFTS: usize = 2 * SLOTS;

const LOWS: usize = 3 * SLOTS;

const BACKS: usize = 4 * SLOTS;

const NUMBERS: usize = 5 * SLOTS;

pub type Slots = [u64; NUMBERS];

// What is left of a value of the target: the index of its tag, and marks.
#[derive(Drop)]
pub struct Held {
    pub at: usize,
    pub marks: u64,
}

// An open choice: the value that is divided, its place and marks, and what is left to choose from.
#[derive(Drop)]
pub struct Frame {
    pub at: usize,
    pub whole: u64,
    pub left: u64,
}

pub fn no_slots() -> Slots
    ensures { result ≡ no_slots }
{
    [0u64; NUMBERS]
}

// The value that waits at a line.
pub fn held_at(slots: &Slots, lines: &Lines, pc: usize) -> Held
    requires { Slotted (columns_of lines.now).arg slots.now pc }
    ensures { result ≡ held_in (view_of (columns_of lines.now).arg slots.now) pc }
{
    let j = arg_at(lines, pc);
    Held {
        at: slots[j] as usize,
        marks: slots[BACKS + j],
    }
}

// The frame at a line.
pub fn frame_at(slots: &Slots, lines: &Lines, pc: usize) -> Frame
    requires { Slotted (columns_of lines.now).arg slots.now pc }
    ensures { result ≡ frame_in (view_of (columns_of lines.now).arg slots.now) pc }
{
    let j = arg_at(lines, pc);
    Frame {
        at: slots[j] as usize,
        whole: slots[WHOLES + j],
        left: slots[LEFTS + j],
    }
}

// The frame below that at a line.
pub fn low_at(slots: &Slots, lines: &Lines, pc: usize) -> usize
    requires { Slotted (columns_of lines.now).arg slots.now pc }
    ensures { result ≡ get_or (view_of (columns_of lines.now).arg slots.now).lows pc 0 }
{
    let j = arg_at(lines, pc);
    slots[LOWS + j] as usize
}

// A value waits at a line.
pub fn put_held(slots: &mut Slots, lines: &Lines, pc: usize, h: Held)
    requires slotted { Slotted (columns_of lines.now).arg slots.old pc }
    requires alone { Alone (columns_of lines.now).arg pc }
    ensures { view_of (columns_of lines.now).arg slots.new ≡ put_held pc h (view_of (columns_of lines.now).arg slots.old) }
{
    let j = arg_at(lines, pc);
    slots[j] = h.at as u64;
    slots[BACKS + j] = h.marks;
}

// A frame is opened at a line, over the one below.
pub fn put_frame(slots: &mut Slots, lines: &Lines, pc: usize, f: Frame, low: usize)
    requires slotted { Slotted (columns_of lines.now).arg slots.old pc }
    requires alone { Alone (columns_of lines.now).arg pc }
    ensures { view_of (columns_of lines.now).arg slots.new ≡ put_frame pc f low (view_of (columns_of lines.now).arg slots.old) }
{
    let j = arg_at(lines, pc);
    slots[j] = f.at as u64;
    slots[WHOLES + j] = f.whole;
    slots[LEFTS + j] = f.left;
    slots[LOWS + j] = low as u64;
}

// A frame with one choice left, and the value for it.
pub fn put_side(slots: &mut Slots, lines: &Lines, pc: usize, h: Held, low: usize)
    requires slotted { Slotted (columns_of lines.now).arg slots.old pc }
    requires alone { Alone (columns_of lines.now).arg pc }
    ensures { view_of (columns_of lines.now).arg slots.new ≡ put_side pc h low (view_of (columns_of lines.now).arg slots.old) }
{
    let j = arg_at(lines, pc);
    slots[j] = h.at as u64;
    slots[LOWS + j] = low as u64;
    slots[BACKS + j] = h.marks;
}

// What is left to choose from at a line.
pub fn put_left(slots: &mut Slots, lines: &Lines, pc: usize, left: u64)
    requires slotted { Slotted (columns_of lines.now).arg slots.old pc }
    requires alone { Alone (columns_of lines.now).arg pc }
    ensures { view_of (columns_of lines.now).arg slots.new ≡ put_left pc left (view_of (columns_of lines.now).arg slots.old) }
{
    let j = arg_at(lines, pc);
    slots[LEFTS + j] = left;
}

// The marks that wait at a line.
pub fn put_back(slots: &mut Slots, lines: &Lines, pc: usize, back: u64)
    requires slotted { Slotted (columns_of lines.now).arg slots.old pc }
    requires alone { Alone (columns_of lines.now).arg pc }
    ensures { view_of (columns_of lines.now).arg slots.new ≡ put_back pc back (view_of (columns_of lines.now).arg slots.old) }
{
    let j = arg_at(lines, pc);
    slots[BACKS + j] = back;
}
