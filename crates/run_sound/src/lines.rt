// Whether what waits in the slots of a program's lines is held, and whether the frames that they name can be chosen from.
ghost use Rattle.std.specs.Prelude.{◌≡◌, ◌<◌, get_or};
ghost use Rattle.words.specs.Words.{entries};
ghost use Rattle.tables.specs.Line.{columns_of};
ghost use Rattle.tables.specs.Slot.{view_of};
ghost use Rattle.search_choice.specs.Choices.{Picks};
ghost use Rattle.run_sound.specs.Tested.{Decides};
ghost use Rattle.run_sound.specs.Sound.{Numbered, Closes, Line, Lined};

use crate::held::{is_frame, is_held};
use tables::instruction::END;
use tables::line::{Lines, op_at};
use tables::slot::{Slots, frame_at, held_at, low_at};
use words::ENTRIES;

// The frame that `top` names, if it names one.
#[tactic(auto, using(crate::proofs::Runs::open_rules))]
pub fn is_open(top: usize, s: &[i32], lines: &Lines, slots: &Slots) -> bool
    requires { Numbered (columns_of lines.now).arg slots.now }
    ensures { Decides result (Picks (columns_of lines.now).op s.now top (view_of (columns_of lines.now).arg slots.now).ats (view_of (columns_of lines.now).arg slots.now).wholes (view_of (columns_of lines.now).arg slots.now).lefts) }
{
    if top == 0 {
        return true;
    }
    let j = top - 1;
    if ENTRIES <= j {
        return false;
    }
    let o = op_at(lines, j);
    let f = frame_at(slots, lines, j);
    is_frame(o, s, j, f.at, f.whole, f.left)
}

#[tactic(auto, using(crate::proofs::Runs::line_rules))]
fn is_line(j: usize, s: &[i32], lines: &Lines, slots: &Slots) -> bool
    requires numbered { Numbered (columns_of lines.now).arg slots.now }
    requires line { j < entries }
    ensures { Decides result (Line (columns_of lines.now).op s.now (view_of (columns_of lines.now).arg slots.now) j) }
{
    let h = held_at(slots, lines, j);
    if !is_held(s, h.at, h.marks) {
        return false;
    }
    let low = low_at(slots, lines, j);
    is_open(low, s, lines, slots)
}

// Whether a line is an end.
#[tactic(auto, using(crate::proofs::Runs::lines_rules))]
fn is_end(lines: &Lines, j: usize) -> bool
    requires { j < entries }
    ensures { Decides result (get_or (columns_of lines.now).op j 0 ≡ 0) }
{
    op_at(lines, j) == END
}

// The lines up to the end, and the last one, which stands for all after the end. Along no range: the program's own end stops it.
#[tactic(auto, using(crate::proofs::Runs::lines_rules))]
pub fn are_lines(s: &[i32], lines: &Lines, slots: &Slots) -> bool
    requires numbered { Numbered (columns_of lines.now).arg slots.now }
    requires closes { Closes (columns_of lines.now).op (columns_of lines.now).arg }
    ensures { Decides result (Lined (columns_of lines.now).op s.now (view_of (columns_of lines.now).arg slots.now)) }
{
    let mut j: usize = 0;
    while !is_end(lines, j) {
        if !is_line(j, s, lines, slots) {
            return false;
        }
        j += 1;
    }
    if !is_line(j, s, lines, slots) {
        return false;
    }
    is_line(ENTRIES - 1, s, lines, slots)
}
