// Document 02, No. 8: whether a run that the game lends is one that a search may go on from, whatever its bytes are.
#![tactic(auto)]

pub mod held;
pub mod lines;

ghost use Rattle.std.specs.Prelude.{◌≡◌};
ghost use Rattle.tables.specs.Line.{columns_of};
ghost use Rattle.tables.specs.Slot.{view_of};
ghost use Rattle.run_sound.specs.Tested.{Decides};
ghost use Rattle.run_sound.specs.Sound.{Numbered, Closes, Sound};

use held::{are_bound, is_held};
use lines::{are_lines, is_open};
use search_step::State;
use tables::line::Lines;
use tables::slot::Slots;
use value_rows::Bindings;
use words::ENTRIES;

// Of a run in which a state stands, over a room of some words.
#[tactic(auto, using(crate::proofs::Runs::sound_rules))]
pub fn is_sound(x: State, b: Bindings, room: usize, s: &[i32], lines: &Lines, slots: &Slots) -> bool
    requires numbered { Numbered (columns_of lines.now).arg slots.now }
    requires closes { Closes (columns_of lines.now).op (columns_of lines.now).arg }
    ensures { Decides result (Sound (columns_of lines.now).op s.now (view_of (columns_of lines.now).arg slots.now) x b room) }
{
    if ENTRIES <= x.pc {
        return false;
    }
    if room < x.words {
        return false;
    }
    if x.steps < x.rows {
        return false;
    }
    if !is_held(s, x.at, x.marks) {
        return false;
    }
    if !is_open(x.top, s, lines, slots) {
        return false;
    }
    if !are_bound(s, b) {
        return false;
    }
    are_lines(s, lines, slots)
}
