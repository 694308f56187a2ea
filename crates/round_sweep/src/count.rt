// How many states wait in the open frame.
ghost use Rattle.std.specs.Prelude.{◌≡◌, ◌≤◌};
ghost use Rattle.tables.specs.Line.{columns_of};
ghost use Rattle.tables.specs.Slot.{view_of};
ghost use Rattle.round_states.specs.Counts.{choices_in};
ghost use Rattle.round_sweep.specs.Frames.{Framing};

use tables::instruction::{JOIN, OR};
use tables::line::{Lines, op_at};
use tables::slot::{Slots, frame_at};
use words::marks::count;

// A cons has one for each mark left, a join one for each longer front and its own, an or one.
pub fn choices_left(top: usize, lines: &Lines, slots: &Slots) -> usize
    requires { Framing (columns_of lines.now).op (columns_of lines.now).arg slots.now top }
    ensures value { result ≡ choices_in (columns_of lines.now).op top (view_of (columns_of lines.now).arg slots.now) }
    ensures few { result ≤ 65 }
{
    if top == 0 {
        return 0;
    }
    let o = op_at(lines, top - 1);
    if o == OR {
        return 1;
    }
    let f = frame_at(slots, lines, top - 1);
    if o == JOIN {
        return count(f.whole - f.left) as usize + 1;
    }
    count(f.left) as usize
}
