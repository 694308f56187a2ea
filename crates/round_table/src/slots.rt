// The values that wait in a run's slots, by the numbers of the slots.
#![tactic(auto, unfolding(crate::specs::Waiting::waiting_in, crate::specs::Waiting::put_waiting))]

ghost use Rattle.std.specs.Prelude.{◌≡◌, ◌+◌, ◌<◌, set};
ghost use Rattle.round_table.specs.Waiting.{waiting_in, put_waiting};

use tables::slot::{Held, SLOTS, Slots};

// Where the sections start, as `tables` has them.
const LOWS: usize = 3 * SLOTS;

const BACKS: usize = 4 * SLOTS;

// The value that waits in a slot.
pub fn waiting_at(slots: &Slots, j: usize) -> Held
    requires { j < 272 }
    ensures { result ≡ waiting_in slots.now j }
{
    Held {
        at: slots[j] as usize,
        marks: slots[BACKS + j],
    }
}

// A value waits in a slot.
pub fn put_waiting(slots: &mut Slots, j: usize, h: Held)
    requires { j < 272 }
    ensures { slots.new ≡ put_waiting slots.old j h }
{
    slots[j] = h.at as u64;
    slots[BACKS + j] = h.marks;
}

// No frame is below that of a slot.
pub fn put_alone(slots: &mut Slots, j: usize)
    requires { j < 272 }
    ensures { slots.new ≡ set slots.old (816 + j) 0 }
{
    slots[LOWS + j] = 0;
}
