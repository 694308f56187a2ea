// The words of room that suffice for a rule, at the border to C.
ghost use Rattle.std.specs.Prelude.{◌≡◌, []};
ghost use Rattle.host.specs.Border.{called};
ghost use Rattle.host.specs.Rooms.{room_called};

use crate::SHORT;
use host_numbers::put_numbers;
use service_room::room;

// The bytes of three numbers.
const ROOM_BYTES: usize = 24;

#[tactic(auto, unfolding(crate::specs::Rooms::room_called, crate::specs::Rooms::room_told, crate::specs::Rooms::room_numbers, service_room::specs::Told::roomed))]
#[unsafe(no_mangle)]
pub extern "C" fn lozhbinor_room(
    form: u32,
    matcher: &[i32],
    pattern: &[i32],
    cap: i32,
    longest: u32,
    numbers: &mut [u8],
) -> u32
    ensures { called result [] numbers.new ≡ room_called form matcher.now pattern.now cap longest numbers.old }
{
    if numbers.len() < ROOM_BYTES {
        return SHORT;
    }
    let m = room(form, matcher, pattern, cap, longest);
    put_numbers(numbers, &[u64::from(m.answer), m.place as u64, m.words]);
    m.answer
}
