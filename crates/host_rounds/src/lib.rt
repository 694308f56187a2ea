// Document 02, No. 10: match by rounds at the border to C. The table of waiting states is a lent slice of words, as the room is.
#![tactic(auto)]

ghost use Rattle.std.specs.Prelude.{◌≡◌, length};
ghost use Rattle.host.specs.Border.{called};
ghost use Rattle.host_rounds.specs.Rounds.{rounds_called};

use host::tell;
use service_rounds::match_rounds;

// The bytes of the numbers.
const BYTES: usize = 48;

// 24 short: the slice for the numbers is too short for them.
const SHORT: u32 = 24;

// Match in the other search order, with its rows in the form, and in the dialect, that the caller picks; what is left in the table is of no account.
#[tactic(auto, unfolding(crate::specs::Rounds::rounds_called, host::specs::Border::match_told, host::specs::Border::match_numbers, services::specs::Matches::told))]
#[unsafe(no_mangle)]
pub extern "C" fn lozhbinor_rounds(
    form: u32,
    dialect: u32,
    matcher: &[i32],
    pattern: &[i32],
    target: &[i32],
    budget: u32,
    table: &mut [i32],
    room: &mut [i32],
    numbers: &mut [u8],
) -> u32
    ensures { called result room.new numbers.new ≡ rounds_called form dialect matcher.now pattern.now target.now budget (length table.old) room.old numbers.old }
{
    if numbers.len() < BYTES {
        return SHORT;
    }
    let m = match_rounds(form, dialect, matcher, pattern, target, budget, table, room);
    tell(m, numbers)
}
