// The lines of the trial program's input.
ghost use Rattle.std.specs.Prelude.{◌≡◌, ◌≤◌, length};
ghost use Rattle.text_ask.specs.Question.{pieces, limits};
ghost use Rattle.text_ask.specs.Meaning.{ReadWords, of_bounds};

use crate::asked::Bounds;
use crate::{LINE_WORDS, ROOM_WORDS};
use text_number::{up_to, word};

const LARGEST_BUDGET: u64 = u32::MAX as u64;

const LARGEST_ROOM: u64 = ROOM_WORDS as u64;

// How many words one of the lines 1 to 3 has. They go to the start of the table.
pub(crate) fn words_of(text: &[u8], out: &mut [i32]) -> Option<usize>
    requires { 2000 ≤ length out.old }
    ensures { ReadWords text.now result out.new }
{
    if text.is_empty() {
        return Some(0);
    }
    let mut count = 0;
    for piece in text.split(|byte| *byte == b' ') {
        let number = word(piece)?;
        if count == LINE_WORDS {
            return None;
        }
        out[count] = number;
        count += 1;
    }
    Some(count)
}

// The two numbers of line 4.
pub(crate) fn bounds_of(text: &[u8]) -> Option<Bounds>
    ensures { of_bounds result ≡ limits (pieces text.now) }
{
    let mut pieces = text.split(|byte| *byte == b' ');
    let budget = pieces.next()?;
    let room = pieces.next()?;
    if pieces.next().is_some() {
        return None;
    }
    Some(Bounds {
        budget: up_to(budget, LARGEST_BUDGET)? as u32,
        room: up_to(room, LARGEST_ROOM)? as usize,
    })
}
