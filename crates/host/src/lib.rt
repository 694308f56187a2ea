// Document 01, section 1: the border to C. Words cross as slices of i32; the answer's numbers go to a lent slice of bytes.
#![tactic(auto)]

pub mod books;
pub mod rooms;

ghost use Rattle.std.specs.Prelude.{◌≡◌, ◌≤◌, length, ◌∷◌, []};
ghost use Rattle.host_numbers.specs.Numbers.{bytes_of, over};
ghost use Rattle.host.specs.Border.{called, match_called, match_with_called, review_called, review_with_called};

use host_numbers::put_numbers;
use services::matching::{Matched, match_units, match_units_with};
use services::review::{Reviewed, review, review_with};

// The bytes of match's numbers, and of review's.
const MATCH_BYTES: usize = 48;

const REVIEW_BYTES: usize = 24;

// The numbers of a match are written, and its answer is given back.
pub fn tell(m: Matched, numbers: &mut [u8]) -> u32
    requires { 48 ≤ length numbers.old }
    ensures answer { result ≡ m.answer }
    ensures written { numbers.new ≡ over (bytes_of (m.answer ∷ m.place ∷ m.rows ∷ m.steps ∷ m.words ∷ m.cause ∷ [])) numbers.old }
{
    put_numbers(
        numbers,
        &[
            u64::from(m.answer),
            m.place as u64,
            m.rows,
            m.steps,
            m.words as u64,
            u64::from(m.cause),
        ],
    );
    m.answer
}

// The numbers of a review are written, and its answer is given back.
fn tell_review(m: Reviewed, numbers: &mut [u8]) -> u32
    requires { 24 ≤ length numbers.old }
    ensures answer { result ≡ m.answer }
    ensures written { numbers.new ≡ over (bytes_of (m.answer ∷ m.place ∷ m.count ∷ [])) numbers.old }
{
    put_numbers(numbers, &[u64::from(m.answer), m.place as u64, m.count]);
    m.answer
}

// 24 short: the slice for the numbers is too short for them. Each call looks before all else and says it in a line; a closure for the rest of it is no plainer.
const SHORT: u32 = 24;

// The library's version, as the header has it: a thousand times the first number, plus the second.
const VERSION: u32 = 3000;

#[unsafe(no_mangle)]
pub extern "C" fn lozhbinor_version() -> u32
    ensures { result ≡ 3000 }
{
    VERSION
}

#[tactic(auto, unfolding(crate::specs::Border::match_called, crate::specs::Border::match_told, crate::specs::Border::match_numbers, services::specs::Matches::told))]
#[unsafe(no_mangle)]
pub extern "C" fn lozhbinor_match(
    matcher: &[i32],
    pattern: &[i32],
    target: &[i32],
    budget: u32,
    room: &mut [i32],
    numbers: &mut [u8],
) -> u32
    ensures { called result room.new numbers.new ≡ match_called matcher.now pattern.now target.now budget room.old numbers.old }
{
    if numbers.len() < MATCH_BYTES {
        return SHORT;
    }
    let m = match_units(matcher, pattern, target, budget, room);
    tell(m, numbers)
}

// Match with its rows in the form, and in the dialect, that the caller picks: 20 where that form is unknown, and 22 where that dialect is.
#[tactic(auto, unfolding(crate::specs::Border::match_with_called, crate::specs::Border::match_told, crate::specs::Border::match_numbers, services::specs::Matches::told))]
#[unsafe(no_mangle)]
pub extern "C" fn lozhbinor_match_with(
    form: u32,
    dialect: u32,
    matcher: &[i32],
    pattern: &[i32],
    target: &[i32],
    budget: u32,
    room: &mut [i32],
    numbers: &mut [u8],
) -> u32
    ensures { called result room.new numbers.new ≡ match_with_called form dialect matcher.now pattern.now target.now budget room.old numbers.old }
{
    if numbers.len() < MATCH_BYTES {
        return SHORT;
    }
    let m = match_units_with(form, dialect, matcher, pattern, target, budget, room);
    tell(m, numbers)
}

#[tactic(auto, unfolding(crate::specs::Border::review_called, crate::specs::Border::review_told, crate::specs::Border::review_numbers, services::specs::Reviews::reviewed))]
#[unsafe(no_mangle)]
pub extern "C" fn lozhbinor_review(
    matcher: &[i32],
    pattern: &[i32],
    cap: i32,
    numbers: &mut [u8],
) -> u32
    ensures { called result [] numbers.new ≡ review_called matcher.now pattern.now cap numbers.old }
{
    if numbers.len() < REVIEW_BYTES {
        return SHORT;
    }
    let m = review(matcher, pattern, cap);
    tell_review(m, numbers)
}

// Review in the dialect that the caller picks: 22 where that is unknown.
#[tactic(auto, unfolding(crate::specs::Border::review_with_called, crate::specs::Border::review_told, crate::specs::Border::review_numbers, services::specs::Reviews::reviewed))]
#[unsafe(no_mangle)]
pub extern "C" fn lozhbinor_review_with(
    dialect: u32,
    matcher: &[i32],
    pattern: &[i32],
    cap: i32,
    numbers: &mut [u8],
) -> u32
    ensures { called result [] numbers.new ≡ review_with_called dialect matcher.now pattern.now cap numbers.old }
{
    if numbers.len() < REVIEW_BYTES {
        return SHORT;
    }
    let m = review_with(dialect, matcher, pattern, cap);
    tell_review(m, numbers)
}
