// Document 02, No. 8: a run at the border to C. The game lends the run itself; a call reads it whole, works on it by value and stores it whole.
#![tactic(auto)]

ghost use Rattle.std.specs.Prelude.{◌≡◌};
ghost use Rattle.host_runs.specs.Runs.{OpenCalls, AdvanceCalls, both};

use host_numbers::put_numbers;
use search_step::State;
use service_runs::opening::opened;
use service_runs::run::{Run, advanced};
use value_rows::Binding;

// The run that a call leaves, and the answer that it gives back, which is C's number.
#[repr(C)]
#[derive(Drop)]
pub struct Called {
    pub run: Run,
    pub answer: u32,
}

// 24 short: the slice for the numbers is too short for them.
const SHORT: u32 = 24;

// The bytes of an opening's numbers, and of an advance's.
const OPEN_BYTES: usize = 24;

const ADVANCE_BYTES: usize = 48;

// An opening with the run by value.
#[tactic(auto, using(crate::proofs::Calls::open_rules))]
pub fn open_called(
    run: Run,
    form: u32,
    dialect: u32,
    matcher: &[i32],
    pattern: &[i32],
    target: &[i32],
    size: u32,
    numbers: &mut [u8],
) -> Called
    ensures { OpenCalls run form dialect matcher.now pattern.now target.now size numbers.old result numbers.new }
{
    if numbers.len() < OPEN_BYTES {
        return Called { run, answer: SHORT };
    }
    let start = opened(form, dialect, matcher, pattern, target, size);
    put_numbers(
        numbers,
        &[
            u64::from(start.answer),
            start.place as u64,
            u64::from(start.cause),
        ],
    );
    let next = start.run;
    Called {
        run: next,
        answer: start.answer,
    }
}

// An advance with the run by value.
#[tactic(auto, using(crate::proofs::Calls::advance_rules))]
pub fn advance_called(run: Run, steps: u32, room: &mut [i32], numbers: &mut [u8]) -> Called
    ensures { AdvanceCalls run steps room.old numbers.old result room.new numbers.new }
{
    if numbers.len() < ADVANCE_BYTES {
        return Called { run, answer: SHORT };
    }
    let out = advanced(run, steps, room);
    let told = out.told;
    put_numbers(
        numbers,
        &[
            u64::from(told.answer),
            told.place as u64,
            told.rows,
            told.steps,
            told.words as u64,
            u64::from(told.cause),
        ],
    );
    let next = out.run;
    Called {
        run: next,
        answer: told.answer,
    }
}

// Opens the run that is lent: answer, place and cause of a refusal, or 0 0 0.
#[unsafe(no_mangle)]
pub extern "C" fn lozhbinor_open(
    run: &mut Run,
    form: u32,
    dialect: u32,
    matcher: &[i32],
    pattern: &[i32],
    target: &[i32],
    size: u32,
    numbers: &mut [u8],
) -> u32
    ensures { OpenCalls run.old form dialect matcher.now pattern.now target.now size numbers.old (both run.new result) numbers.new }
{
    let begun = open_called(*run, form, dialect, matcher, pattern, target, size, numbers);
    *run = begun.run;
    begun.answer
}

// Advances the run that is lent by some steps: the six numbers since its opening.
#[unsafe(no_mangle)]
pub extern "C" fn lozhbinor_advance(
    run: &mut Run,
    steps: u32,
    room: &mut [i32],
    numbers: &mut [u8],
) -> u32
    ensures { AdvanceCalls run.old steps room.old numbers.old (both run.new result) room.new numbers.new }
{
    let out = advance_called(*run, steps, room, numbers);
    *run = out.run;
    out.answer
}
