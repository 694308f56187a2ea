// A run at the border to C.
ghost use Rattle.host_runs.specs.Runs.{OpenCalls, AdvanceCalls, both};

use service_runs::run::Run;

// Opens the run that is lent: answer, place and cause of a refusal, or 0 0 0.
#[unsafe(no_mangle)]
pub extern "C" fn lozhbinor_open(
    run: &mut Run,
    form: u32,
    dialect: u32,
    matcher: &[i32],
    pattern: &[i32],
    target: &[i32],
    size: u32,
    numbers: &mut [u8],
) -> u32
    ensures { OpenCalls run.old form dialect matcher.now pattern.now target.now size numbers.old (both run.new result) numbers.new }
{
    host_runs::lozhbinor_open(run, form, dialect, matcher, pattern, target, size, numbers)
}

// Advances the run that is lent by some steps: the six numbers since its opening.
#[unsafe(no_mangle)]
pub extern "C" fn lozhbinor_advance(
    run: &mut Run,
    steps: u32,
    room: &mut [i32],
    numbers: &mut [u8],
) -> u32
    ensures { AdvanceCalls run.old steps room.old numbers.old (both run.new result) room.new numbers.new }
{
    host_runs::lozhbinor_advance(run, steps, room, numbers)
}
