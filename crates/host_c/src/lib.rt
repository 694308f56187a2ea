// The border as a C program links it: each function of host, host_runs and host_rounds under its own name, with its own clauses. A library exports nothing; this crate is the archive.
// C calls each export by a name of its own, so each is written out, and its parameters are those of the header.
#![tactic(auto)]

mod books;
mod rooms;
mod rounds;
mod runs;

ghost use Rattle.std.specs.Prelude.{◌≡◌, []};
ghost use Rattle.host.specs.Border.{called, match_called, match_with_called, review_called, review_with_called};

#[unsafe(no_mangle)]
pub extern "C" fn lozhbinor_version() -> u32
    ensures { result ≡ 3000 }
{
    host::lozhbinor_version()
}

#[unsafe(no_mangle)]
pub extern "C" fn lozhbinor_match(
    matcher: &[i32],
    pattern: &[i32],
    target: &[i32],
    budget: u32,
    room: &mut [i32],
    numbers: &mut [u8],
) -> u32
    ensures { called result room.new numbers.new ≡ match_called matcher.now pattern.now target.now budget room.old numbers.old }
{
    host::lozhbinor_match(matcher, pattern, target, budget, room, numbers)
}

// Match with its rows in the form, and in the dialect, that the caller picks: 20 where that form is unknown, and 22 where that dialect is.
#[unsafe(no_mangle)]
pub extern "C" fn lozhbinor_match_with(
    form: u32,
    dialect: u32,
    matcher: &[i32],
    pattern: &[i32],
    target: &[i32],
    budget: u32,
    room: &mut [i32],
    numbers: &mut [u8],
) -> u32
    ensures { called result room.new numbers.new ≡ match_with_called form dialect matcher.now pattern.now target.now budget room.old numbers.old }
{
    host::lozhbinor_match_with(
        form, dialect, matcher, pattern, target, budget, room, numbers,
    )
}

#[unsafe(no_mangle)]
pub extern "C" fn lozhbinor_review(
    matcher: &[i32],
    pattern: &[i32],
    cap: i32,
    numbers: &mut [u8],
) -> u32
    ensures { called result [] numbers.new ≡ review_called matcher.now pattern.now cap numbers.old }
{
    host::lozhbinor_review(matcher, pattern, cap, numbers)
}

// Review in the dialect that the caller picks: 22 where that is unknown.
#[unsafe(no_mangle)]
pub extern "C" fn lozhbinor_review_with(
    dialect: u32,
    matcher: &[i32],
    pattern: &[i32],
    cap: i32,
    numbers: &mut [u8],
) -> u32
    ensures { called result [] numbers.new ≡ review_with_called dialect matcher.now pattern.now cap numbers.old }
{
    host::lozhbinor_review_with(dialect, matcher, pattern, cap, numbers)
}
