// The trial program of document 01, section 9: asks match what standard input asks, and prints the answer.
#![tactic(auto)]

ghost use Rattle.std.specs.Prelude.{◌≡◌, ◌<◌, ◌≤◌, length, take};
ghost use Rattle.text.specs.Printed.{printed};
ghost use Rattle.trial.specs.Meaning.{Told, Whole};

use streams::read_full;
use text::TEXT_BYTES;
use text_ask::INPUT_BYTES;
use text_print::rows::Rest;

// Empty lines that are written in one go.
const LINES: usize = 4096;

const FULL: u64 = LINES as u64;

// Writes the first bytes of a slice and then empty lines, and tells what the system took; nothing where it did not take all.
#[tactic(auto, unfolding(crate::specs::Meaning::Told))]
fn send(rt: &impl Print, out: &[u8], rest: Rest) -> Option<Rest>
    requires { rest.at ≤ length out.now }
    ensures { Told rest result }
{
    rt.write_all(&out[..rest.at]).ok()?;
    let full = [b'\n'; LINES];
    let mut sent = 0;
    // The empty lines that were sent are counted.
    for i in 0..rest.lines / FULL {
        rt.write_all(&full).ok()?;
        sent = (i + 1) * FULL;
    }
    let last = rest.lines - sent;
    rt.write_all(&full[..last as usize]).ok()?;
    Some(Rest {
        at: rest.at,
        lines: sent + last,
    })
}

// Answers the first n bytes of what was read. The slice they were read into has one byte more than the program reads, so that longer input is seen.
fn respond(rt: &impl Print, read: &[u8], n: usize, out: &mut [u8]) -> Option<Rest>
    requires longer_is_seen { 32768 < length read.now }
    requires n_in_bounds { n ≤ length read.now }
    requires page_whole { 98304 ≤ length out.old }
    ensures { Whole (printed (take n read.now)) out.new result }
{
    let rest = text::answer(&read[..n], out)?;
    send(rt, out, rest)
}

fn main(rt: HostRuntime) {
    let mut input = [0u8; INPUT_BYTES + 1];
    let n = read_full(&mut rt.stdin(), &mut input);
    let mut out = [0u8; TEXT_BYTES];
    if respond(&rt, &input, n, &mut out).is_none() {
        let _ = rt.eprintln("trial: the output could not be written");
    }
}
