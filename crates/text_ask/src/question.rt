// The trial program's whole input: four lines, and what they ask.
ghost use Rattle.std.specs.Prelude.{◌≡◌, ◌≤◌, length};
ghost use Rattle.text_ask.specs.Question.{lines_of as Question·lines_of, asked};
ghost use Rattle.text_ask.specs.Meaning.{of_lines, of_asked, AsksOf};

use crate::INPUT_BYTES;
pub use crate::asked::Asked;
use crate::line::{bounds_of, words_of};
use std::io::Read;
use streams::read_full;

// The four lines of an input.
#[derive(Drop)]
struct Lines<'a> {
    one: &'a [u8],
    two: &'a [u8],
    three: &'a [u8],
    four: &'a [u8],
}

fn lines_of(input: &[u8]) -> Option<Lines<'_>>
    ensures { of_lines result ≡ Question·lines_of input.now }
{
    if INPUT_BYTES < input.len() {
        return None;
    }
    let mut pieces = input.split(|byte| *byte == b'\n');
    let lines = Lines {
        one: pieces.next()?,
        two: pieces.next()?,
        three: pieces.next()?,
        four: pieces.next()?,
    };
    // Nothing stands behind the fourth newline.
    if pieces.next()?.is_empty() && pieces.next().is_none() {
        Some(lines)
    } else {
        None
    }
}

// What the input asks. The words go to the start of the three tables.
pub fn read_input(input: &[u8], m: &mut [i32], p: &mut [i32], t: &mut [i32]) -> Option<Asked>
    requires matcher_table { 2000 ≤ length m.old }
    requires pattern_table { 2000 ≤ length p.old }
    requires target_table { 2000 ≤ length t.old }
    ensures { of_asked result m.new p.new t.new ≡ asked input.now }
{
    let lines = lines_of(input)?;
    let matcher = words_of(lines.one, m)?;
    let pattern = words_of(lines.two, p)?;
    let target = words_of(lines.three, t)?;
    let bounds = bounds_of(lines.four)?;
    Some(Asked {
        matcher,
        pattern,
        target,
        budget: bounds.budget,
        room: bounds.room,
    })
}

// What is asked by the input that a reader has left.
pub fn read_question<R: Read>(
    from: &mut R,
    m: &mut [i32],
    p: &mut [i32],
    t: &mut [i32],
) -> Option<Asked>
    requires matcher_table { 2000 ≤ length m.old }
    requires pattern_table { 2000 ≤ length p.old }
    requires target_table { 2000 ≤ length t.old }
    ensures { AsksOf (R.remaining from.old) (R.remaining from.new) (of_asked result m.new p.new t.new) }
{
    // One byte more than is read, so that longer input is seen.
    let mut input = [0; INPUT_BYTES + 1];
    let n = read_full(from, &mut input);
    read_input(&input[..n], m, p, t)
}
