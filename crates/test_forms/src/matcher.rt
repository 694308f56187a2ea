// Test 1: the words are one whole matcher in the limits. Matchers inside are read by recursion, the levels left falling at each call.
ghost use Rattle.std.specs.Prelude.{◌≡◌};
ghost use Rattle.rules.specs.Reading.{read_matcher};
ghost use Rattle.test_forms.specs.Tests.{tested};
ghost use Rattle.test_forms.specs.Matchers.{matcher_from};

use super::{LARGEST_WIDTH, LEAST_WIDTH, MATCHER_LEVELS, MATCHER_WORDS, between};
use words::{matcher, tag_at};

// Where the matcher at an index ends, in which so many lists, multisets or tuples may stand one inside the other.
fn matcher_end(ms: &[i32], at: usize, left: u32) -> Result<usize, usize>
    ensures { result ≡ matcher_from ms.now left at }
{
    match tag_at(ms, at) {
        matcher::SOMETHING | matcher::INTEGER => Ok(at + 1),
        matcher::LIST | matcher::MULTISET if 0 < left => matcher_end(ms, at + 1, left - 1),
        matcher::TUPLE if 0 < left => {
            let n = tag_at(ms, at + 1);
            if !between(LEAST_WIDTH, n, LARGEST_WIDTH) {
                return Err(at + 1);
            }
            let mut end = at + 2;
            for _ in 0..n {
                end = matcher_end(ms, end, left - 1)?;
            }
            Ok(end)
        }
        _ => Err(at),
    }
}

// Whether the words are one whole matcher.
pub fn test_matcher(ms: &[i32]) -> Result<(), usize>
    ensures { result ≡ tested (read_matcher ms.now) }
{
    if MATCHER_WORDS < ms.len() {
        return Err(MATCHER_WORDS);
    }
    let end = matcher_end(ms, 0, MATCHER_LEVELS)?;
    if end < ms.len() { Err(end) } else { Ok(()) }
}
