// Test 2: the words are one whole pattern.
ghost use Rattle.std.specs.Prelude.{◌≡◌, ◌≤◌, length};
ghost use Rattle.rules.specs.Reading.{read_pattern};
ghost use Rattle.test_forms.specs.Tests.{tested};
ghost use Rattle.test_forms.specs.Patterns.{reads_p};

use super::table::{Row, row_of};
use super::{LARGEST_WIDTH, LEAST_WIDTH, PATTERN_WORDS, between};
use words::{matcher, tag_at};

// Whether words that are few are one whole pattern: so many operands of the tag before are to be skipped, so many patterns are still to come.
fn walk(ps: &[i32]) -> Result<(), usize>
    requires { length ps.now ≤ 256 }
    ensures { result ≡ reads_p 0 1 0 ps.now }
{
    let mut skip: u32 = 0;
    let mut need: u32 = 1;
    for at in 0..ps.len() {
        if 0 < skip {
            skip -= 1;
        } else {
            if need == 0 {
                return Err(at);
            }
            match row_of(matcher::SOMETHING, tag_at(ps, at)).ok_or(at)? {
                Row::Known {
                    operands,
                    parts,
                    ..
                } => {
                    skip = operands;
                    need = need - 1 + parts;
                }
                Row::Wide { .. } => {
                    let k = tag_at(ps, at + 1);
                    if !between(LEAST_WIDTH, k, LARGEST_WIDTH) {
                        return Err(at + 1);
                    }
                    skip = 1;
                    need = need - 1 + k;
                }
            }
        }
    }
    if skip + need == 0 {
        Ok(())
    } else {
        Err(ps.len())
    }
}

// Whether the words are one whole pattern.
pub fn test_pattern(ps: &[i32]) -> Result<(), usize>
    ensures { result ≡ tested (read_pattern ps.now) }
{
    if PATTERN_WORDS < ps.len() {
        return Err(PATTERN_WORDS);
    }
    walk(ps)
}
