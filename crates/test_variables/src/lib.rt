// Test 3: the variables of a pattern stand in order.
#![tactic(auto)]

ghost use Rattle.std.specs.Prelude.{◌≡◌, true, ◌+◌, ◌<◌, ◌^◌};
ghost use Rattle.rules.specs.Reading.{◌then◌, read_pattern};
ghost use Rattle.rules.specs.Variables.{variables};
ghost use Rattle.test_variables.specs.Variables.{counted, allowed_tag, inside_after, vars_of};

use test_forms::pattern::test_pattern;
use test_forms::table::{Row, row_of};
use test_forms::{LARGEST_WIDTH, LEAST_WIDTH, PATTERN_WORDS, between};
use words::{matcher, pattern, tag_at};

// At most so many variables.
pub const VARIABLES: u32 = 16;

// Whether the tag t, with v as its operand, may stand where n variables stand to its left; `inside` patterns are to come in the outermost or or not
// around it, none where it stands in no or and no not.
#[tactic(auto, unfolding(crate::specs::Variables::allowed_tag))]
fn allowed(t: u32, v: u32, inside: u32, n: u32) -> bool
    ensures { result ≡ allowed_tag t v inside n }
{
    match t {
        pattern::VARIABLE => inside == 0 && v == n && n < VARIABLES,
        pattern::VALUE => v < n,
        _ => true,
    }
}

// How many patterns are to come in the outermost or or not, after the tag t with so many parts.
#[tactic(auto, using(crate::proofs::Steps::inside_rules))]
fn inside_after(t: u32, parts: u32, inside: u32) -> u32
    requires { inside + parts < 2 ^ 32 }
    ensures { result ≡ inside_after t parts inside }
{
    if inside == 0 {
        if between(pattern::OR, t, pattern::NOT) {
            parts
        } else {
            0
        }
    } else {
        inside - 1 + parts
    }
}

// How many variables a whole pattern has, or the place of the first tag that breaks a rule.
#[inline(always)]
pub fn walk(ps: &[i32]) -> Result<u32, usize>
    ensures { result ≡ vars_of ps.now }
{
    if PATTERN_WORDS < ps.len() {
        return Err(PATTERN_WORDS);
    }
    let mut skip: u32 = 0;
    let mut next: u32 = 0;
    let mut inside: u32 = 0;
    for at in 0..ps.len() {
        if 0 < skip {
            skip -= 1;
        } else {
            let t = tag_at(ps, at);
            let v = tag_at(ps, at + 1);
            if !allowed(t, v, inside, next) {
                return Err(at);
            }
            match row_of(matcher::SOMETHING, t) {
                None => return Err(at),
                Some(
                    Row::Known {
                        operands,
                        parts,
                        ..
                    },
                ) => {
                    inside = inside_after(t, parts, inside);
                    skip = operands;
                    if t == pattern::VARIABLE {
                        next += 1;
                    }
                }
                Some(Row::Wide { .. }) => {
                    if !between(LEAST_WIDTH, v, LARGEST_WIDTH) {
                        return Err(at + 1);
                    }
                    inside = inside_after(t, v, inside);
                    skip = 1;
                }
            }
        }
    }
    Ok(next)
}

// The same of any words: a place where they are no pattern comes first.
#[tactic(auto, using(crate::proofs::Walked::own_rules))]
pub fn count_variables(ps: &[i32]) -> Result<u32, usize>
    ensures { result ≡ counted (read_pattern ps.now then λ p. variables p true 0 0) }
{
    test_pattern(ps)?;
    walk(ps)
}
