// The tests 1 and 2 of document 01 on slices of words, one module a test, and section 2's tag table: the words are one whole form. What a test refuses
// it refuses with the place of the first word at fault.
#![tactic(auto)]

pub mod matcher;
pub mod pattern;
pub mod table;

ghost use Rattle.std.specs.Prelude.{◌≡◌};
ghost use Rattle.test_forms.specs.Ends.{within};

// The limits of a matcher, a pattern and a tuple.
pub const MATCHER_WORDS: usize = 64;

pub const MATCHER_LEVELS: u32 = 4;

pub const PATTERN_WORDS: usize = 256;

pub const LEAST_WIDTH: u32 = 2;

pub const LARGEST_WIDTH: u32 = 4;

// Whether a number is one of those from low to high.
pub fn between(low: u32, n: u32, high: u32) -> bool
    ensures { result ≡ within low n high }
{
    (low..=high).contains(&n)
}
