// Leaves on words: a signed word as an unsigned tag, and the sum of tag 3. Above them all arithmetic is unsigned.
#![tactic(auto)]

pub mod dialect;
pub mod marks;
pub mod matcher;
pub mod pattern;
pub mod target;

ghost use Rattle.std.specs.Prelude.{◌≡◌};
ghost use Rattle.rules.specs.Numbers.{plus};
ghost use Rattle.words.specs.Words.{tag_z, tag_at, same_to};

// The entries of a program's arrays and of the tables of its slots, one for each line; 256 words make at most 641 lines.
pub const ENTRIES: usize = 650;

// The tag of a word that has none: no word is this number, so a reader that asks for a certain tag asks by one comparison, as `tag_at` of the definitions does.
pub const NO_TAG: u32 = 2147483648;

// A word's number, or NO_TAG where it is negative. (Not by the library's `try_from`, which takes two instructions more: T10 and a whole call of
// bench/speed.rs are above their bars with it.)
#[tactic(auto, unfolding(crate::specs::Words::tag_z))]
pub fn tag_of(w: i32) -> u32
    ensures { result ≡ tag_z w }
{
    if w < 0 { NO_TAG } else { w as u32 }
}

// The tag at an index, and NO_TAG past the end.
#[tactic(auto, unfolding(crate::specs::Words::tag_at))]
pub fn tag_at(s: &[i32], at: usize) -> u32
    ensures { result ≡ tag_at s.now at }
{
    match s.get(at) {
        Some(&w) => tag_of(w),
        None => NO_TAG,
    }
}

// Whether the sum of tag 3, x + c, is z. With 64 bits no sum is lost; one outside the signed 32-bit range is no word.
pub fn is_total(x: i32, c: i32, z: i32) -> bool
    ensures { result ≡ same_to (plus x c) z }
{
    let t = i64::from(x) + i64::from(c);
    t == i64::from(z)
}
