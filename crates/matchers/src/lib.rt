// Where the matchers stand in a matcher's words: each is known by the index of its tag. Total on any words.
#![tactic(auto, using(crate::proofs::Ends::tag_rules, crate::proofs::Ends::end_rules))]

ghost use Rattle.std.specs.Prelude.{◌≡◌};
ghost use Rattle.matchers.specs.Places.{width_at, parts_at, words_at, matcher_end};

use words::{matcher, tag_at};

// A tuple's width, by the word at an index.
pub fn width_at(ms: &[i32], at: usize) -> usize
    ensures { result ≡ width_at ms.now at }
{
    let k = tag_at(ms, at);
    if 4 < k { 0 } else { k as usize }
}

// How many matchers follow the tag at an index as its parts.
fn parts_at(ms: &[i32], at: usize) -> usize
    ensures { result ≡ parts_at ms.now at }
{
    match tag_at(ms, at) {
        matcher::TUPLE => width_at(ms, at + 1),
        matcher::LIST | matcher::MULTISET => 1,
        _ => 0,
    }
}

// How many words it has itself: a tuple's has its width.
fn words_at(ms: &[i32], at: usize) -> usize
    ensures { result ≡ words_at ms.now at }
{
    if tag_at(ms, at) == matcher::TUPLE {
        2
    } else {
        1
    }
}

// Where the matcher ends whose tag is at i. Each step is as long as the words say, so it is along no range. (Inside the comparison of two values, which
// seldom asks, it would take the registers of that loop: T10 of bench/speed.rs.)
#[inline(never)]
pub fn matcher_end(ms: &[i32], i: usize) -> usize
    ensures { result ≡ matcher_end ms.now i }
{
    let mut at = i;
    let mut left: usize = 1;
    while at < ms.len() && 0 < left {
        left = left - 1 + parts_at(ms, at);
        at += words_at(ms, at);
    }
    at
}
