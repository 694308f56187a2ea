// Test 6: a target fits a matcher, by recursion, the remaining depth falling at each call.
#![tactic(auto)]

ghost use Rattle.std.specs.Prelude.{◌≡◌, ◌+◌, ◌*◌, ◌<◌, ◌≤◌, ◌^◌, length};
ghost use Rattle.test_unfit.specs.Unfit.{opens_at, members_of, next_member, number_fits, is_pair, pair_fits, plain_words, asks_pairs, plain_pair, pair_run, passed, fit_run, under_integer, fit_from};

use matchers::matcher_end;
use test_fit::shapes::width_fits;
use test_forms::between;
use test_target::{ELEMENTS, INTEGER_WORDS, most, plain_at, plain_run, tag_there, value_end};
use words::{matcher, tag_at, target};

// The width of a pair, and the words of a pair of integers.
const PAIR: u32 = 2;

const PAIR_WORDS: usize = 6;

// So many members that fit at once, and the index behind them.
#[derive(Drop)]
pub struct Run {
    pub members: u32,
    pub end: usize,
}

// Whether a value with the tag t has elements or parts for a matcher with the tag k.
#[tactic(auto, using(std::proofs::lemmas::Bool::Decides::nat_tests), unfolding(crate::specs::Unfit::opens_at))]
fn opens(k: u32, t: u32) -> bool
    ensures { result ≡ opens_at k t }
{
    if k == matcher::TUPLE {
        t == target::TUPLE
    } else {
        between(matcher::LIST, k, matcher::MULTISET) && t == target::COLLECTION
    }
}

// The matcher of the first of n elements or parts under the matcher i, whose tag is k; none where no value of so many fits.
#[tactic(auto, using(std::proofs::lemmas::Bool::Decides::nat_tests, crate::proofs::Steps::width_next_lem), unfolding(crate::specs::Unfit::members_of))]
fn members_of(ms: &[i32], i: usize, k: u32, n: u32) -> Option<usize>
    requires { i + 1 < 2 ^ 64 }
    ensures { result ≡ members_of ms.now i k n }
{
    if k == matcher::TUPLE {
        if width_fits(tag_at(ms, i + 1), n) {
            return Some(i + 2);
        }
        return None;
    }
    if ELEMENTS < n { None } else { Some(i + 1) }
}

// The matcher of the next element or part, after one under the matcher j: a tuple's are one after the other, and most are a tag alone.
#[tactic(auto, using(std::proofs::lemmas::Bool::Decides::nat_tests, crate::proofs::Steps::next_plain, crate::proofs::Steps::next_fits), unfolding(crate::specs::Unfit::next_member))]
fn next_member(ms: &[i32], k: u32, j: usize) -> usize
    ensures { result ≡ next_member ms.now k j }
{
    if k == matcher::TUPLE {
        if tag_at(ms, j) < matcher::LIST {
            return j + 1;
        }
        matcher_end(ms, j)
    } else {
        j
    }
}

// Whether an integer stands whole at an index of `ts`, and integer at the index j of `ms`.
#[tactic(auto, unfolding(crate::specs::Unfit::number_fits))]
fn number_fits(ts: &[i32], at: usize, ms: &[i32], j: usize) -> bool
    ensures { result ≡ number_fits ts.now at ms.now j }
{
    tag_at(ms, j) == matcher::INTEGER && plain_at(ts, at)
}

// Whether a tag stands at an index, and behind it the width of a pair.
#[tactic(auto, using(crate::proofs::Steps::pair_next), unfolding(crate::specs::Unfit::is_pair))]
fn is_pair(ws: &[i32], at: usize, tag: u32) -> bool
    requires { tag ≤ 4 }
    ensures { result ≡ is_pair ws.now at tag }
{
    tag_at(ws, at) == tag && tag_at(ws, at + 1) == PAIR
}

// Whether a pair of integers stands at an index of `ts`, and a tuple of two integers at the index j of `ms`.
#[tactic(auto, using(crate::proofs::Steps::behind_pair, crate::proofs::Steps::third, crate::proofs::Steps::fourth), unfolding(crate::specs::Unfit::pair_fits))]
fn pair_fits(ts: &[i32], at: usize, ms: &[i32], j: usize) -> bool
    ensures { result ≡ pair_fits ts.now at ms.now j }
{
    is_pair(ms, j, matcher::TUPLE)
        && is_pair(ts, at, target::TUPLE)
        && number_fits(ts, at + 2, ms, j + 2)
        && number_fits(ts, at + 4, ms, j + 3)
}

// How many words a value has that fits at once: an integer, or a pair of integers; 0 where it is neither.
#[tactic(auto, using(std::proofs::lemmas::Bool::Decides::nat_tests), unfolding(crate::specs::Unfit::plain_words))]
fn plain_words(ts: &[i32], at: usize, ms: &[i32], j: usize, depth: u32) -> usize
    ensures { result ≡ plain_words ts.now at ms.now j depth }
{
    if number_fits(ts, at, ms, j) {
        return INTEGER_WORDS;
    }
    if 1 < depth && pair_fits(ts, at, ms, j) {
        return PAIR_WORDS;
    }
    0
}

// A value with the tag t under integer.
#[tactic(auto, using(std::proofs::lemmas::Bool::Decides::nat_tests), unfolding(crate::specs::Unfit::under_integer))]
fn under_integer(ts: &[i32], at: usize, t: u32, depth: u32) -> Result<usize, usize>
    ensures { result ≡ under_integer ts.now at t depth }
{
    if t == target::INTEGER {
        value_end(ts, at, depth)
    } else {
        Err(at)
    }
}

// Whether the members under the matcher j are pairs of integers: it is a tuple of two integers, and the depth reaches a pair's parts.
#[tactic(auto, using(std::proofs::lemmas::Bool::Decides::nat_tests, crate::proofs::Steps::behind_pair, crate::proofs::Runs::behind_asked), unfolding(crate::specs::Unfit::asks_pairs))]
fn asks_pairs(ms: &[i32], j: usize, depth: u32) -> bool
    ensures { result ≡ asks_pairs ms.now j depth }
{
    1 < depth
        && is_pair(ms, j, matcher::TUPLE)
        && tag_at(ms, j + 2) == matcher::INTEGER
        && tag_at(ms, j + 3) == matcher::INTEGER
}

// Whether a pair of integers stands at an index from which there are words for one.
#[tactic(auto, using(std::proofs::lemmas::Bool::Decides::nat_tests), unfolding(crate::specs::Unfit::plain_pair, crate::specs::Unfit::is_pair, test_target::specs::Targets::plain_at))]
fn plain_pair(ts: &[i32], at: usize) -> bool
    requires { at + 6 ≤ length ts.now }
    ensures { result ≡ plain_pair ts.now at }
{
    tag_there(ts, at) == target::TUPLE
        && tag_there(ts, at + 1) == PAIR
        && tag_there(ts, at + 2) == target::INTEGER
        && tag_there(ts, at + 4) == target::INTEGER
}

// How many pairs of integers stand whole from an index on, one after the other, at most n.
// Beside test_target's run of integers, not one function over a closure: see there.
#[tactic(auto, using(crate::proofs::Runs::pair_run_rules))]
fn pair_run(ts: &[i32], at: usize, n: u32) -> u32
    ensures { result ≡ pair_run ts.now n at }
{
    let m = most(ts, at, PAIR_WORDS, n);
    for i in 0..m {
        if !plain_pair(ts, at + PAIR_WORDS * (i as usize)) {
            return i;
        }
    }
    m
}

// The run of n members of so many words each.
#[tactic(auto, unfolding(crate::specs::Unfit::passed))]
fn pass(at: usize, each: usize, n: u32) -> Run
    requires { at + each * n < 2 ^ 64 }
    ensures { result ≡ passed at each n }
{
    Run {
        members: n,
        end: at + each * (n as usize),
    }
}

// Which of n members fit at once: a collection's integers under integer, and its pairs of integers under a tuple of two.
#[tactic(auto, using(crate::proofs::Runs::fit_run_rules))]
fn fit_run(ts: &[i32], at: usize, n: u32, ms: &[i32], k: u32, j: usize, depth: u32) -> Run
    ensures { result ≡ fit_run ts.now at n ms.now k j depth }
{
    if k == matcher::TUPLE {
        return pass(at, 0, 0);
    }
    let t = tag_at(ms, j);
    if t == matcher::INTEGER {
        return pass(at, INTEGER_WORDS, plain_run(ts, at, n));
    }
    if asks_pairs(ms, j, depth) {
        return pass(at, PAIR_WORDS, pair_run(ts, at, n));
    }
    pass(at, 0, 0)
}

// Where the value at an index of `ts` ends, if it fits the matcher at the index i of `ms`; else the place of the tag that does not.
// An index stands beside its words, not in a struct with them: the words stay and the two indices move each by itself, so that every call here would build both structs anew.
#[tactic(auto, using(crate::proofs::Steps::own_rules))]
pub fn fit_end(ts: &[i32], at: usize, ms: &[i32], i: usize, depth: u32) -> Result<usize, usize>
    ensures { result ≡ fit_from ts.now ms.now depth i at }
{
    let k = tag_at(ms, i);
    if k == matcher::SOMETHING {
        return value_end(ts, at, depth);
    }
    let t = tag_at(ts, at);
    if k == matcher::INTEGER {
        return under_integer(ts, at, t, depth);
    }
    if !opens(k, t) {
        return Err(at);
    }
    if depth == 0 {
        return Err(at);
    }
    let n = tag_at(ts, at + 1);
    let mut j = members_of(ms, i, k, n).ok_or(at)?;
    let run = fit_run(ts, at + 2, n, ms, k, j, depth);
    let mut e = run.end;
    for _member in run.members..n {
        let plain = plain_words(ts, e, ms, j, depth);
        e = if 0 < plain {
            e + plain
        } else {
            fit_end(ts, e, ms, j, depth - 1)?
        };
        j = next_member(ms, k, j);
    }
    Ok(e)
}
