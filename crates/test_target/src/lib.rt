// Test 5: the words are one whole target in the limits; a fault has a cause beside its place. Elements and parts are read by recursion, the remaining depth falling at each call.
#![tactic(auto)]

ghost use Rattle.std.specs.Prelude.{◌≡◌, ◌-◌, ◌/◌, ◌<◌, min, length};
ghost use Rattle.rules.specs.Reading.{read_target};
ghost use Rattle.rules.specs.Causes.{cause_of};
ghost use Rattle.words.specs.Words.{tag_at};
ghost use Rattle.test_target.specs.Targets.{count_cause, count_fits, fault_at, found, number_of, numbers_of, plain_at, plain_run, told, value_from, valued_from};

use test_forms::{LARGEST_WIDTH, LEAST_WIDTH, between};
use words::{tag_at, tag_of, target};

// What is wrong with a target's words, under document 01's numbers.
#[derive(Clone, Copy, Debug, PartialEq, Eq)]
pub enum Cause {
    OverLength = 1,
    UnknownTag = 2,
    BadCount = 3,
    TooDeep = 4,
    CutShort = 5,
    LeftOver = 6,
    BadWidth = 7,
}

impl Cause {
    pub fn number(self) -> u32
        ensures { result ≡ number_of self }
    {
        self as u32
    }
}

// The first word at fault, and why.
#[derive(Clone, Copy, Debug, PartialEq, Eq)]
pub struct Fault {
    pub place: usize,
    pub cause: Cause,
}

// The limits of a target and of a collection.
pub const TARGET_WORDS: usize = 1024;

pub const ELEMENTS: u32 = 64;

// How deep the collections and tuples of a target stand.
pub const TARGET_LEVELS: u32 = 8;

// The words of an integer.
pub const INTEGER_WORDS: usize = 2;

// Whether a collection may have n elements, or a tuple n parts.
#[tactic(auto, unfolding(crate::specs::Targets::count_fits))]
fn count_fits(t: u32, n: u32) -> bool
    ensures { result ≡ count_fits t n }
{
    if t == target::COLLECTION {
        n <= ELEMENTS
    } else {
        between(LEAST_WIDTH, n, LARGEST_WIDTH)
    }
}

// The cause where it may not.
#[tactic(auto, unfolding(crate::specs::Targets::count_cause, rules::specs::Causes::cause_number))]
fn count_cause(t: u32) -> Cause
    ensures { number_of result ≡ count_cause t }
{
    if t == target::COLLECTION {
        Cause::BadCount
    } else {
        Cause::BadWidth
    }
}

// The fault at an index whose word is wrong: where there is none, the words are cut short.
#[tactic(auto, unfolding(crate::specs::Targets::fault_at, crate::specs::Targets::cause_at, rules::specs::Causes::cause_number))]
fn fault_at(ts: &[i32], place: usize, wrong: Cause) -> Fault
    ensures { numbers_of result ≡ fault_at ts.now place (number_of wrong) }
{
    let cause = if place < ts.len() {
        wrong
    } else {
        Cause::CutShort
    };
    Fault { place, cause }
}

// Whether an integer stands whole at an index.
#[tactic(auto, unfolding(crate::specs::Targets::plain_at))]
pub fn plain_at(ts: &[i32], at: usize) -> bool
    ensures { result ≡ plain_at ts.now at }
{
    tag_at(ts, at) == target::INTEGER && at + 1 < ts.len()
}

// The tag at an index that has a word.
pub fn tag_there(ts: &[i32], at: usize) -> u32
    requires { at < length ts.now }
    ensures { result ≡ tag_at ts.now at }
{
    tag_of(ts[at])
}

// For how many values of so many words each there are words from an index on, at most n.
pub fn most(ts: &[i32], at: usize, each: usize, n: u32) -> u32
    requires { 0 < each }
    ensures { result ≡ min n ((length ts.now - at) / each) }
{
    let room = ts.len().saturating_sub(at) / each;
    room.min(n as usize) as u32
}

// How many integers stand whole from an index on, one after the other, at most n. There are words for m, so the loop tests no length.
// Beside test_unfit's run of pairs, not one function over a closure: each test may be asked only where its words are, which the closure's clauses would say at each call.
#[tactic(auto, using(crate::proofs::Runs::run_rules))]
pub fn plain_run(ts: &[i32], at: usize, n: u32) -> u32
    ensures { result ≡ plain_run ts.now n at }
{
    let m = most(ts, at, INTEGER_WORDS, n);
    for i in 0..m {
        if tag_there(ts, at + INTEGER_WORDS * (i as usize)) != target::INTEGER {
            return i;
        }
    }
    m
}

// The end of the value at an index, in which so many collections or tuples may stand one inside the other.
#[tactic(auto, using(crate::proofs::Steps::own_rules))]
fn read_value(ts: &[i32], at: usize, depth: u32) -> Result<usize, Fault>
    ensures { told result ≡ valued_from ts.now depth at }
{
    let t = tag_at(ts, at);
    if target::TUPLE < t {
        return Err(fault_at(ts, at, Cause::UnknownTag));
    }
    if t == target::INTEGER {
        return if at + 1 < ts.len() {
            Ok(at + INTEGER_WORDS)
        } else {
            Err(Fault {
                place: at + 1,
                cause: Cause::CutShort,
            })
        };
    }
    if depth == 0 {
        return Err(Fault {
            place: at,
            cause: Cause::TooDeep,
        });
    }
    let n = tag_at(ts, at + 1);
    if !count_fits(t, n) {
        return Err(fault_at(ts, at + 1, count_cause(t)));
    }
    let mut e = at + 2;
    for _member in 0..n {
        e = if plain_at(ts, e) {
            e + INTEGER_WORDS
        } else {
            read_value(ts, e, depth - 1)?
        };
    }
    Ok(e)
}

// Where it ends, or the place of the first word at fault.
pub fn value_end(ts: &[i32], at: usize, depth: u32) -> Result<usize, usize>
    ensures { result ≡ value_from ts.now depth at }
{
    read_value(ts, at, depth).map_err(|fault| fault.place)
}

// Whether the words are one whole target: a word that is left over is at fault.
#[tactic(auto, using(crate::proofs::Steps::whole_rules))]
pub fn test_target(ts: &[i32]) -> Result<(), Fault>
    ensures { told result ≡ found (read_target ts.now) (cause_of ts.now) }
{
    if TARGET_WORDS < ts.len() {
        return Err(Fault {
            place: TARGET_WORDS,
            cause: Cause::OverLength,
        });
    }
    let end = read_value(ts, 0, TARGET_LEVELS)?;
    if end < ts.len() {
        return Err(Fault {
            place: end,
            cause: Cause::LeftOver,
        });
    }
    Ok(())
}
