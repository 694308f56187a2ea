// The tests in document 01's order: 1 to 4 over matcher and pattern, 5 and 6 over a target.
#![tactic(auto)]

ghost use Rattle.std.specs.Prelude.{◌≡◌};
ghost use Rattle.rules.specs.Services.{rule_in, rule_of};
ghost use Rattle.words.specs.Dialects.{dialect_by};
ghost use Rattle.tests.specs.Judgements.{told, numbers_of, judgement, target_judgement, target_under, fits_all, Whole};

use test_forms::matcher::test_matcher;
use test_forms::pattern::test_pattern;
use test_target::{Fault, TARGET_LEVELS, TARGET_WORDS, test_target};
use test_unfit::fit_end;

// The test that found a fault, with the place of the first word at fault; a target's fault has a cause, too.
#[derive(Clone, Copy, Debug, PartialEq, Eq)]
pub enum Refusal {
    Matcher(usize),
    Pattern(usize),
    Variable(usize),
    Misfit(usize),
    Target(Fault),
    Unfit(usize),
}

// Document 01's numbers of the answers, which the hosts hand on.
pub const MATCHER: u32 = 1;

pub const PATTERN: u32 = 2;

pub const VARIABLE: u32 = 3;

pub const MISFIT: u32 = 4;

pub const TARGET: u32 = 5;

pub const UNFIT: u32 = 6;

impl Refusal {
    pub fn answer(self) -> u32
        ensures { result ≡ (numbers_of self).answer }
    {
        match self {
            Refusal::Matcher(_) => MATCHER,
            Refusal::Pattern(_) => PATTERN,
            Refusal::Variable(_) => VARIABLE,
            Refusal::Misfit(_) => MISFIT,
            Refusal::Target(_) => TARGET,
            Refusal::Unfit(_) => UNFIT,
        }
    }

    // The first word at fault.
    pub fn place(self) -> usize
        ensures { result ≡ (numbers_of self).place }
    {
        match self {
            Refusal::Matcher(place)
            | Refusal::Pattern(place)
            | Refusal::Variable(place)
            | Refusal::Misfit(place)
            | Refusal::Unfit(place) => place,
            Refusal::Target(fault) => fault.place,
        }
    }

    // 0 in every answer but 5.
    pub fn cause(self) -> u32
        ensures { result ≡ (numbers_of self).cause }
    {
        match self {
            Refusal::Target(fault) => fault.cause.number(),
            _ => 0,
        }
    }
}

// Tests 1 to 4 in a dialect, each over its whole slice; `firsts`: dialect 2.
// (It and what it calls stand inside their callers, where a refusal goes through no memory: a whole call of bench/speed.rs.)
#[inline(always)]
pub fn rule_refused_in(firsts: bool, ms: &[i32], ps: &[i32]) -> Result<(), Refusal>
    ensures { told result ≡ judgement (rule_in (dialect_by firsts) ms.now ps.now) }
{
    test_matcher(ms).map_err(Refusal::Matcher)?;
    test_pattern(ps).map_err(Refusal::Pattern)?;
    let _variables = test_variables::walk(ps).map_err(Refusal::Variable)?;
    test_fit::walk(firsts, ms, ps).map_err(Refusal::Misfit)
}

// The same in dialect 1.
pub fn rule_refused(ms: &[i32], ps: &[i32]) -> Result<(), Refusal>
    ensures { told result ≡ judgement (rule_of ms.now ps.now) }
{
    rule_refused_in(false, ms, ps)
}

// Whether words that are not too many fit a matcher up to the last one: then they are a target, too.
fn fits_all(ms: &[i32], ts: &[i32]) -> bool
    ensures { result ≡ fits_all ms.now ts.now }
{
    ts.len() <= TARGET_WORDS && fit_end(ts, 0, ms, 0, TARGET_LEVELS) == Ok(ts.len())
}

// Tests 5 and 6, each over its whole slice, for a matcher that test 1 has passed. One walk finds that both are passed; where one is not, test 5 comes first.
pub fn target_refused(ms: &[i32], ts: &[i32]) -> Result<(), Refusal>
    requires { Whole ms.now }
    ensures { told result ≡ target_judgement ts.now (target_under ms.now ts.now) }
{
    if fits_all(ms, ts) {
        return Ok(());
    }
    test_target(ts).map_err(Refusal::Target)?;
    let _end = fit_end(ts, 0, ms, 0, TARGET_LEVELS).map_err(Refusal::Unfit)?;
    Ok(())
}
