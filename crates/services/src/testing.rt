// The tests 1 to 6 over a rule and a target, for each service that runs a rule.
ghost use Rattle.std.specs.Prelude.{◌≡◌};
ghost use Rattle.tests.specs.Judgements.{told};
ghost use Rattle.services.specs.Picks.{dialect_in};
ghost use Rattle.services.specs.Testing.{tested_in};

use crate::picks::Dialect;
use tests::{Refusal, rule_refused_in, target_refused};

// A rule and a target, as the caller lends them.
#[derive(Clone, Copy)]
pub struct Words<'a> {
    pub matcher: &'a [i32],
    pub pattern: &'a [i32],
    pub target: &'a [i32],
}

#[inline(always)]
pub fn tested(dialect: Dialect, words: Words) -> Result<(), Refusal>
    ensures { told result ≡ tested_in (dialect_in dialect) words.entry.matcher.now words.entry.pattern.now words.entry.target.now }
{
    rule_refused_in(dialect.takes_firsts(), words.matcher, words.pattern)?;
    target_refused(words.matcher, words.target)
}
