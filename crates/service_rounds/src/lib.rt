// Document 02, No. 10: the service match in the other search order, by rounds, over a table of waiting states that the game lends.
#![tactic(auto)]

ghost use Rattle.std.specs.Prelude.{◌≡◌, length};
ghost use Rattle.round_rules.specs.Rounds.{states_in, match_rounds, match_rounds_picked};
ghost use Rattle.services.specs.Picks.{form_in, dialect_in};
ghost use Rattle.services.specs.Matches.{Admitted, told, reported, matched_by};

use program::compile;
use program_parts::{Matcher, Pattern};
use round_run::search_rounds;
use search::{Report, Terms};
use services::matching::Matched;
use services::picks::{Dialect, RowForm};
use services::refusal::Refused;
use services::testing::{Words, tested};
use tables::line::no_lines;

// The run of a rule and a target that were accepted. Its terms are written out as in `services::matching`: a function for them would say each of the five in its
// clause once more.
fn carry_out(
    dialect: Dialect,
    form: RowForm,
    words: Words,
    budget: u32,
    table: &mut [i32],
    room: &mut [i32],
) -> Report
    requires { Admitted (dialect_in dialect) words.matcher.now words.pattern.now words.target.now }
    ensures { told (reported result) room.new ≡ match_rounds (dialect_in dialect) (form_in form) words.entry.matcher.now words.entry.pattern.now words.entry.target.now (states_in 825 (length table.old)) budget room.old }
{
    let mut lines = no_lines();
    let matcher = Matcher {
        words: words.matcher,
    };
    let pattern = Pattern {
        words: words.pattern,
    };
    let vars = compile(matcher, pattern, &mut lines);
    let terms = Terms {
        budget: u64::from(budget),
        vars,
        origins: form.tells_origins(),
        firsts: dialect.takes_firsts(),
        fresh: 0,
    };
    search_rounds(terms, words.matcher, words.target, &lines, table, room)
}

// In a dialect, with its rows in one of the two forms: the tests 1 to 6, then the run.
fn rounds_in(
    dialect: Dialect,
    form: RowForm,
    words: Words,
    budget: u32,
    table: &mut [i32],
    room: &mut [i32],
) -> Result<Report, Refused>
    ensures { told (matched_by result) room.new ≡ match_rounds (dialect_in dialect) (form_in form) words.entry.matcher.now words.entry.pattern.now words.entry.target.now (states_in 825 (length table.old)) budget room.old }
{
    tested(dialect, words)?;
    Ok(carry_out(dialect, form, words, budget, table, room))
}

// An unknown form is refused before any other look, and an unknown dialect before all but that.
fn rounds_picked(
    form: u32,
    dialect: u32,
    words: Words,
    budget: u32,
    table: &mut [i32],
    room: &mut [i32],
) -> Result<Report, Refused>
    ensures { told (matched_by result) room.new ≡ match_rounds_picked form dialect words.entry.matcher.now words.entry.pattern.now words.entry.target.now (states_in 825 (length table.old)) budget room.old }
{
    let form = RowForm::try_from(form)?;
    let dialect = Dialect::try_from(dialect)?;
    rounds_in(dialect, form, words, budget, table, room)
}

// Match by rounds, for every input, in the form and the dialect that the caller picks.
pub fn match_rounds(
    form: u32,
    dialect: u32,
    matcher: &[i32],
    pattern: &[i32],
    target: &[i32],
    budget: u32,
    table: &mut [i32],
    room: &mut [i32],
) -> Matched
    ensures { told result room.new ≡ match_rounds_picked form dialect matcher.now pattern.now target.now (states_in 825 (length table.old)) budget room.old }
{
    let words = Words {
        matcher,
        pattern,
        target,
    };
    Matched::from(rounds_picked(form, dialect, words, budget, table, room))
}
