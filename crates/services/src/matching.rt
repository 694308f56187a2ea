// The service match: a rule's rows on a target, written into a lent room.
ghost use Rattle.std.specs.Prelude.{◌≡◌};
ghost use Rattle.rules.specs.Services.{match, match_of, match_picked};
ghost use Rattle.services.specs.Picks.{form_in, dialect_in};
ghost use Rattle.services.specs.Matches.{Admitted, told, matched_by, reported};

use crate::picks::{Dialect, RowForm};
use crate::refusal::Refused;
use crate::testing::{Words, tested};
use program::compile;
use program_parts::{Matcher, Pattern};
use search::stop::number_of;
use search::{Report, Terms, search};
use tables::line::no_lines;
use value_places::places::Units;

// Document 01's numbers of an answer, which the contract of `match_units` and the border's `match_told` fix: so a refusal is numbers here, too.
#[derive(Drop)]
pub struct Matched {
    pub answer: u32,
    pub place: usize,
    pub rows: u64,
    pub steps: u64,
    pub words: usize,
    pub cause: u32,
}

// A refusal has no rows, steps or words.
impl From<Result<Report, Refused>> for Matched {
    ghost from_gives = { λ outcome matched. matched ≡ matched_by outcome };

    #[tactic(auto, unfolding(crate::specs::Matches::matched_by, crate::specs::Matches::reported, crate::specs::Matches::away))]
    fn from(outcome: Result<Report, Refused>) -> Matched {
        match outcome {
            Ok(report) => Matched {
                answer: number_of(report.stop),
                place: 0,
                rows: report.rows,
                steps: report.steps,
                words: report.words,
                cause: 0,
            },
            Err(refused) => Matched {
                answer: refused.answer(),
                place: refused.place(),
                rows: 0,
                steps: 0,
                words: 0,
                cause: refused.cause(),
            },
        }
    }
}

// The run of a rule and a target that were accepted.
fn carry_out(dialect: Dialect, form: RowForm, words: Words, budget: u32, room: &mut [i32]) -> Report
    requires { Admitted (dialect_in dialect) words.matcher.now words.pattern.now words.target.now }
    ensures { told (reported result) room.new ≡ match_of (dialect_in dialect) (form_in form) words.entry.matcher.now words.entry.pattern.now words.entry.target.now budget room.old }
{
    let mut lines = no_lines();
    let matcher = Matcher {
        words: words.matcher,
    };
    let pattern = Pattern {
        words: words.pattern,
    };
    let vars = compile(matcher, pattern, &mut lines);
    let terms = Terms {
        budget: u64::from(budget),
        vars,
        origins: form.tells_origins(),
        firsts: dialect.takes_firsts(),
        fresh: 0,
    };
    let units = Units {
        words: words.target,
    };
    search(terms, words.matcher, units, &lines, room)
}

// Match in a dialect, with its rows in one of the two forms: a refusal leaves the room as it was.
fn match_in(
    dialect: Dialect,
    form: RowForm,
    words: Words,
    budget: u32,
    room: &mut [i32],
) -> Result<Report, Refused>
    ensures { told (matched_by result) room.new ≡ match_of (dialect_in dialect) (form_in form) words.entry.matcher.now words.entry.pattern.now words.entry.target.now budget room.old }
{
    tested(dialect, words)?;
    Ok(carry_out(dialect, form, words, budget, room))
}

// An unknown form is refused before any other look, and an unknown dialect before all but that.
fn match_picked(
    form: u32,
    dialect: u32,
    words: Words,
    budget: u32,
    room: &mut [i32],
) -> Result<Report, Refused>
    ensures { told (matched_by result) room.new ≡ match_picked form dialect words.entry.matcher.now words.entry.pattern.now words.entry.target.now budget room.old }
{
    let form = RowForm::try_from(form)?;
    let dialect = Dialect::try_from(dialect)?;
    match_in(dialect, form, words, budget, room)
}

// Match, for every input, with its rows in form 1.
pub fn match_units(
    matcher: &[i32],
    pattern: &[i32],
    target: &[i32],
    budget: u32,
    room: &mut [i32],
) -> Matched
    ensures { told result room.new ≡ match matcher.now pattern.now target.now budget room.old }
{
    let words = Words {
        matcher,
        pattern,
        target,
    };
    Matched::from(match_in(Dialect::EveryPlace, RowForm::Values, words, budget, room))
}

// Match in the form and the dialect that the caller picks.
pub fn match_units_with(
    form: u32,
    dialect: u32,
    matcher: &[i32],
    pattern: &[i32],
    target: &[i32],
    budget: u32,
    room: &mut [i32],
) -> Matched
    ensures { told result room.new ≡ match_picked form dialect matcher.now pattern.now target.now budget room.old }
{
    let words = Words {
        matcher,
        pattern,
        target,
    };
    Matched::from(match_picked(form, dialect, words, budget, room))
}
