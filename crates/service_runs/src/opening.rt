// The opening of a run: it is refused there, or it stands before its first state and keeps its own copy of the words.
ghost use Rattle.std.specs.Prelude.{◌≡◌, ◌≤◌, length, MatchResult};
ghost use Rattle.services.specs.Matches.{Ready};
ghost use Rattle.services.specs.Refusals.{refused_numbers};
ghost use Rattle.service_runs.specs.Opens.{Taken, Declines, Opens, kept, away, begun as begins};

use crate::run::Run;
use search::open;
use search_step::{ENDED, State};
use services::picks::{Dialect, RowForm};
use services::refusal::Refused;
use services::testing::{Words, tested};
use tables::slot::no_slots;
use value_places::places::Units;
use value_rows::{Binding, VARIABLES};

// The run, and the refusal or 0 as C's numbers.
#[repr(C)]
#[derive(Drop)]
pub struct Start {
    pub run: Run,
    pub answer: u32,
    pub place: usize,
    pub cause: u32,
}

// Words at the start of an array.
#[tactic(auto, using(crate::proofs::First::kept_rules))]
fn kept<const N: usize>(words: &[i32]) -> [i32; N]
    requires { length words.now ≤ N }
    ensures { result ≡ kept N words.now }
{
    let mut all = [0i32; N];
    all[..words.len()].copy_from_slice(words);
    all
}

// A run refused at its opening has ended, and keeps no words.
fn turned_away(form: u32, dialect: u32, size: u32, refused: Refused) -> Start
    ensures { result ≡ away form dialect size (refused_numbers refused).answer (refused_numbers refused).place (refused_numbers refused).cause }
{
    let state = State {
        pc: 0,
        at: 0,
        marks: 0,
        top: 0,
        live: ENDED,
        rows: 0,
        steps: 0,
        words: 0,
    };
    let answer = refused.answer();
    let place = refused.place();
    let cause = refused.cause();
    let slots = no_slots();
    Start {
        run: Run {
            state,
            binds: [Binding { at: 0, marks: 0 }; VARIABLES],
            slots,
            size: size as usize,
            place,
            answer,
            cause,
            form,
            dialect,
            matcher: 0,
            pattern: 0,
            target: 0,
            matchers: [0; 64],
            patterns: [0; 256],
            targets: [0; 1024],
        },
        answer,
        place,
        cause,
    }
}

// A run before its first state.
fn begun(form: u32, dialect: u32, words: Words, size: u32) -> Start
    requires { Ready words.matcher.now words.pattern.now words.target.now }
    ensures { result ≡ begins form dialect words.entry.matcher.now words.entry.pattern.now words.entry.target.now size }
{
    let units = Units {
        words: words.target,
    };
    let first = open(units);
    let binds = first.binds;
    let slots = no_slots();
    let matchers = kept::<64>(words.matcher);
    let patterns = kept::<256>(words.pattern);
    let targets = kept::<1024>(words.target);
    Start {
        run: Run {
            state: first.state,
            binds,
            slots,
            size: size as usize,
            place: 0,
            answer: 0,
            cause: 0,
            form,
            dialect,
            matcher: words.matcher.len(),
            pattern: words.pattern.len(),
            target: words.target.len(),
            matchers,
            patterns,
            targets,
        },
        answer: 0,
        place: 0,
        cause: 0,
    }
}

// What refuses an opening: 20, then 22, then one of the tests 1 to 6.
fn judged(form: u32, dialect: u32, words: Words) -> Result<(), Refused>
    ensures { MatchResult result (λ _. Taken form dialect words.entry.matcher.now words.entry.pattern.now words.entry.target.now) (λ e. Declines form dialect words.entry.matcher.now words.entry.pattern.now words.entry.target.now (refused_numbers e)) }
{
    let _form = RowForm::try_from(form)?;
    let dialect = Dialect::try_from(dialect)?;
    tested(dialect, words)?;
    Ok(())
}

// An opening, by value, for any words, which come one by one as C lends them.
pub fn opened(
    form: u32,
    dialect: u32,
    matcher: &[i32],
    pattern: &[i32],
    target: &[i32],
    size: u32,
) -> Start
    ensures { Opens form dialect matcher.now pattern.now target.now size result }
{
    let words = Words {
        matcher,
        pattern,
        target,
    };
    match judged(form, dialect, words) {
        Ok(()) => begun(form, dialect, words, size),
        Err(refused) => turned_away(form, dialect, size, refused),
    }
}
