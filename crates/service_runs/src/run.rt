// A run that is lent by the game, as a struct by value: what it holds, and an advance of it.
ghost use Rattle.std.specs.Prelude.{◌≡◌};
ghost use Rattle.run_sound.specs.Tested.{Decides};
ghost use Rattle.service_runs.specs.Going.{terms_by};
ghost use Rattle.service_runs.specs.Kept.{Goes, Over, Lengths, Refusal, Refuses, Advances, told, unlike_numbers, picks_in};
ghost use Rattle.run_states.specs.Standing.{numbers_of};

use crate::going::{Picks, carry_on};
use search::stop::number_of;
use search::{Progress, tell};
use search_step::{STANDS, State};
use services::picks::{Dialect, RowForm};
use services::refusal::{UNKNOWN_DIALECT, UNKNOWN_FORM};
use services::testing::{Words, tested};
use tables::slot::Slots;
use tests::{MATCHER, UNFIT};
use value_rows::Binding;
use words::dialect::FIRST_PLACES;

// Matcher, pattern and target are kept in full arrays, with their lengths; `answer` is a refusal at the opening, or 0. C lends these bytes, whatever they
// are, so form, dialect and answer are numbers here, and no enum.
#[repr(C)]
#[derive(Clone, Copy)]
pub struct Run {
    pub state: State,
    pub binds: [Binding; 16],
    pub slots: Slots,
    pub size: usize,
    pub place: usize,
    pub answer: u32,
    pub cause: u32,
    pub form: u32,
    pub dialect: u32,
    pub matcher: usize,
    pub pattern: usize,
    pub target: usize,
    pub matchers: [i32; 64],
    pub patterns: [i32; 256],
    pub targets: [i32; 1024],
}

// The six numbers of an answer, since the opening; `Runs.told_numbers` of the border tells them from this struct, as C has it, and not from `Matched`.
#[repr(C)]
#[derive(Drop)]
pub struct Told {
    pub answer: u32,
    pub place: usize,
    pub rows: u64,
    pub steps: u64,
    pub words: usize,
    pub cause: u32,
}

#[repr(C)]
#[derive(Drop)]
pub struct Out {
    pub run: Run,
    pub told: Told,
}

// 19: a room unlike the size given at the opening.
const UNLIKE: u32 = 19;

// The row form that tells origins.
const ORIGINS: u32 = 2;

// The longest matcher, pattern and target.
const MATCHERS: usize = 64;

const PATTERNS: usize = 256;

const TARGETS: usize = 1024;

#[tactic(auto, unfolding(crate::specs::Kept::told))]
fn unlike() -> Told
    ensures { told result ≡ unlike_numbers }
{
    Told {
        answer: UNLIKE,
        place: 0,
        rows: 0,
        steps: 0,
        words: 0,
        cause: 0,
    }
}

// An advance over words, if they are accepted.
fn go_on(
    from: Progress,
    portion: u32,
    picks: Picks,
    words: Words,
    slots: &mut Slots,
    room: &mut [i32],
) -> Option<Progress>
    requires stands { from.state.live ≡ 1 }
    ensures { Goes (terms_by picks) words.entry.matcher.now words.entry.pattern.now words.entry.target.now portion from.state slots.old from.binds room.old result slots.new room.new }
{
    if tested(picks.dialect, words).is_err() {
        return None;
    }
    carry_on(from, portion, picks, words, slots, room)
}

// Whether the lengths of the words are those of an accepted rule and target.
fn are_lengths(matcher: usize, pattern: usize, target: usize) -> bool
    ensures { Decides result (Lengths matcher pattern target) }
{
    matcher <= MATCHERS && pattern <= PATTERNS && target <= TARGETS
}

// The same over the words that a run keeps, from where it stands.
#[tactic(auto, using(crate::proofs::Lending::over_rules, crate::proofs::Lending::over_picked))]
fn on_words(run: &Run, portion: u32, slots: &mut Slots, room: &mut [i32]) -> Option<Progress>
    requires stands { run.now.state.live ≡ 1 }
    ensures { Over (terms_by (picks_in run.now.form run.now.dialect)) run.now.matchers run.now.matcher run.now.patterns run.now.pattern run.now.targets run.now.target portion run.now.state slots.old run.now.binds room.old result slots.new room.new }
{
    if !are_lengths(run.matcher, run.pattern, run.target) {
        return None;
    }
    let words = Words {
        matcher: &run.matchers[..run.matcher],
        pattern: &run.patterns[..run.pattern],
        target: &run.targets[..run.target],
    };
    let picks = picks_of(run.form, run.dialect);
    go_on(
        Progress {
            state: run.state,
            binds: run.binds,
        },
        portion,
        picks,
        words,
        slots,
        room,
    )
}

// What a run tells that was not refused.
#[tactic(auto, using(crate::proofs::Lending::tell_rules), unfolding(crate::specs::Kept::told))]
fn told_of(x: State) -> Told
    ensures { told result ≡ numbers_of x }
{
    let r = tell(x);
    Told {
        answer: number_of(r.stop),
        place: 0,
        rows: r.rows,
        steps: r.steps,
        words: r.words,
        cause: 0,
    }
}

// Whether a run can have been refused with this answer at its opening.
fn is_refusal(answer: u32) -> bool
    ensures { Decides result (Refusal answer) }
{
    matches!(answer, UNKNOWN_FORM | UNKNOWN_DIALECT | MATCHER..=UNFIT)
}

// What a run tells that was refused at its opening.
fn refused(answer: u32, place: usize, cause: u32) -> Told
    ensures { Refuses answer place cause result }
{
    if !is_refusal(answer) {
        return unlike();
    }
    Told {
        answer,
        place,
        rows: 0,
        steps: 0,
        words: 0,
        cause,
    }
}

// What the opening was told, by the form and the dialect that a run keeps.
fn picks_of(form: u32, dialect: u32) -> Picks
    ensures { result ≡ picks_in form dialect }
{
    Picks {
        form: if form == ORIGINS {
            RowForm::Origins
        } else {
            RowForm::Values
        },
        dialect: if dialect == FIRST_PLACES {
            Dialect::FirstPlaces
        } else {
            Dialect::EveryPlace
        },
    }
}

// An advance of a run, by value, for any run and any room. One that is not sound is told as one that the room is unlike.
pub fn advanced(mut run: Run, portion: u32, room: &mut [i32]) -> Out
    ensures { Advances run portion room.old result room.new }
{
    let x = run.state;
    let mut t = unlike();
    if room.len() == run.size {
        if run.answer != 0 {
            t = refused(run.answer, run.place, run.cause);
        } else if x.live != STANDS {
            t = told_of(x);
        } else {
            let mut slots = run.slots;
            let found = on_words(&run, portion, &mut slots, room);
            if let Some(last) = found {
                let binds = last.binds;
                run.state = last.state;
                run.binds = binds;
                run.slots = slots;
                t = told_of(last.state);
            }
        }
    }
    Out { run, told: t }
}
