// An advance of a run in which a state stands: its lines and places are computed again, and it is tested before the search goes on from it.
ghost use Rattle.std.specs.Prelude.{◌≡◌, ◌-◌};
ghost use Rattle.run_rules.specs.Lent.{allowed};
ghost use Rattle.services.specs.Matches.{Admitted};
ghost use Rattle.services.specs.Picks.{dialect_in};
ghost use Rattle.tables.specs.Line.{columns_of};
ghost use Rattle.tables.specs.Slot.{view_of};
ghost use Rattle.value_places.specs.Places.{Target};
ghost use Rattle.value_firsts.specs.Firsts.{Fresh};
ghost use Rattle.search.specs.Run.{run, run_of};
ghost use Rattle.search.specs.Told.{env_by};
ghost use Rattle.search.specs.Valid.{Fine, Valid};
ghost use Rattle.run_sound.specs.Sound.{Numbered, Closes};
ghost use Rattle.service_runs.specs.Going.{Tries, Still, terms_by, Carries};

use program::compile;
use program_parts::{Matcher, Pattern};
use run_sound::is_sound;
use search::{Progress, Terms, advance};
use services::picks::{Dialect, RowForm};
use services::testing::Words;
use tables::line::{Lines, no_lines};
use tables::place::no_places;
use tables::slot::Slots;
use value_places::places::{Units, places_of};

// The most steps of a run.
const MOST: u64 = 4294967295;

// The budget of a portion, with the steps that were taken.
#[tactic(auto, unfolding(run_rules::specs::Lent::allowed))]
fn budget_of(steps: u64, portion: u32) -> u64
    ensures { result - steps ≡ allowed portion steps }
{
    steps.saturating_add(u64::from(portion)).min(MOST)
}

// The search, over the places of the target. What waits is copied into its own frame and back, so that every table that it walks over stands there.
#[tactic(auto, unfolding(words::specs::Dialects::dialect_by))]
fn search_on(
    from: Progress,
    terms: Terms,
    words: Words,
    lines: &Lines,
    slots: &mut Slots,
    room: &mut [i32],
) -> Progress
    requires target { Target words.target.now }
    requires fine { Fine (env_by (columns_of lines.now) words.matcher.now words.target.now terms) }
    requires valid { Valid (env_by (columns_of lines.now) words.matcher.now words.target.now terms) (run from.state (view_of (columns_of lines.now).arg slots.old) from.binds room.old) }
    requires fresh { Fresh words.matcher.now 1 words.target.now 0 terms.fresh }
    ensures { run result.state (view_of (columns_of lines.now).arg slots.new) result.binds room.new ≡ run_of (env_by (columns_of lines.now) words.entry.matcher.now words.entry.target.now terms) (terms.budget - from.state.steps) (run from.state (view_of (columns_of lines.now).arg slots.old) from.binds room.old) }
{
    let units = Units {
        words: words.target,
    };
    let mut places = no_places();
    places_of(units, &mut places);
    let mut waiting = *slots;
    let last = advance(
        from,
        terms,
        words.matcher,
        units,
        &places,
        lines,
        &mut waiting,
        room,
    );
    *slots = waiting;
    last
}

// The search, if the run is sound. That a state stands is what the caller has just tested, of a run that may have ended. It is called from two places, once for each row form: then the compiler keeps it a function of its own, and its numbers in registers.
#[tactic(auto, using(crate::proofs::Steady::try_rules))]
fn try_on(
    from: Progress,
    terms: Terms,
    words: Words,
    lines: &Lines,
    slots: &mut Slots,
    room: &mut [i32],
) -> Option<Progress>
    requires target { Target words.target.now }
    requires fine { Fine (env_by (columns_of lines.now) words.matcher.now words.target.now terms) }
    requires numbered { Numbered (columns_of lines.now).arg slots.old }
    requires closes { Closes (columns_of lines.now).op (columns_of lines.now).arg }
    requires stands { from.state.live ≡ 1 }
    requires fresh { Fresh words.matcher.now 1 words.target.now 0 terms.fresh }
    ensures tries { Tries (env_by (columns_of lines.now) words.entry.matcher.now words.entry.target.now terms) (terms.budget - from.state.steps) (run from.state (view_of (columns_of lines.now).arg slots.old) from.binds room.old) result slots.new room.new }
    ensures still { Still result slots.old slots.new room.old room.new }
{
    let b = from.binds;
    if !is_sound(from.state, b, room.len(), words.target, lines, slots) {
        return None;
    }
    if terms.origins {
        return Some(search_on(from, terms, words, lines, slots, room));
    }
    Some(search_on(from, terms, words, lines, slots, room))
}

// What the opening was told: the form of the rows, and the dialect of the rule.
#[derive(Clone, Copy)]
pub struct Picks {
    pub form: RowForm,
    pub dialect: Dialect,
}

// An advance over words that are accepted in the dialect; none if the run is not sound.
pub fn carry_on(
    from: Progress,
    portion: u32,
    picks: Picks,
    words: Words,
    slots: &mut Slots,
    room: &mut [i32],
) -> Option<Progress>
    requires admitted { Admitted (dialect_in picks.dialect) words.matcher.now words.pattern.now words.target.now }
    requires stands { from.state.live ≡ 1 }
    ensures { Carries (terms_by picks) words.entry.matcher.now words.entry.pattern.now words.entry.target.now portion from.state slots.old from.binds room.old result slots.new room.new }
{
    let mut lines = no_lines();
    let matcher = Matcher {
        words: words.matcher,
    };
    let pattern = Pattern {
        words: words.pattern,
    };
    let vars = compile(matcher, pattern, &mut lines);
    let terms = Terms {
        budget: budget_of(from.state.steps, portion),
        vars,
        origins: picks.form.tells_origins(),
        firsts: picks.dialect.takes_firsts(),
        fresh: 0,
    };
    try_on(from, terms, words, &lines, slots, room)
}
