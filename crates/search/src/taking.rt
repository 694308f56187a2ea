// Document 01, section 4: whether a state is taken up; one with no atom left, whose row is written or does not fit.
ghost use Rattle.std.specs.Prelude.{◌≡◌, ◌+◌, ◌^◌, ◌<◌, length, ltb};
ghost use Rattle.rules.specs.Rows.{row};
ghost use Rattle.value_rows.specs.Row.{form_by, bound, Bound};
ghost use Rattle.search_step.specs.Steps.{counted, lived};
ghost use Rattle.search.specs.Run.{goes_on, filled, wrote_to, end_of, ended};
ghost use Rattle.search.specs.Valid.{Given, Rows};

use crate::Terms;
use search_leaf::Bounds;
use search_leaf::told::Shape;
use search_step::{CHOOSES, FULL, STANDS, State};
use tables::place::Places;
use value_places::places::Units;
use value_rows::{Bindings, put_entry, row_size};

// Whether a state stands, and the budget is not used up.
#[tactic(auto, using(search_step::proofs::Laws::cases), unfolding(crate::specs::Run::goes_on))]
pub fn goes_on(x: State, budget: u64) -> bool
    ensures { result ≡ goes_on x budget }
{
    if x.live == STANDS {
        return x.steps < budget;
    }
    false
}

// What the choices of a leaf keep to.
pub fn bounds_of(terms: Terms) -> Bounds
    ensures { (result.budget ≡ terms.budget) × ((result.shape.vars ≡ terms.vars) × (result.shape.origins ≡ terms.origins)) }
{
    let shape = Shape {
        vars: terms.vars,
        origins: terms.origins,
    };
    Bounds {
        budget: terms.budget,
        shape: shape,
    }
}

// Whether a row does not fit into the words that are free. Its size is asked only where it could be so: no value has more words than the target.
pub fn is_short(terms: Terms, b: Bindings, free: usize, units: Units, places: &Places) -> bool
    requires given { Given units.words.now places.now }
    requires bound { Bound units.words.now b terms.vars }
    requires some_words { 0 < length units.words.now }
    ensures { result ≡ ltb free (length (row (form_by terms.origins) (bound units.entry.words.now b terms.vars))) }
{
    let n = terms.vars;
    if free < n * (units.words.len() + 1) {
        return free < row_size(terms.origins, units, places, b, n);
    }
    false
}

// It takes a step; `live` says how the run goes on.
#[tactic(auto, unfolding(search_step::specs::Steps::counted, search_step::specs::Steps::lived))]
fn ended(mut x: State, live: u64) -> State
    requires { x.steps + 1 < 2 ^ 64 }
    ensures { result ≡ lived (counted x) live }
{
    x.steps = x.steps + 1;
    x.live = live;
    x
}

// Its row does not fit, and is not begun.
#[tactic(auto, unfolding(search_step::specs::Steps::counted, crate::specs::Run::filled, search_step::specs::Steps::lived))]
pub fn filled(x: State) -> State
    requires { x.steps + 1 < 2 ^ 64 }
    ensures { result ≡ filled x }
{
    ended(x, FULL)
}

// Its row is written, up to a word of the room.
#[tactic(auto, unfolding(search_step::specs::Steps::counted, search_step::specs::Steps::lived, crate::specs::Run::wrote_to))]
pub fn wrote(mut x: State, end: usize) -> State
    requires steps_fit { x.steps + 1 < 2 ^ 64 }
    requires rows_fit { x.rows + 1 < 2 ^ 64 }
    ensures { result ≡ wrote_to x end }
{
    x.words = end;
    x.rows = x.rows + 1;
    ended(x, CHOOSES)
}

// Takes up a state with no atom left: its row is written, unless it does not fit.
pub fn take_end(
    x: State,
    b: Bindings,
    terms: Terms,
    units: Units,
    places: &Places,
    room: &mut [i32],
) -> State
    requires given { Given units.words.now places.now }
    requires some_words { 0 < length units.words.now }
    requires rows { Rows units.words.now b terms.vars x room.old }
    ensures { ended result room.new ≡ end_of (form_by terms.origins) units.entry.words.now terms.vars x b room.old }
{
    let mut e = x.words;
    if is_short(terms, b, room.len() - e, units, places) {
        return filled(x);
    }
    for v in 0..terms.vars {
        let y = b[v];
        e = put_entry(terms.origins, units, places, y.at, y.marks, room, e);
    }
    wrote(x, e)
}
