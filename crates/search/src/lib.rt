// Document 01, section 4: "a run takes up states until none remain or the budget is used". The bindings are sixteen structs by value, beside the state.
#![tactic(auto)]

pub mod asking;
pub mod narrowing;
pub mod stop;
pub mod taking;

ghost use Rattle.std.specs.Prelude.{◌≡◌, ◌-◌, ◌<◌, length};
ghost use Rattle.value_places.specs.Places.{Target};
ghost use Rattle.value_places.specs.Held.{whole_at};
ghost use Rattle.value_firsts.specs.Firsts.{Fresh};
ghost use Rattle.tables.specs.Line.{columns_of};
ghost use Rattle.tables.specs.Slot.{view_of};
ghost use Rattle.search.specs.Run.{run, run_of, opening, matched};
ghost use Rattle.search.specs.Stops.{number_of};
ghost use Rattle.search.specs.Told.{env_by, reported};
ghost use Rattle.search.specs.Valid.{Given, Fine, Valid};
ghost use Rattle.search.specs.Searched.{unbound, Searched};

use asking::{is_equal_at, is_sum_at, value_of};
use narrowing::narrow;
use search_choice::settle;
use search_leaf::lines::leaf_at;
use search_leaf::{last_of, take};
use search_seek::asked::{asked_at, pass};
use search_step::{STANDS, State};
use stop::{Stop, stop_of};
use tables::instruction::{BIND, DROP, END, MULTISET_CONS, NIL, SUM};
use tables::line::{Lines, arg_at, op_at};
use tables::place::{Places, no_places};
use tables::slot::{Slots, no_slots};
use taking::{bounds_of, goes_on, take_end};
use value_firsts::fresh::fresh_places;
use value_places::places::{Units, places_of, whole};
use value_rows::{Binding, Bindings, VARIABLES};

// What a run keeps to, beside its rule and its target: the most steps, how many variables there are, whether a row tells origins, whether a
// cons under a multiset takes first places only, and places of the target that are known to be fresh. The two truth values are one question each, on which no
// other field hangs; `services::picks` has the enums of what a caller picks.
#[derive(Clone, Copy)]
pub struct Terms {
    pub budget: u64,
    pub vars: usize,
    pub origins: bool,
    pub firsts: bool,
    pub fresh: u64,
}

// How far a run is: its state and its bindings. What waits stands in its slots.
#[derive(Drop)]
pub struct Progress {
    pub state: State,
    pub binds: Bindings,
}

// The run, from where it is: states are taken up while the budget lasts, and the next choice is taken wherever no state stands. Along no range: each state
// says whether another one stands.
pub fn advance(
    from: Progress,
    terms: Terms,
    mt: &[i32],
    units: Units,
    places: &Places,
    lines: &Lines,
    slots: &mut Slots,
    room: &mut [i32],
) -> Progress
    requires given { Given units.words.now places.now }
    requires fine { Fine (env_by (columns_of lines.now) mt.now units.words.now terms) }
    requires valid { Valid (env_by (columns_of lines.now) mt.now units.words.now terms) (run from.state (view_of (columns_of lines.now).arg slots.old) from.binds room.old) }
    requires fresh { Fresh mt.now 1 units.words.now 0 terms.fresh }
    ensures { run result.state (view_of (columns_of lines.now).arg slots.new) result.binds room.new ≡ run_of (env_by (columns_of lines.now) mt.now units.entry.words.now terms) (terms.budget - from.state.steps) (run from.state (view_of (columns_of lines.now).arg slots.old) from.binds room.old) }
{
    let mut x = from.state;
    let mut b = from.binds;
    while goes_on(x, terms.budget) {
        let o = op_at(lines, x.pc);
        let mut same = false;
        if DROP < o {
            let v = arg_at(lines, x.pc);
            if o == SUM {
                same = is_sum_at(x, b[v], units.words, lines);
            } else if o < SUM {
                if o == BIND {
                    b[v] = value_of(x);
                }
            } else if o < NIL {
                same = is_equal_at(x, b[v], mt, units, places, lines);
            }
        }
        if o == END {
            x = take_end(x, b, terms, units, places, room);
        } else {
            x = x.step(same, units, places, lines, slots);
            if o == MULTISET_CONS {
                narrow(terms, x, mt, units, places, lines, slots);
                let a = asked_at(x, lines);
                if 0 < a.first {
                    let g = b[arg_at(lines, a.first)].at;
                    let h = b[arg_at(lines, a.second)].at;
                    x.steps = pass(x.steps, a, g, h, terms.budget, units, places, lines, slots);
                }
                let i = leaf_at(x, lines, slots);
                if 0 < i {
                    let r = take(x, i, b, bounds_of(terms), units, places, lines, slots, room);
                    x = r.state;
                    b[arg_at(lines, i)] = last_of(r);
                }
            }
        }
        x = settle(x, units, places, lines, slots);
    }
    Progress { state: x, binds: b }
}

// Before the first step: the target as a whole is held, its tag at the first index, and no variable is bound.
#[tactic(auto, unfolding(crate::specs::Run::opening, crate::specs::Searched::unbound))]
pub fn open(units: Units) -> Progress
    requires { 0 < length units.words.now }
    ensures state { result.state ≡ opening 0 (whole_at units.entry.words.now 0) }
    ensures binds { result.binds ≡ unbound 16 }
{
    let first = State {
        pc: 0,
        at: 0,
        marks: whole(units, 0),
        top: 0,
        live: STANDS,
        rows: 0,
        steps: 0,
        words: 0,
    };
    let none = [Binding { at: 0, marks: 0 }; VARIABLES];
    Progress {
        state: first,
        binds: none,
    }
}

#[derive(Drop)]
pub struct Report {
    pub stop: Option<Stop>,
    pub rows: u64,
    pub steps: u64,
    pub words: usize,
}

// What a run tells where it stands.
pub fn tell(x: State) -> Report
    ensures { result ≡ reported x }
{
    Report {
        stop: stop_of(x.live),
        rows: x.rows,
        steps: x.steps,
        words: x.words,
    }
}

// The target's fresh places, by the matcher after the rule's own tag, where they are of use.
fn fresh_if(firsts: bool, mt: &[i32], units: Units, places: &Places) -> u64
    requires given { Given units.words.now places.now }
    requires some_words { 0 < length units.words.now }
    ensures { Fresh mt.now 1 units.entry.words.now 0 result }
{
    if !firsts {
        return 0;
    }
    fresh_places(mt, 1, units, places, 0)
}

// The whole run of a program on a target: it is opened, advanced by its budget, and told.
pub fn search(terms: Terms, mt: &[i32], units: Units, lines: &Lines, room: &mut [i32]) -> Report
    requires some_words { 0 < length units.words.now }
    requires fine { Fine (env_by (columns_of lines.now) mt.now units.words.now terms) }
    ensures { Searched (env_by (columns_of lines.now) mt.now units.entry.words.now terms) terms.budget room.old (matched (number_of result.stop) result.rows result.steps result.words room.new) }
{
    let mut places = no_places();
    places_of(units, &mut places);
    let mut slots = no_slots();
    let first = open(units);
    let known = Terms {
        budget: terms.budget,
        vars: terms.vars,
        origins: terms.origins,
        firsts: terms.firsts,
        fresh: fresh_if(terms.firsts, mt, units, &places),
    };
    let last = advance(first, known, mt, units, &places, lines, &mut slots, room);
    tell(last.state)
}
