// One list of a round.
ghost use Rattle.std.specs.Prelude.{◌≡◌, ◌^◌, ◌<◌};
ghost use Rattle.tables.specs.Line.{columns_of};
ghost use Rattle.search.specs.Told.{env_by};
ghost use Rattle.search.specs.Valid.{Given};
ghost use Rattle.round_sweep.specs.Turns.{stopped_at, Following, Followed, Turning, GivenUp, Turned};

use super::count::choices_left;
use super::rest::put_rest;
use round_lists::Used;
use round_lists::keeping::keep;
use search::Terms;
use search::stop::Stop;
use search_rounds::first::{Taken, take_first};
use search_step::{ENDED, FULL, State};
use tables::line::Lines;
use tables::place::Places;
use tables::slot::Slots;
use value_places::places::Units;
use value_rows::Bindings;

// How far a round is: how many new lists there are, how many remainders, and how many states wait; and what has stopped the run.
#[derive(Clone, Copy)]
pub struct Sweep {
    pub state: State,
    pub binds: Bindings,
    pub fresh: usize,
    pub left: usize,
    pub waiting: usize,
    pub stop: Option<Stop>,
}

// The run has ended.
fn stop(x: State, b: Bindings, by: Stop) -> Sweep
    ensures { result ≡ stopped_at x b by }
{
    Sweep {
        state: x,
        binds: b,
        fresh: 0,
        left: 0,
        waiting: 0,
        stop: Some(by),
    }
}

// What has come of the first state of a list: what follows is kept as a new list.
fn follow(
    t: Taken,
    fresh: usize,
    left: usize,
    waiting: usize,
    terms: Terms,
    used: Used,
    mt: &[i32],
    s: &[i32],
    lines: &Lines,
    slots: &Slots,
    table: &mut [i32],
) -> Sweep
    requires { Following (env_by (columns_of lines.now) mt.now s.now terms) used.slots t fresh left waiting table.old slots.now }
    ensures { Followed (env_by (columns_of lines.now) mt.now s.now terms) used.slots t fresh left waiting table.old table.new slots.now result }
{
    let x = t.state;
    let b = t.binds;
    if t.spent {
        return stop(x, b, Stop::Budget);
    }
    if x.live == FULL {
        return stop(x, b, Stop::Room);
    }
    if x.live == ENDED {
        return Sweep {
            state: x,
            binds: b,
            fresh: fresh,
            left: left,
            waiting: waiting - 1,
            stop: None,
        };
    }
    let n = terms.vars;
    keep(x, b, fresh, n, used, lines, slots, table);
    let more = choices_left(x.top, lines, slots);
    Sweep {
        state: x,
        binds: b,
        fresh: fresh + 1,
        left: left,
        waiting: waiting + more,
        stop: None,
    }
}

// What has come of the first state of a list, and how many lists were kept for its remainder.
#[derive(Drop)]
pub struct Halfway {
    pub taken: Taken,
    pub more: usize,
}

// The i-th list gives up its first state: its remainder is kept, and the state is taken up.
fn give_up(
    w: Sweep,
    i: usize,
    many: usize,
    terms: Terms,
    used: Used,
    mt: &[i32],
    units: Units,
    places: &Places,
    lines: &Lines,
    slots: &mut Slots,
    table: &mut [i32],
    room: &mut [i32],
) -> Halfway
    requires given { Given units.words.now places.now }
    requires turning { Turning (env_by (columns_of lines.now) mt.now units.words.now terms) used.slots terms.budget many i w table.old slots.old room.old }
    requires budget_left { w.state.steps < terms.budget }
    requires budget_fits { terms.budget < 2 ^ 63 }
    ensures { GivenUp (env_by (columns_of lines.now) mt.now units.entry.words.now terms) used.slots terms.budget many i w table.old slots.old room.old result.taken result.more table.new slots.new room.new }
{
    let x = w.state;
    let b = w.binds;
    let r = put_rest(
        x,
        b,
        i,
        many + w.left,
        terms,
        used,
        mt,
        units,
        places,
        lines,
        slots,
        table,
    );
    let c = r.binds;
    let t = take_first(
        x, c, i, terms, used, mt, units, places, lines, slots, table, room,
    );
    Halfway {
        taken: t,
        more: r.more,
    }
}

// The i-th list gives up its first state, while the budget lasts.
pub fn turn(
    w: Sweep,
    i: usize,
    many: usize,
    terms: Terms,
    used: Used,
    mt: &[i32],
    units: Units,
    places: &Places,
    lines: &Lines,
    slots: &mut Slots,
    table: &mut [i32],
    room: &mut [i32],
) -> Sweep
    requires given { Given units.words.now places.now }
    requires turning { Turning (env_by (columns_of lines.now) mt.now units.words.now terms) used.slots terms.budget many i w table.old slots.old room.old }
    requires budget_fits { terms.budget < 2 ^ 63 }
    ensures { Turned (env_by (columns_of lines.now) mt.now units.entry.words.now terms) used.slots terms.budget many i w table.old slots.old room.old result table.new slots.new room.new }
{
    let x = w.state;
    if terms.budget <= x.steps {
        let b = w.binds;
        return stop(x, b, Stop::Budget);
    }
    let h = give_up(
        w, i, many, terms, used, mt, units, places, lines, slots, table, room,
    );
    let t = h.taken;
    follow(
        t,
        w.fresh,
        w.left + h.more,
        w.waiting,
        terms,
        used,
        mt,
        units.words,
        lines,
        slots,
        table,
    )
}
