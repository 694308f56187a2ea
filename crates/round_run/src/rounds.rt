// Round after round.
ghost use Rattle.std.specs.Prelude.{◌≡◌, ◌^◌, ◌<◌};
ghost use Rattle.tables.specs.Line.{columns_of};
ghost use Rattle.search.specs.Told.{env_by};
ghost use Rattle.search.specs.Valid.{Given};
ghost use Rattle.round_run.specs.Courses.{halted_at, Begins, Rounded, Starts, Arrived};

use round_lists::Used;
use round_sweep::pull::pull;
use round_sweep::sweep::sweep;
use round_sweep::turn::Sweep;
use search::Terms;
use search::stop::Stop;
use search_step::State;
use tables::line::Lines;
use tables::place::Places;
use tables::slot::Slots;
use value_places::places::Units;
use value_rows::Bindings;

// Between two rounds: how many lists the table has, and how many states wait in them. And how the run has ended, if it has.
#[derive(Drop)]
pub struct Round {
    pub state: State,
    pub binds: Bindings,
    pub many: usize,
    pub waiting: usize,
    pub stop: Option<Stop>,
}

// The run has ended.
fn halt(x: State, b: Bindings, by: Stop) -> Round
    ensures { result ≡ halted_at x b by }
{
    Round {
        state: x,
        binds: b,
        many: 0,
        waiting: 0,
        stop: Some(by),
    }
}

// One round.
pub fn take_round(
    r: Round,
    terms: Terms,
    used: Used,
    mt: &[i32],
    units: Units,
    places: &Places,
    lines: &Lines,
    slots: &mut Slots,
    table: &mut [i32],
    room: &mut [i32],
) -> Round
    requires given { Given units.words.now places.now }
    requires begins { Begins (env_by (columns_of lines.now) mt.now units.words.now terms) used.slots terms.budget r table.old slots.old room.old }
    requires budget_fits { terms.budget < 2 ^ 63 }
    ensures { Rounded (env_by (columns_of lines.now) mt.now units.entry.words.now terms) used.slots terms.budget r table.old slots.old room.old result table.new slots.new room.new }
{
    let many = r.many;
    let x = r.state;
    let b = r.binds;
    let first = Sweep {
        state: x,
        binds: b,
        fresh: 0,
        left: 0,
        waiting: r.waiting,
        stop: None,
    };
    let w = sweep(
        first, many, terms, used, mt, units, places, lines, slots, table, room,
    );
    let y = w.state;
    let c = w.binds;
    if let Some(by) = w.stop {
        return halt(y, c, by);
    }
    pull(table, many, w.fresh, w.left, used.slots);
    Round {
        state: y,
        binds: c,
        many: w.fresh + w.left,
        waiting: w.waiting,
        stop: None,
    }
}

// Rounds while states remain: 7 comes before 21, "also where the budget ends with a round". Along no range: each round says how many remain.
pub fn rounds(
    first: Round,
    limit: usize,
    terms: Terms,
    used: Used,
    mt: &[i32],
    units: Units,
    places: &Places,
    lines: &Lines,
    slots: &mut Slots,
    table: &mut [i32],
    room: &mut [i32],
) -> Round
    requires given { Given units.words.now places.now }
    requires starts { Starts (env_by (columns_of lines.now) mt.now units.words.now terms) used.slots terms.budget limit first table.old slots.old room.old }
    requires budget_fits { terms.budget < 2 ^ 63 }
    ensures { Arrived (env_by (columns_of lines.now) mt.now units.entry.words.now terms) used.slots terms.budget limit first table.old slots.old room.old result table.new slots.new room.new }
{
    let mut r = first;
    while r.many != 0 {
        let x = r.state;
        let b = r.binds;
        if terms.budget <= x.steps {
            return halt(x, b, Stop::Budget);
        }
        if limit < r.waiting {
            return halt(x, b, Stop::Table);
        }
        let q = take_round(r, terms, used, mt, units, places, lines, slots, table, room);
        if let Some(_) = q.stop {
            return q;
        }
        r = q;
    }
    r
}
