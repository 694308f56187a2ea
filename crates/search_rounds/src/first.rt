// The first state of a list is taken up, alone; a not whole, with the search inside it.
ghost use Rattle.std.specs.Prelude.{◌≡◌, length, ◌+◌, ◌*◌, ◌^◌, ◌<◌, ◌≤◌};
ghost use Rattle.tables.specs.Line.{columns_of};
ghost use Rattle.tables.specs.Slot.{view_of};
ghost use Rattle.search.specs.Run.{run, run_of};
ghost use Rattle.search.specs.Told.{env_by};
ghost use Rattle.search.specs.Valid.{Given, Fine, Valid};
ghost use Rattle.search_rounds.specs.Firsts.{alone_in, Inside, LeftBy, Firsts, TookBy};

use round_lists::Used;
use round_lists::taking::take_out;
use round_table::{ENTRIES, entry_at};
use search::{Progress, Terms, advance};
use search_step::{STANDS, State};
use tables::instruction::NOT;
use tables::line::{Lines, op_at};
use tables::place::Places;
use tables::slot::Slots;
use value_places::places::Units;
use value_rows::Binding;

// What has come of a state: `spent` says that the budget ended in the search inside a not. State and bindings are asked for either way, so an `Option` or
// a `Result` would hold the same in both cases.
#[derive(Drop)]
pub struct Taken {
    pub state: State,
    pub binds: [Binding; 16],
    pub spent: bool,
}

// One step from the state that stands.
#[tactic(auto, using(crate::proofs::Heads::own_rules))]
fn once(
    x: State,
    given: [Binding; 16],
    terms: Terms,
    mt: &[i32],
    units: Units,
    places: &Places,
    lines: &Lines,
    slots: &mut Slots,
    room: &mut [i32],
) -> Progress
    requires given { Given units.words.now places.now }
    requires fine { Fine (env_by (columns_of lines.now) mt.now units.words.now terms) }
    requires valid { Valid (env_by (columns_of lines.now) mt.now units.words.now terms) (run x (view_of (columns_of lines.now).arg slots.old) given room.old) }
    requires steps_fit { x.steps + 1 < 2 ^ 64 }
    ensures { run result.state (view_of (columns_of lines.now).arg slots.new) result.binds room.new ≡ run_of (env_by (columns_of lines.now) mt.now units.entry.words.now terms) 1 (run x (view_of (columns_of lines.now).arg slots.old) given room.old) }
{
    let one = Terms {
        budget: x.steps + 1,
        vars: terms.vars,
        origins: terms.origins,
        firsts: terms.firsts,
        fresh: 0,
    };
    let from = Progress {
        state: x,
        binds: given,
    };
    advance(from, one, mt, units, places, lines, slots, room)
}

// The search inside a not goes on while a frame is open. Along no range: each state says whether another one stands.
fn leave_not(
    first: State,
    given: [Binding; 16],
    terms: Terms,
    mt: &[i32],
    units: Units,
    places: &Places,
    lines: &Lines,
    slots: &mut Slots,
    room: &mut [i32],
) -> Taken
    requires given { Given units.words.now places.now }
    requires inside { Inside (env_by (columns_of lines.now) mt.now units.words.now terms) terms.budget first slots.old given room.old }
    requires budget_fits { terms.budget < 2 ^ 63 }
    ensures { LeftBy (env_by (columns_of lines.now) mt.now units.entry.words.now terms) terms.budget first slots.old given room.old result.spent result.state slots.new result.binds room.new }
{
    let mut x = first;
    let mut b = given;
    while x.live == STANDS {
        if x.top == 0 {
            return Taken {
                state: x,
                binds: b,
                spent: false,
            };
        }
        if terms.budget <= x.steps {
            return Taken {
                state: x,
                binds: b,
                spent: true,
            };
        }
        let f = once(x, b, terms, mt, units, places, lines, slots, room);
        let c = f.binds;
        x = f.state;
        b = c;
    }
    Taken {
        state: x,
        binds: b,
        spent: false,
    }
}

// The first state of the r-th list, alone.
#[tactic(auto, using(crate::proofs::Heads::own_rules))]
fn alone_of(x: State, r: usize, table: &[i32]) -> State
    requires { 825 * r + 825 ≤ length table.now }
    ensures { result ≡ alone_in table.now r x }
{
    let base = r * ENTRIES;
    let zero = entry_at(table, base);
    let two = entry_at(table, base + 2);
    State {
        pc: two.at,
        at: zero.at,
        marks: zero.marks,
        top: 0,
        live: STANDS,
        rows: x.rows,
        steps: x.steps,
        words: x.words,
    }
}

// The first state of the r-th list is taken up.
#[tactic(auto, using(crate::proofs::Heads::own_rules))]
pub fn take_first(
    x: State,
    given: [Binding; 16],
    r: usize,
    terms: Terms,
    used: Used,
    mt: &[i32],
    units: Units,
    places: &Places,
    lines: &Lines,
    slots: &mut Slots,
    table: &[i32],
    room: &mut [i32],
) -> Taken
    requires given { Given units.words.now places.now }
    requires firsts { Firsts (env_by (columns_of lines.now) mt.now units.words.now terms) used.slots table.now r terms.budget x slots.old given room.old }
    requires budget_fits { terms.budget < 2 ^ 63 }
    ensures { TookBy (env_by (columns_of lines.now) mt.now units.entry.words.now terms) used.slots table.now r terms.budget x slots.old given room.old result.spent result.state slots.new result.binds room.new }
{
    let b = take_out(table, r, terms.vars, used, given, slots);
    let y = alone_of(x, r, table);
    let o = op_at(lines, y.pc);
    let f = once(y, b, terms, mt, units, places, lines, slots, room);
    let z = f.state;
    let c = f.binds;
    if o == NOT {
        return leave_not(z, c, terms, mt, units, places, lines, slots, room);
    }
    Taken {
        state: z,
        binds: c,
        spent: false,
    }
}
