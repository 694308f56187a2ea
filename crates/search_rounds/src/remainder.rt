// What is left of a list that gives up its first state.
ghost use Rattle.std.specs.Prelude.{◌≡◌, length, ◌+◌, ◌*◌, ◌<◌, ◌≤◌};
ghost use Rattle.tables.specs.Line.{columns_of};
ghost use Rattle.search.specs.Told.{env_by};
ghost use Rattle.search.specs.Valid.{Given};
ghost use Rattle.search_rounds.specs.Remaining.{Listed, head_in, Remained};

use round_lists::Used;
use round_lists::keeping::keep;
use round_lists::taking::{reopen, take_out};
use round_table::{ENTRIES, entry_at};
use search::Terms;
use search_choice::settle;
use search_step::{CHOOSES, State};
use tables::line::Lines;
use tables::place::Places;
use tables::slot::Slots;
use value_places::places::Units;
use value_rows::Binding;

// The state at the head of the r-th list, with its frame open; the next choice is still to be taken.
#[tactic(auto, using(crate::proofs::Laws::own_rules))]
fn head_of(x: State, r: usize, table: &[i32]) -> State
    requires { 825 * r + 825 ≤ length table.now }
    ensures { result ≡ head_in table.now r x }
{
    let base = r * ENTRIES;
    let zero = entry_at(table, base);
    let one = entry_at(table, base + 1);
    let two = entry_at(table, base + 2);
    State {
        pc: two.at,
        at: zero.at,
        marks: zero.marks,
        top: one.at,
        live: CHOOSES,
        rows: x.rows,
        steps: x.steps,
        words: x.words,
    }
}

// The remainder of the r-th list, of which an open frame is left, is kept as another.
#[tactic(auto, using(crate::proofs::Laws::own_rules))]
pub fn remain(
    x: State,
    given: [Binding; 16],
    r: usize,
    to: usize,
    terms: Terms,
    used: Used,
    mt: &[i32],
    units: Units,
    places: &Places,
    lines: &Lines,
    slots: &mut Slots,
    table: &mut [i32],
) -> [Binding; 16]
    requires given { Given units.words.now places.now }
    requires listed { Listed (env_by (columns_of lines.now) mt.now units.words.now terms) used.slots table.old r to x slots.old given }
    ensures { Remained (env_by (columns_of lines.now) mt.now units.entry.words.now terms) used.slots table.old table.new r to slots.old slots.new given result }
{
    let n = terms.vars;
    let b = take_out(table, r, n, used, given, slots);
    let y = head_of(x, r, table);
    reopen(table, r, y.top - 1, lines, slots);
    let z = settle(y, units, places, lines, slots);
    keep(z, b, to, n, used, lines, slots, table);
    b
}
