// Document 02, No. 10: the run by rounds of a program on a target, over a table that the game lends.
#![tactic(auto)]

pub mod rounds;
pub mod size;

ghost use Rattle.std.specs.Prelude.{◌≡◌, ◌^◌, ◌<◌, length};
ghost use Rattle.tables.specs.Line.{columns_of};
ghost use Rattle.search.specs.Stops.{number_of};
ghost use Rattle.search.specs.Run.{matched};
ghost use Rattle.search.specs.Told.{env_by};
ghost use Rattle.round_states.specs.Ruled.{Ruled};
ghost use Rattle.round_run.specs.Runs.{no_table, ByRounds};

use round_lists::Used;
use round_lists::keeping::keep;
use rounds::{Round, rounds};
use search::stop::Stop;
use search::{Report, Terms, open};
use size::{most_states, slots_used};
use tables::line::Lines;
use tables::place::no_places;
use tables::slot::no_slots;
use value_places::places::{Units, places_of};

// A table that holds no state: no round can begin.
fn without_table(budget: u64) -> Report
    ensures { result ≡ no_table budget }
{
    let mut stop = Some(Stop::Table);
    if budget == 0 {
        stop = Some(Stop::Budget);
    }
    Report {
        stop,
        rows: 0,
        steps: 0,
        words: 0,
    }
}

// The whole run: the first state is kept as the only list, and round follows round. The budget's bound is a clause of the rounds and no field of `Terms`: an
// advance of a lent run, which has the same terms, may have any budget.
pub fn search_rounds(
    terms: Terms,
    mt: &[i32],
    s: &[i32],
    lines: &Lines,
    table: &mut [i32],
    room: &mut [i32],
) -> Report
    requires ruled { Ruled (env_by (columns_of lines.now) mt.now s.now terms) }
    requires budget_fits { terms.budget < 2 ^ 63 }
    ensures { ByRounds (env_by (columns_of lines.now) mt.now s.now terms) terms.budget (length table.old) room.old (matched (number_of result.stop) result.rows result.steps result.words room.new) }
{
    let limit = most_states(table.len());
    if limit == 0 {
        return without_table(terms.budget);
    }
    let units = Units { words: s };
    let mut places = no_places();
    places_of(units, &mut places);
    let mut slots = no_slots();
    let used = Used {
        slots: slots_used(lines),
    };
    let first = open(units);
    let x = first.state;
    let b = first.binds;
    let n = terms.vars;
    keep(x, b, 0, n, used, lines, &slots, table);
    let begun = Round {
        state: x,
        binds: b,
        many: 1,
        waiting: 1,
        stop: None,
    };
    let r = rounds(
        begun, limit, terms, used, mt, units, &places, lines, &mut slots, table, room,
    );
    let y = r.state;
    Report {
        stop: r.stop,
        rows: y.rows,
        steps: y.steps,
        words: y.words,
    }
}
