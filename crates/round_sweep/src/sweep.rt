// All lists of a round.
ghost use Rattle.std.specs.Prelude.{◌≡◌, ◌^◌, ◌<◌};
ghost use Rattle.tables.specs.Line.{columns_of};
ghost use Rattle.search.specs.Told.{env_by};
ghost use Rattle.search.specs.Valid.{Given};
ghost use Rattle.round_sweep.specs.Turns.{Sweeps, SweptBy};

use super::pull::pull;
use super::turn::{Sweep, turn};
use round_lists::Used;
use search::Terms;
use search::stop::Stop;
use tables::line::Lines;
use tables::place::Places;
use tables::slot::Slots;
use value_places::places::Units;

// List after list, from the first, until the run ends.
pub fn sweep(
    first: Sweep,
    many: usize,
    terms: Terms,
    used: Used,
    mt: &[i32],
    units: Units,
    places: &Places,
    lines: &Lines,
    slots: &mut Slots,
    table: &mut [i32],
    room: &mut [i32],
) -> Sweep
    requires given { Given units.words.now places.now }
    requires sweeps { Sweeps (env_by (columns_of lines.now) mt.now units.words.now terms) used.slots terms.budget many first table.old slots.old room.old }
    requires budget_fits { terms.budget < 2 ^ 63 }
    ensures { SweptBy (env_by (columns_of lines.now) mt.now units.entry.words.now terms) used.slots terms.budget many first table.old slots.old room.old result table.new slots.new room.new }
{
    let mut w = first;
    for i in 0..many {
        if let Some(_) = w.stop {
            return w;
        }
        w = turn(
            w, i, many, terms, used, mt, units, places, lines, slots, table, room,
        );
    }
    w
}
