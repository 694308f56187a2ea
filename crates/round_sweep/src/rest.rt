// What is left of a list, if anything is.
ghost use Rattle.std.specs.Prelude.{◌≡◌};
ghost use Rattle.tables.specs.Line.{columns_of};
ghost use Rattle.search.specs.Told.{env_by};
ghost use Rattle.search.specs.Valid.{Given};
ghost use Rattle.round_sweep.specs.Rests.{Rests, Rested};

use round_lists::Used;
use round_table::{ENTRIES, entry_at};
use search::Terms;
use search_rounds::remainder::remain;
use search_step::State;
use tables::line::Lines;
use tables::place::Places;
use tables::slot::Slots;
use value_places::places::Units;
use value_rows::Bindings;

// The bindings as they are left, and how many lists were kept.
#[derive(Drop)]
pub struct Rest {
    pub binds: Bindings,
    pub more: usize,
}

// The remainder of the i-th list, where a frame of it is open, is kept as another.
pub fn put_rest(
    x: State,
    given: Bindings,
    i: usize,
    to: usize,
    terms: Terms,
    used: Used,
    mt: &[i32],
    units: Units,
    places: &Places,
    lines: &Lines,
    slots: &mut Slots,
    table: &mut [i32],
) -> Rest
    requires given { Given units.words.now places.now }
    requires rests { Rests (env_by (columns_of lines.now) mt.now units.words.now terms) used.slots table.old i to x slots.old given }
    ensures { Rested (env_by (columns_of lines.now) mt.now units.entry.words.now terms) used.slots table.old table.new i to result.more slots.old slots.new given result.binds }
{
    let one = entry_at(table, i * ENTRIES + 1);
    if one.at == 0 {
        return Rest {
            binds: given,
            more: 0,
        };
    }
    let b = remain(
        x, given, i, to, terms, used, mt, units, places, lines, slots, table,
    );
    Rest { binds: b, more: 1 }
}
