// What is asked of a state before it is taken up: a line's variable is bound to the state's value, or is compared with it by tag 3.
ghost use Rattle.std.specs.Prelude.{◌≡◌, ◌+◌, ◌<◌, length, get_or, pos};
ghost use Rattle.words.specs.Words.{entries};
ghost use Rattle.tables.specs.Line.{columns_of};
ghost use Rattle.value_places.specs.Held.{Held};
ghost use Rattle.value_equality.specs.Equality.{equal_at, is_sum};
ghost use Rattle.search.specs.Run.{value_of};
ghost use Rattle.search.specs.Valid.{Given};

use search_step::State;
use tables::line::{Lines, con_at, mat_at};
use tables::place::Places;
use value_equality::{equal, is_sum};
use value_places::places::Units;
use value_rows::Binding;

// The value of a state's first atom.
pub fn value_of(x: State) -> Binding
    ensures { result ≡ value_of x }
{
    Binding {
        at: x.at,
        marks: x.marks,
    }
}

// Under integer: whether an integer, plus the line's constant, is the state's.
pub fn is_sum_at(x: State, y: Binding, s: &[i32], lines: &Lines) -> bool
    requires number_y { y.at + 1 < length s.now }
    requires number_x { x.at + 1 < length s.now }
    requires line { x.pc < entries }
    requires constant { x.pc < length (columns_of lines.now).con }
    ensures { result ≡ is_sum s.now y.at (get_or (columns_of lines.now).con x.pc (pos 0)) x.at }
{
    let c = con_at(lines, x.pc);
    is_sum(s, y.at, c, x.at)
}

// Under another matcher: whether a value is equal to the state's.
pub fn is_equal_at(
    x: State,
    y: Binding,
    mt: &[i32],
    units: Units,
    places: &Places,
    lines: &Lines,
) -> bool
    requires given { Given units.words.now places.now }
    requires held_y { Held units.words.now y.at y.marks }
    requires held_x { Held units.words.now x.at x.marks }
    requires line { x.pc < entries }
    ensures { result ≡ equal_at mt.now (get_or (columns_of lines.now).mat x.pc 0) units.entry.words.now y.at y.marks x.at x.marks }
{
    let i = mat_at(lines, x.pc);
    equal(mt, i, units, places, y.at, y.marks, x.at, x.marks)
}
