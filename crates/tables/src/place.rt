// Where the values of a target stand, in sections: where each value ends, where the places of its elements or parts begin in the last section, and
// there the places. A value's tag stands at an even index; the numbers of the value at 2 i are those at i. That an index is so far below the table's end is a
// clause, as it is of a line: an index is counted on.
#![tactic(auto, using(crate::proofs::Places::place_rules))]

ghost use Rattle.std.specs.Prelude.{◌≡◌, ◌/◌, ◌<◌, get_or};
ghost use Rattle.tables.specs.Place.{value_count, sections_of, put_end, put_base, put_place, no_places};

// The most values of a target.
pub const VALUES: usize = 512;

// Where the sections start; the ends' at 0.
const BASES: usize = VALUES;

const PLACES: usize = 2 * VALUES;

const NUMBERS: usize = 3 * VALUES;

pub type Places = [u16; NUMBERS];

pub fn no_places() -> Places
    ensures { result ≡ no_places }
{
    [0u16; NUMBERS]
}

// Where the value ends whose tag stands at an index.
pub fn end_at(places: &Places, at: usize) -> usize
    requires { at / 2 < value_count }
    ensures { result ≡ get_or (sections_of places.now).ends (at / 2) 0 }
{
    usize::from(places[at / 2])
}

// Where the places of its elements or parts begin.
pub fn base_at(places: &Places, at: usize) -> usize
    requires { at / 2 < value_count }
    ensures { result ≡ get_or (sections_of places.now).bases (at / 2) 0 }
{
    usize::from(places[BASES + at / 2])
}

// One of these places.
pub fn place_at(places: &Places, j: usize) -> usize
    requires { j < value_count }
    ensures { result ≡ get_or (sections_of places.now).places j 0 }
{
    usize::from(places[PLACES + j])
}

pub fn put_end(places: &mut Places, at: usize, end: usize)
    requires value { at / 2 < value_count }
    requires end_fits { end < 65536 }
    ensures { sections_of places.new ≡ put_end (at / 2) end (sections_of places.old) }
{
    places[at / 2] = end as u16;
}

pub fn put_base(places: &mut Places, at: usize, base: usize)
    requires value { at / 2 < value_count }
    requires base_fits { base < 65536 }
    ensures { sections_of places.new ≡ put_base (at / 2) base (sections_of places.old) }
{
    places[BASES + at / 2] = base as u16;
}

pub fn put_place(places: &mut Places, j: usize, place: usize)
    requires value { j < value_count }
    requires place_fits { place < 65536 }
    ensures { sections_of places.new ≡ put_place j place (sections_of places.old) }
{
    places[PLACES + j] = place as u16;
}
