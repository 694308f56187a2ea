// Where the values of a target stand, and the tables by which element k of a collection and part k of a tuple are found at once.
ghost use Rattle.std.specs.Prelude.{◌≡◌, ◌+◌, ◌<◌, ◌≤◌};
ghost use Rattle.words.specs.Words.{tag_at};
ghost use Rattle.tables.specs.Place.{sections_of, Whole};
ghost use Rattle.value_places.specs.Places.{count_at, marks_at, Target, Tag, Standing, hops, element_at};
ghost use Rattle.value_places.specs.Tables.{EndsFrom, Filled, Placed};
ghost use Rattle.value_places.specs.Held.{whole_at};

use tables::place::{Places, base_at, end_at, place_at, put_base, put_end, put_place};
use words::marks::full;

// The words of a target, as test 5 takes them. (The table of its places stands beside them: in one struct with it, by value or lent, T10 of bench/speed.rs
// takes over 260 instructions a step; its bar is 235.)
#[derive(Clone, Copy)]
pub struct Units<'a> {
    pub words: &'a [i32],
    ghost target: { Target words.now },
}

// A word that is not negative, as a number.
#[tactic(auto, using(crate::proofs::Counting::number_rules))]
pub fn number_at(s: &[i32], at: usize) -> u32
    requires { tag_at s.now at < 2147483648 }
    ensures { result ≡ tag_at s.now at }
{
    s[at] as u32
}

// How many elements or parts the value at an index has.
#[tactic(auto, using(crate::proofs::Counting::count_rules))]
pub fn count_at(units: Units, at: usize) -> u32
    requires { Tag units.words.now at }
    ensures { result ≡ count_at units.entry.words.now at }
{
    let tag = number_at(units.words, at);
    if tag == 0 {
        return 0;
    }
    number_at(units.words, at + 1)
}

// How many of them may be marked: a collection's elements.
#[tactic(auto, using(crate::proofs::Counting::count_rules))]
fn marks_at(units: Units, at: usize) -> u32
    requires { Tag units.words.now at }
    ensures { result ≡ marks_at units.entry.words.now at }
{
    let tag = number_at(units.words, at);
    if tag == 1 {
        return number_at(units.words, at + 1);
    }
    0
}

// The marks of all elements of the value at an index.
#[tactic(auto, using(crate::proofs::Counting::count_rules))]
pub fn whole(units: Units, at: usize) -> u64
    requires { Tag units.words.now at }
    ensures { result ≡ whole_at units.entry.words.now at }
{
    let n = marks_at(units, at);
    full(n)
}

// The places of n values that stand one after the other from an index on, put from `from` on; and where the values end.
#[tactic(auto, using(crate::proofs::Filling::fill_rules))]
fn fill(units: Units, places: &mut Places, at: usize, n: u32, from: usize) -> usize
    requires ends_from { EndsFrom units.words.now (sections_of places.old).ends at }
    requires standing { Standing units.words.now n at }
    requires places_left { (from + n ≤ 512) × Whole (sections_of places.old) }
    ensures { (result ≡ hops units.entry.words.now n at) × Filled units.entry.words.now at n from (sections_of places.old) (sections_of places.new) }
{
    let mut e = at;
    for o in from..from + n as usize {
        put_place(places, o, e);
        e = end_at(places, e);
    }
    e
}

// The table of a target's values. From the right, so that a value's elements or parts have their ends before it; a value that has none gets no base.
#[tactic(auto, using(crate::proofs::Filling::from_rules))]
pub fn places_of(units: Units, places: &mut Places)
    requires { Whole (sections_of places.old) }
    ensures { Placed units.entry.words.now places.new }
{
    let mut used: usize = 0;
    for pair in (0..units.words.len() / 2).rev() {
        let at = 2 * pair;
        let n = count_at(units, at);
        if n == 0 {
            put_end(places, at, at + 2);
        } else {
            put_base(places, at, used);
            let e = fill(units, places, at + 2, n, used);
            put_end(places, at, e);
            used += n as usize;
        }
    }
}

// Where element k of the collection, or part k of the tuple, at an index stands.
#[tactic(auto, using(crate::proofs::Filling::find_rules))]
pub fn element(units: Units, places: &Places, at: usize, k: u32) -> usize
    requires placed { Placed units.words.now places.now }
    requires tag { Tag units.words.now at }
    requires element { k < count_at units.words.now at }
    ensures { result ≡ element_at units.entry.words.now at k }
{
    let b = base_at(places, at);
    place_at(places, b + k as usize)
}
