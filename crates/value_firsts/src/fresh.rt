// The fresh places of a collection: those whose elements are equal to none before them. Whatever is left of it, they are first places.
ghost use Rattle.std.specs.Prelude.{◌≡◌, false, ◌<◌};
ghost use Rattle.words.specs.Words.{tag_at};
ghost use Rattle.value_places.specs.Places.{Target, Tag, count_at};
ghost use Rattle.value_places.specs.Tables.{Placed};
ghost use Rattle.value_firsts.specs.Firsts.{New, Fresh};

use super::kept;
use tables::place::Places;
use value_equality::same_integers;
use value_places::places::{Units, count_at, element};
use words::{matcher, tag_at};

// Whether an integer before element k is the same.
#[tactic(auto, using(crate::proofs::Freshly::number_rules))]
fn is_old_integer(mt: &[i32], i: usize, units: Units, places: &Places, at: usize, k: u32) -> bool
    requires placed { Placed units.words.now places.now }
    requires tag { Tag units.words.now at }
    requires element { k < count_at units.words.now at }
    requires integers { tag_at mt.now i ≡ 1 }
    ensures { result ≡ false → New mt.now i units.entry.words.now at k k }
{
    let e = element(units, places, at, k);
    for j in 0..k {
        let f = element(units, places, at, j);
        if same_integers(units, f, e) {
            return true;
        }
    }
    false
}

// Whether an element before element k is equal to it, or is not asked: of integers alone it is, since a second caller of the comparison of
// nested values would cost the search's own more than fresh places save.
#[tactic(auto, using(crate::proofs::Freshly::old_rules))]
fn is_old(mt: &[i32], i: usize, units: Units, places: &Places, at: usize, k: u32) -> bool
    requires placed { Placed units.words.now places.now }
    requires tag { Tag units.words.now at }
    requires element { k < count_at units.words.now at }
    ensures { result ≡ false → New mt.now i units.entry.words.now at k k }
{
    if tag_at(mt, i) == matcher::INTEGER {
        return is_old_integer(mt, i, units, places, at, k);
    }
    true
}

// By the element matcher at an index. (Not by the first places of them all: the search's own would no longer be one function with their loop.)
#[tactic(auto, using(crate::proofs::Freshly::fresh_rules))]
pub fn fresh_places(mt: &[i32], i: usize, units: Units, places: &Places, at: usize) -> u64
    requires placed { Placed units.words.now places.now }
    requires tag { Tag units.words.now at }
    ensures { Fresh mt.now i units.entry.words.now at result }
{
    let n = count_at(units, at);
    let mut out: u64 = 0;
    for k in 0..n {
        let seen = is_old(mt, i, units, places, at, k);
        out = kept(out, k, seen);
    }
    out
}
