// Document 02, No. 13: of the elements that are left of a collection, the first place of each value that differs.
#![tactic(auto)]

pub mod fresh;

ghost use Rattle.std.specs.Prelude.{◌≡◌, ◌+◌, ◌-◌, ◌^◌, ◌<◌, ◌≤◌};
ghost use Rattle.std.specs.Int.Count.{count_leading_zeros};
ghost use Rattle.value_places.specs.Places.{Target, Tag, count_at};
ghost use Rattle.value_places.specs.Tables.{Placed};
ghost use Rattle.value_places.specs.Held.{Held};
ghost use Rattle.value_equality.specs.Equality.{wholes_equal};
ghost use Rattle.value_firsts.specs.Firsts.{firsts_at, before_at, kept_with, Lower, Fresh};

use tables::place::Places;
use value_equality::{equal, same_integers};
use value_places::places::{Units, element, whole};
use words::marks::{Positions, one, without};
use words::{matcher, tag_at};

// The highest place marked.
#[tactic(auto, using(crate::proofs::Laws::highest_rules))]
fn highest(m: u64) -> u32
    requires { 0 < m }
    ensures { result ≡ 63 - count_leading_zeros 64 m }
{
    63 - u64::leading_zeros(m)
}

// Two whole values under the matcher at an index; integers without a call of the comparison of nested values.
#[tactic(auto, using(crate::proofs::Laws::value_rules))]
fn same_values(mt: &[i32], i: usize, units: Units, places: &Places, a: usize, b: usize) -> bool
    requires placed { Placed units.words.now places.now }
    requires tag_a { Tag units.words.now a }
    requires tag_b { Tag units.words.now b }
    ensures { result ≡ wholes_equal mt.now i units.entry.words.now a b }
{
    if tag_at(mt, i) == matcher::INTEGER {
        return same_integers(units, a, b);
    }
    equal(mt, i, units, places, a, whole(units, a), b, whole(units, b))
}

// Whether one of the marked elements of the collection is equal to its element k.
#[tactic(auto, using(crate::proofs::Laws::before_rules))]
fn is_before(mt: &[i32], i: usize, units: Units, places: &Places, at: usize, m: u64, k: u32) -> bool
    requires placed { Placed units.words.now places.now }
    requires held { Held units.words.now at m }
    requires element { k < count_at units.words.now at }
    ensures { result ≡ before_at mt.now i units.entry.words.now at m k }
{
    let e = element(units, places, at, k);
    for j in Positions::of(m) {
        let f = element(units, places, at, j);
        if same_values(mt, i, units, places, f, e) {
            return true;
        }
    }
    false
}

// The marks with place k, unless it was seen.
#[tactic(auto, using(crate::proofs::Laws::kept_rules))]
pub fn kept(out: u64, k: u32, seen: bool) -> u64
    requires place { k < 64 }
    requires new_mark { out + 2 ^ k < 2 ^ 64 }
    ensures { result ≡ kept_with out k seen }
{
    if seen {
        return out;
    }
    out + one(k)
}

// Marks of a collection, those above the marks `stop`, which are the n lowest digits of them; and fresh places, whose elements are equal to none before.
#[derive(Drop)]
pub struct Span {
    pub marks: u64,
    pub stop: u64,
    pub fresh: u64,
}

// Whether one of the marked elements, which stand before element k, is equal to it: of a fresh one nothing is asked.
fn is_seen(
    fresh: u64,
    mt: &[i32],
    i: usize,
    units: Units,
    places: &Places,
    at: usize,
    m: u64,
    k: u32,
) -> bool
    requires placed { Placed units.words.now places.now }
    requires held { Held units.words.now at m }
    requires element { (k < count_at units.words.now at) × (k < 64) × (m < 2 ^ k) }
    requires fresh { Fresh mt.now i units.words.now at fresh }
    ensures { result ≡ before_at mt.now i units.entry.words.now at m k }
{
    if without(fresh, k) < fresh {
        return false;
    }
    is_before(mt, i, units, places, at, m, k)
}

// The first places among the marks of a span; from the last mark on, since then what is left is what stands before.
#[tactic(auto, using(crate::proofs::Laws::above_rules))]
pub fn firsts_above(
    mt: &[i32],
    i: usize,
    units: Units,
    places: &Places,
    at: usize,
    span: Span,
) -> u64
    requires placed { Placed units.words.now places.now }
    requires held { Held units.words.now at span.marks }
    requires lower { Lower span.marks span.stop }
    requires fresh { Fresh mt.now i units.words.now at span.fresh }
    ensures { result + firsts_at mt.now i units.entry.words.now at span.stop ≡ firsts_at mt.now i units.entry.words.now at span.marks }
{
    let mut left = span.marks;
    let mut out: u64 = 0;
    // Not over positions: what is left at each turn is what the element is compared with, and is counted down all the same.
    while span.stop < left {
        let k = highest(left);
        left = left - one(k);
        let seen = is_seen(span.fresh, mt, i, units, places, at, left, k);
        out = kept(out, k, seen);
    }
    out
}
