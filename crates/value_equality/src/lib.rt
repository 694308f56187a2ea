// Document 01, section 4, tag 3: equality of two held values under a matcher. Nested collections and tuples are compared in one loop, which keeps its
// place in a table of eight levels; multisets by marking off, tuples part by part.
#![tactic(auto)]

ghost use Rattle.std.specs.Prelude.{◌≡◌, ◌+◌, ◌^◌, ◌<◌, ◌≤◌, length, get_or, pos};
ghost use Rattle.rules.specs.Numbers.{same};
ghost use Rattle.value_places.specs.Places.{Target, Tag};
ghost use Rattle.value_places.specs.Tables.{Placed};
ghost use Rattle.value_places.specs.Held.{Held};
ghost use Rattle.value_equality.specs.Equality.{equal_at, tuples_equal, is_sum, integers_equal, first_integer, integers_paired};
ghost use Rattle.value_equality.specs.Levels.{ended_of, outcome_of, level_of, onward_of, settled_of, taken_of, question_of, first_of, second_of, comes_to, Marks, Both, Open, Opens};

use matchers::{matcher_end, width_at};
use tables::place::Places;
use value_places::places::{Units, count_at, element, number_at, whole};
use words::marks::{Positions, full, lowest, rest, without};
use words::{is_total, tag_at};

// Whether the integer whose tag stands at a, plus c, is the integer at b.
#[tactic(auto, using(crate::proofs::Comparing::word_rules))]
pub fn is_sum(s: &[i32], a: usize, c: i32, b: usize) -> bool
    requires number_a { a + 1 < length s.now }
    requires number_b { b + 1 < length s.now }
    ensures { result ≡ is_sum s.now a c b }
{
    let x = s[a + 1];
    let z = s[b + 1];
    is_total(x, c, z)
}

// Two integers.
#[tactic(auto, using(crate::proofs::Comparing::word_rules))]
fn same_number(s: &[i32], a: usize, b: usize) -> bool
    requires { (a + 1 < length s.now) × (b + 1 < length s.now) }
    ensures { result ≡ same (get_or s.now (a + 1) (pos 0)) (get_or s.now (b + 1) (pos 0)) }
{
    s[a + 1] == s[b + 1]
}

// A level: two collections or two tuples, of which the elements or parts marked x and y are still to be compared. kind: 2 in order, 3 marking off, 4 part
// by part. The next question is the lowest of x and the lowest of z, under the matcher at `at`; z are the marks of y that are still to try for it.
// Nothing is left to ask where x or z is none: the level's answer is whether neither x nor y is left.
// `kind` is a number, as a matcher's tag has it: as an enum, T1 takes 13.9 instructions a step (bar 13.0).
#[derive(Clone, Copy)]
pub struct Level {
    pub kind: u32,
    pub at: usize,
    pub a: usize,
    pub x: u64,
    pub b: usize,
    pub y: u64,
    pub z: u64,
}

// Whether nothing is left to ask, and then the answer.
#[tactic(auto, using(crate::proofs::Asking::answer_rules))]
fn ended(x: u64, z: u64) -> bool
    ensures { result ≡ ended_of x z }
{
    if x == 0 {
        return true;
    }
    z == 0
}

#[tactic(auto, using(crate::proofs::Asking::answer_rules))]
fn outcome(x: u64, y: u64) -> bool
    ensures { result ≡ outcome_of x y }
{
    if x == 0 {
        return y == 0;
    }
    false
}

// A level with all of y to try.
fn begun(kind: u32, at: usize, a: usize, x: u64, b: usize, y: u64) -> Level
    ensures { result ≡ level_of kind at a x b y }
{
    Level {
        kind: kind,
        at: at,
        a: a,
        x: x,
        b: b,
        y: y,
        z: y,
    }
}

// A level that has its answer.
#[tactic(auto, using(crate::proofs::Asking::answer_rules))]
fn settled(a: usize, b: usize, yes: bool) -> Level
    ensures { result ≡ settled_of a b yes }
{
    if yes {
        return begun(2, 0, a, 0, b, 0);
    }
    begun(2, 0, a, 0, b, 1)
}

// Two tuples; the width of their matcher stands at i.
#[tactic(auto, using(crate::proofs::Parts::tuples_rules))]
fn tuples(mt: &[i32], i: usize, units: Units, a: usize, b: usize) -> Level
    requires tag_a { Tag units.words.now a }
    requires tag_b { Tag units.words.now b }
    requires matcher { i ≤ length mt.now }
    ensures { Opens mt.now units.entry.words.now a result (tuples_equal mt.now i units.entry.words.now a b) }
{
    let w = width_at(mt, i);
    let n = count_at(units, a);
    let m = count_at(units, b);
    if n != m {
        return settled(a, b, false);
    }
    if n as usize != w {
        return settled(a, b, false);
    }
    let x = full(n);
    begun(4, i + 1, a, x, b, x)
}

// The question whether two held values are equal under the matcher whose words start at i.
#[tactic(auto, using(crate::proofs::ByTag::opened_rules, crate::proofs::ByTag::tuples_call))]
fn opened(mt: &[i32], i: usize, units: Units, a: usize, am: u64, b: usize, bm: u64) -> Level
    requires held_a { Held units.words.now a am }
    requires held_b { Held units.words.now b bm }
    ensures { Opens mt.now units.entry.words.now a result (equal_at mt.now i units.entry.words.now a am b bm) }
{
    let k = tag_at(mt, i);
    if k == 0 {
        return settled(a, b, false);
    }
    if 4 < k {
        return settled(a, b, false);
    }
    let ta = number_at(units.words, a);
    let tb = number_at(units.words, b);
    if k == 1 {
        if ta != 0 {
            return settled(a, b, false);
        }
        if tb != 0 {
            return settled(a, b, false);
        }
        let same = same_number(units.words, a, b);
        return settled(a, b, same);
    }
    if k == 4 {
        if ta != 2 {
            return settled(a, b, false);
        }
        if tb != 2 {
            return settled(a, b, false);
        }
        return tuples(mt, i + 1, units, a, b);
    }
    if ta != 1 {
        return settled(a, b, false);
    }
    if tb != 1 {
        return settled(a, b, false);
    }
    begun(k, i + 1, a, am, b, bm)
}

// The matcher of what is compared next: the same, or that of the next part.
#[tactic(auto, using(crate::proofs::Asking::taken_rules))]
fn onward(mt: &[i32], kind: u32, at: usize) -> usize
    ensures { result ≡ onward_of mt.now kind at }
{
    if kind == 4 {
        return matcher_end(mt, at);
    }
    at
}

// The level with the answer to its question: the two are taken away; or, where they are unlike, there may be others to try.
#[tactic(auto, using(crate::proofs::Asking::taken_rules))]
fn taken(mt: &[i32], l: Level, yes: bool) -> Level
    requires { (0 < l.x) × (0 < l.z) × (l.z < 2 ^ 64) }
    ensures { result ≡ taken_of mt.now l yes }
{
    let kind = l.kind;
    let at = l.at;
    let a = l.a;
    let x = l.x;
    let b = l.b;
    let y = l.y;
    let z = l.z;
    if yes {
        let next = onward(mt, kind, at);
        let left = without(y, lowest(z));
        return begun(kind, next, a, rest(x), b, left);
    }
    if kind == 3 {
        return Level {
            kind: kind,
            at: at,
            a: a,
            x: x,
            b: b,
            y: y,
            z: rest(z),
        };
    }
    settled(a, b, false)
}

// The level's question.
#[tactic(auto, using(crate::proofs::Asking::asked_rules))]
fn asked(mt: &[i32], units: Units, places: &Places, l: Level) -> Level
    requires placed { Placed units.words.now places.now }
    requires opened { Open units.words.now l }
    requires asks { (0 < l.x) × (0 < l.z) }
    ensures { Opens mt.now units.entry.words.now (first_of units.entry.words.now l) result (question_of mt.now units.entry.words.now l) }
{
    let j = lowest(l.x);
    let k = lowest(l.z);
    let e = element(units, places, l.a, j);
    let f = element(units, places, l.b, k);
    let x = whole(units, e);
    let y = whole(units, f);
    opened(mt, l.at, units, e, x, f, y)
}

// Two whole values, where integers are compared.
#[tactic(auto, using(crate::proofs::Integers::same_rules))]
pub fn same_integers(units: Units, a: usize, b: usize) -> bool
    requires tag_a { Tag units.words.now a }
    requires tag_b { Tag units.words.now b }
    ensures { result ≡ integers_equal units.entry.words.now a b }
{
    if number_at(units.words, a) != 0 {
        return false;
    }
    if number_at(units.words, b) != 0 {
        return false;
    }
    same_number(units.words, a, b)
}

// The level's question, where it is of two integers.
#[tactic(auto, using(crate::proofs::Integers::integer_rules))]
fn asked_integers(units: Units, places: &Places, l: Level) -> bool
    requires placed { Placed units.words.now places.now }
    requires opened { Open units.words.now l }
    requires asks { (0 < l.x) × (0 < l.z) }
    ensures { result ≡ integers_equal units.entry.words.now (first_of units.entry.words.now l) (second_of units.entry.words.now l) }
{
    let e = element(units, places, l.a, lowest(l.x));
    let f = element(units, places, l.b, lowest(l.z));
    same_integers(units, e, f)
}

// The first of the marked elements of b that is the integer at e; 64 where none is.
#[tactic(auto, using(crate::proofs::Integers::first_rules))]
fn first_integer(units: Units, places: &Places, e: usize, b: usize, y: u64) -> u32
    requires placed { Placed units.words.now places.now }
    requires tag { Tag units.words.now e }
    requires marks { Marks units.words.now b y }
    ensures { result ≡ first_integer units.entry.words.now e b y }
{
    for k in Positions::of(y) {
        let f = element(units, places, b, k);
        if same_integers(units, e, f) {
            return k;
        }
    }
    64
}

// Two multisets of integers: each of x with the first equal one of y that is left.
#[tactic(auto, using(crate::proofs::Integers::paired_rules))]
fn paired_integers(units: Units, places: &Places, a: usize, am: u64, b: usize, bm: u64) -> bool
    requires placed { Placed units.words.now places.now }
    requires both { Both units.words.now a am b bm }
    ensures { result ≡ integers_paired units.entry.words.now a am b bm }
{
    let mut y = bm;
    for j in Positions::of(am) {
        let e = element(units, places, a, j);
        let k = first_integer(units, places, e, b, y);
        if k == 64 {
            return false;
        }
        y = without(y, k);
    }
    y == 0
}

// Two collections or two tuples, of which the elements or parts marked x and y are to be compared, as a level has them.
#[tactic(auto, using(crate::proofs::Integers::compared_rules, crate::proofs::Asking::table_rules))]
fn compared(
    mt: &[i32],
    units: Units,
    places: &Places,
    kind: u32,
    at: usize,
    a: usize,
    x: u64,
    b: usize,
    y: u64,
) -> bool
    requires placed { Placed units.words.now places.now }
    requires tag_a { Tag units.words.now a }
    requires opened { (0 < x → Open units.words.now (level_of kind at a x b y)) }
    ensures { result ≡ comes_to mt.now units.entry.words.now (level_of kind at a x b y) }
{
    let of = tag_at(mt, at);
    if kind == 3 {
        if of == 1 {
            return paired_integers(units, places, a, x, b, y);
        }
    }
    let mut l = begun(kind, at, a, x, b, y);
    let mut levels = [l; 8];
    let mut depth: usize = 0;
    // Each turn opens a level or closes one, and the last one closed ends it: there is nothing to go over.
    loop {
        let done = ended(l.x, l.z);
        if done {
            let yes = outcome(l.x, l.y);
            if depth == 0 {
                return yes;
            }
            depth -= 1;
            l = taken(mt, levels[depth], yes);
        } else {
            let of = tag_at(mt, l.at);
            if of == 1 {
                let yes = asked_integers(units, places, l);
                l = taken(mt, l, yes);
            } else {
                levels[depth] = l;
                depth += 1;
                l = asked(mt, units, places, l);
            }
        }
    }
}

// Two held values under the matcher whose words start at i. Of two tuples the same parts are marked; a call of its own for them keeps the comparison a
// function apart from the search's loop.
#[tactic(auto, using(crate::proofs::Asking::equal_rules))]
pub fn equal(
    mt: &[i32],
    i: usize,
    units: Units,
    places: &Places,
    a: usize,
    am: u64,
    b: usize,
    bm: u64,
) -> bool
    requires placed { Placed units.words.now places.now }
    requires held_a { Held units.words.now a am }
    requires held_b { Held units.words.now b bm }
    ensures { result ≡ equal_at mt.now i units.entry.words.now a am b bm }
{
    let l = opened(mt, i, units, a, am, b, bm);
    if l.kind == 4 {
        return compared(mt, units, places, 4, l.at, l.a, l.x, l.b, l.x);
    }
    compared(mt, units, places, l.kind, l.at, l.a, l.x, l.b, l.y)
}
