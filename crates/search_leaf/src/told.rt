// What a row tells of integers: a word for each variable.
ghost use Rattle.std.specs.Prelude.{◌≡◌, true, ◌+◌, ◌<◌, ◌≤◌, length, get_or, pos};
ghost use Rattle.value_places.specs.Places.{Target};
ghost use Rattle.value_places.specs.Held.{put};
ghost use Rattle.value_rows.specs.Row.{Bound, nothing};
ghost use Rattle.search_leaf.specs.Told.{word_of, entry_of, row_of, size_of, Tells, but_of};

use tables::instruction::BIND;
use value_places::places::{Units, number_at};
use value_rows::{Binding, Bindings, VARIABLES};

// How many variables a row tells, and whether it tells origins.
#[derive(Clone, Copy)]
pub struct Shape {
    pub vars: usize,
    pub origins: bool,
}

pub type Words = [i32; VARIABLES];

// Whether all variables are bound to integers, and what one is bound to.
#[derive(Drop)]
pub struct Told {
    pub all: bool,
    pub value: Binding,
}

// An index as a word.
#[tactic(auto, using(value_rows::proofs::Halves::index_rules))]
fn index_word(at: usize) -> i32
    requires { at < 1024 }
    ensures { result ≡ pos at }
{
    at as i32
}

// The word of the integer at an index: its place, or its number.
#[tactic(auto, using(crate::proofs::Words::word_rules))]
pub fn word_of(origins: bool, s: &[i32], at: usize) -> i32
    requires { (at < 1024) × (at + 1 < length s.now) }
    ensures { result ≡ word_of origins s.now at }
{
    if origins {
        return index_word(at);
    }
    s[at + 1]
}

// The words of all variables but one, and the binding of a line's variable.
pub fn told_of(
    shape: Shape,
    b: Bindings,
    var: usize,
    but: usize,
    units: Units,
    words: &mut Words,
) -> Told
    requires bound { Bound units.words.now b shape.vars }
    requires variable { (var < 16) × (length words.old ≡ 16) }
    ensures value { result.value ≡ get_or b var nothing }
    ensures tells { (result.all ≡ true → Tells shape.origins units.entry.words.now b shape.vars but words.new) }
{
    let value = b[var];
    for v in 0..shape.vars {
        if v != but {
            let at = b[v].at;
            let tag = number_at(units.words, at);
            if tag != 0 {
                return Told {
                    all: false,
                    value: value,
                };
            }
            words[v] = word_of(shape.origins, units.words, at);
        }
    }
    Told {
        all: true,
        value: value,
    }
}

// The variable that a line binds, whose word is not asked for; or none.
#[tactic(auto, using(crate::proofs::Words::but_rules))]
pub fn but_of(op: u16, v: usize) -> usize
    ensures { result ≡ but_of op v }
{
    if op == BIND {
        return v;
    }
    VARIABLES
}

// An integer's entry, written into the room from an index on.
fn put_word(origins: bool, word: i32, room: &mut [i32], from: usize) -> usize
    requires { from + length (entry_of origins word) ≤ length room.old }
    ensures { (result ≡ from + length (entry_of origins word)) × (room.new ≡ put room.old from (entry_of origins word)) }
{
    if origins {
        room[from] = word;
        room[from + 1] = 0;
        room[from + 2] = 0;
        return from + 3;
    }
    room[from] = 0;
    room[from + 1] = word;
    from + 2
}

// A row, written into the room from an index on.
pub fn put_row(shape: Shape, told: &Words, room: &mut [i32], from: usize) -> usize
    requires { (shape.vars ≤ 16) × (length told.now ≡ 16) × (from + length (row_of shape.origins shape.vars told.now) ≤ length room.old) }
    ensures { (result ≡ from + length (row_of shape.origins shape.vars told.now)) × (room.new ≡ put room.old from (row_of shape.origins shape.vars told.now)) }
{
    let mut e = from;
    for v in 0..shape.vars {
        let word = told[v];
        e = put_word(shape.origins, word, room, e);
    }
    e
}

// How many words a row has.
#[tactic(auto, using(crate::proofs::Words::size_rules))]
pub fn row_words(shape: Shape) -> usize
    requires { shape.vars ≤ 16 }
    ensures { result ≡ size_of shape.origins shape.vars }
{
    if shape.origins {
        return 3 * shape.vars;
    }
    2 * shape.vars
}
