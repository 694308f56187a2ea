// Document 01, section 4, Row: the values of the variables, each in target form, elements in target order. The size is known before a word is
// written, and no other word of the room is touched.
#![tactic(auto)]

pub mod origins;

ghost use Rattle.std.specs.Prelude.{◌≡◌, ◌∷◌, [], ◌+◌, ◌-◌, ◌<◌, ◌≤◌, length, pos};
ghost use Rattle.std.specs.Int.Count.{ones};
ghost use Rattle.rules.specs.Forms.{size, words};
ghost use Rattle.rules.specs.Rows.{as_words, row};
ghost use Rattle.value_places.specs.Places.{value_at, Target, Tag};
ghost use Rattle.value_places.specs.Tables.{Placed};
ghost use Rattle.value_places.specs.Held.{Held, held_at, size_left, words_left, put, part};
ghost use Rattle.value_rows.specs.Row.{form_by, told_at, bound, Bound};

use origins::put_origin;
use tables::place::{Places, end_at};
use value_places::places::{Units, element, number_at};
use words::marks::{Positions, count};

// The most variables of a rule.
pub const VARIABLES: usize = 16;

// What a variable is bound to: the index of a tag in the target, and marks.
#[repr(C)]
#[derive(Clone, Copy)]
pub struct Binding {
    pub at: usize,
    pub marks: u64,
}

pub type Bindings = [Binding; VARIABLES];

// How many words the value at an index has.
#[tactic(auto, unfolding(value_places::specs::Places::value_at, value_places::specs::Places::forest))]
fn size_at(units: Units, places: &Places, at: usize) -> usize
    requires placed { Placed units.words.now places.now }
    requires tag { Tag units.words.now at }
    ensures { result ≡ size (value_at units.entry.words.now at) }
{
    let end = end_at(places, at);
    end - at
}

// How many words a held value has. A tuple is held whole.
#[tactic(auto, using(crate::proofs::Row::size_rules))]
fn size_of(units: Units, places: &Places, at: usize, m: u64) -> usize
    requires placed { Placed units.words.now places.now }
    requires held { Held units.words.now at m }
    ensures { result ≡ size (held_at units.entry.words.now at m) }
{
    let tag = number_at(units.words, at);
    if tag == 0 {
        return 2;
    }
    if tag == 2 {
        return size_at(units, places, at);
    }
    let mut n: usize = 2;
    for k in Positions::of(m) {
        let e = element(units, places, at, k);
        let end = end_at(places, e);
        n += end - e;
    }
    n
}

// Words, written into the room from an index on; the index behind them.
#[tactic(auto, unfolding(value_places::specs::Held::put))]
pub fn put_words(room: &mut [i32], from: usize, words: &[i32]) -> usize
    requires { from + length words.now ≤ length room.old }
    ensures behind { result ≡ from + length words.now }
    ensures written { room.new ≡ put room.old from words.now }
{
    for i in 0..words.len() {
        room[from + i] = words[i];
    }
    from + words.len()
}

// The words from an index up to another, once more at an index of the room.
pub fn copy(s: &[i32], from: usize, to: usize, room: &mut [i32], at: usize) -> usize
    requires ordered { from ≤ to }
    requires within { to ≤ length s.now }
    requires room { at + (to - from) ≤ length room.old }
    ensures { (result ≡ at + (to - from)) × (room.new ≡ put room.old at (part from to s.now)) }
{
    put_words(room, at, &s[from..to])
}

// The words of a whole value, an integer's at once.
#[tactic(auto, using(crate::proofs::Row::put_whole_rules))]
fn put_whole(units: Units, places: &Places, at: usize, room: &mut [i32], from: usize) -> usize
    requires placed { Placed units.words.now places.now }
    requires tag { Tag units.words.now at }
    requires room { from + size (value_at units.words.now at) ≤ length room.old }
    ensures { (result ≡ from + size (value_at units.entry.words.now at)) × (room.new ≡ put room.old from (words (value_at units.entry.words.now at))) }
{
    let tag = number_at(units.words, at);
    if tag == 0 {
        let x = units.words[at + 1];
        return put_words(room, from, &[0, x]);
    }
    let end = end_at(places, at);
    copy(units.words, at, end, room, from)
}

// The number of marks as a word.
fn count_word(m: u64) -> i32
    ensures { result ≡ pos (ones m) }
{
    count(m) as i32
}

// The words of the elements marked.
#[tactic(auto, using(crate::proofs::Row::left_rules))]
fn put_left(
    units: Units,
    places: &Places,
    at: usize,
    m: u64,
    room: &mut [i32],
    from: usize,
) -> usize
    requires placed { Placed units.words.now places.now }
    requires held { Held units.words.now at m }
    requires room { from + size_left units.words.now at m ≤ length room.old }
    ensures { (result ≡ from + size_left units.entry.words.now at m) × (room.new ≡ put room.old from (words_left units.entry.words.now at m)) }
{
    let mut o = from;
    for k in Positions::of(m) {
        let e = element(units, places, at, k);
        o = put_whole(units, places, e, room, o);
    }
    o
}

// A held value's words, written into the room from an index on.
#[tactic(auto, using(crate::proofs::Row::put_rules))]
pub fn put_value(
    units: Units,
    places: &Places,
    at: usize,
    m: u64,
    room: &mut [i32],
    from: usize,
) -> usize
    requires placed { Placed units.words.now places.now }
    requires held { Held units.words.now at m }
    requires room { from + size (held_at units.words.now at m) ≤ length room.old }
    ensures { (result ≡ from + size (held_at units.entry.words.now at m)) × (room.new ≡ put room.old from (words (held_at units.entry.words.now at m))) }
{
    let tag = number_at(units.words, at);
    if tag != 1 {
        return put_whole(units, places, at, room, from);
    }
    let n = count_word(m);
    let elements = put_words(room, from, &[1, n]);
    put_left(units, places, at, m, room, elements)
}

// What a row tells of a held value, written into the room from an index on: its words, or its origin.
#[tactic(auto, using(crate::proofs::Row::entry_rules))]
pub fn put_entry(
    origins: bool,
    units: Units,
    places: &Places,
    at: usize,
    m: u64,
    room: &mut [i32],
    from: usize,
) -> usize
    requires placed { Placed units.words.now places.now }
    requires held { Held units.words.now at m }
    requires room { from + length (told_at (form_by origins) units.words.now at m) ≤ length room.old }
    ensures { (result ≡ from + length (told_at (form_by origins) units.entry.words.now at m)) × (room.new ≡ put room.old from (told_at (form_by origins) units.entry.words.now at m)) }
{
    if origins {
        return put_origin(at, m, room, from);
    }
    put_value(units, places, at, m, room, from)
}

// How many words the row has in form 1, of which n variables are bound.
#[tactic(auto, using(crate::proofs::Row::sum_rules), unfolding(rules::specs::Rows::row, rules::specs::Rows::told, crate::specs::Row::bound, crate::specs::Row::origin_of))]
fn words_size(units: Units, places: &Places, b: Bindings, n: usize) -> usize
    requires placed { Placed units.words.now places.now }
    requires bound { Bound units.words.now b n }
    ensures { result ≡ length (row as_words (bound units.entry.words.now b n)) }
{
    let mut size: usize = 0;
    for v in 0..n {
        let x = b[v];
        size += size_of(units, places, x.at, x.marks);
    }
    size
}

// How many words the row has of which n variables are bound; in form 2 three for each.
#[tactic(auto, using(crate::proofs::Row::form_size_rules), unfolding(rules::specs::Rows::row, rules::specs::Rows::told, crate::specs::Row::form_by, crate::specs::Row::bound, crate::specs::Row::origin_of))]
pub fn row_size(origins: bool, units: Units, places: &Places, b: Bindings, n: usize) -> usize
    requires placed { Placed units.words.now places.now }
    requires bound { Bound units.words.now b n }
    ensures { result ≡ length (row (form_by origins) (bound units.entry.words.now b n)) }
{
    if origins {
        return 3 * n;
    }
    words_size(units, places, b, n)
}
