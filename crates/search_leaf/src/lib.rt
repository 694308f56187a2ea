// Document 01, section 4: a multiset's cons behind whose first part only a wildcard for the rest is left, its choices taken up at once, each with its row.
#![tactic(auto)]

pub mod lines;
pub mod told;

ghost use Rattle.std.specs.Prelude.{◌≡◌, ◌⊎◌, ◌-◌, ◌<◌, ◌≤◌, length};
ghost use Rattle.tables.specs.Line.{columns_of};
ghost use Rattle.tables.specs.Slot.{view_of, Slotted, Alone};
ghost use Rattle.value_places.specs.Places.{Target};
ghost use Rattle.value_places.specs.Tables.{Placed};
ghost use Rattle.search_leaf.specs.Leaf.{tally, Told, Took, None, Counts, Parts, Takes, part_of};

use search_step::State;
use tables::instruction::{BIND, SUM};
use tables::line::{Lines, arg_at, con_at, op_at};
use tables::place::{Places, base_at, place_at};
use tables::slot::{Slots, frame_at, put_left};
use told::{Shape, Words, but_of, put_row, row_words, told_of, word_of};
use value_places::places::{Units, number_at};
use value_rows::{Binding, Bindings, VARIABLES};
use words::is_total;
use words::marks::{lowest, rest};

// The choices left, the steps taken, the rows and their words written.
#[derive(Clone, Copy)]
pub struct Tally {
    pub left: u64,
    pub steps: u64,
    pub rows: u64,
    pub words: usize,
}

fn tally_of(left: u64, steps: u64, rows: u64, words: usize) -> Tally
    ensures { result ≡ tally left steps rows words }
{
    Tally {
        left: left,
        steps: steps,
        rows: rows,
        words: words,
    }
}

// The collection, and what its cons asks of an element: the instruction, the variable and what it is bound to, the constant.
#[derive(Drop)]
pub struct Part {
    pub at: usize,
    pub op: u16,
    pub var: usize,
    pub value: Binding,
    pub plus: i32,
}

// The choices are taken up, the lowest first, up to the last, to the budget or to the room's end: each that is equal has a row.
fn take_sums(
    first: Tally,
    part: Part,
    budget: u64,
    shape: Shape,
    told: &Words,
    units: Units,
    places: &Places,
    room: &mut [i32],
) -> Tally
    requires placed { Placed units.words.now places.now }
    requires parts { Parts units.words.now part first.left }
    requires counts { Counts budget first room.old }
    requires leaf { (part.op ≡ 5) × (shape.vars ≤ 16) × (length told.now ≡ 16) }
    ensures { Told units.entry.words.now shape.origins shape.vars part budget first told.now room.old result part.value room.new }
{
    if budget < 4 {
        return first;
    }
    let end = budget - 4;
    let size = row_words(shape);
    let base = base_at(places, part.at);
    let g = part.value.at;
    let number = units.words[g + 1];
    let mut left = first.left;
    let mut steps = first.steps;
    let mut rows = first.rows;
    let mut words = first.words;
    let mut more = rest(left);
    // Not over positions: the marks that are left are told at each return, and end it one mark early.
    while 0 < more {
        if end < steps {
            return tally_of(left, steps, rows, words);
        }
        let k = lowest(left);
        let e = place_at(places, base + k as usize);
        let found = is_total(number, part.plus, units.words[e + 1]);
        if found {
            if room.len() - words < size {
                return tally_of(left, steps, rows, words);
            }
            words = put_row(shape, told, room, words);
            rows += 1;
            steps += 4;
        } else {
            steps += 1;
        }
        left = more;
        more = rest(left);
    }
    tally_of(left, steps, rows, words)
}

// After choices: what the variable is bound to.
#[derive(Drop)]
pub struct Taken {
    pub tally: Tally,
    pub last: Binding,
}

fn taken_of(left: u64, steps: u64, rows: u64, words: usize, last: Binding) -> Taken
    ensures { (result.tally ≡ tally left steps rows words) × (result.last ≡ last) }
{
    Taken {
        tally: tally_of(left, steps, rows, words),
        last: last,
    }
}

// The same where each choice has a row; a variable is bound to it.
fn take_all(
    first: Tally,
    part: Part,
    budget: u64,
    shape: Shape,
    mut told: Words,
    units: Units,
    places: &Places,
    room: &mut [i32],
) -> Taken
    requires placed { Placed units.words.now places.now }
    requires parts { Parts units.words.now part first.left }
    requires counts { Counts budget first room.old }
    requires leaf { (part.op ≡ 5 → ⊥) × (shape.vars ≤ 16) × (length told ≡ 16) }
    ensures { Told units.entry.words.now shape.origins shape.vars part budget first told room.old result.tally result.last room.new }
{
    let size = row_words(shape);
    let base = base_at(places, part.at);
    let mut left = first.left;
    let mut steps = first.steps;
    let mut rows = first.rows;
    let mut words = first.words;
    let mut last = part.value;
    let mut next = rest(left);
    // Not over positions: the marks that are left are told at each return, and end it one mark early.
    while 0 < next {
        if budget - steps < 5 {
            return taken_of(left, steps, rows, words, last);
        }
        if room.len() - words < size {
            return taken_of(left, steps, rows, words, last);
        }
        if part.op == BIND {
            let k = lowest(left);
            let e = place_at(places, base + k as usize);
            let tag = number_at(units.words, e);
            if tag != 0 {
                return taken_of(left, steps, rows, words, last);
            }
            let v = part.var;
            told[v] = word_of(shape.origins, units.words, e);
            last = Binding { at: e, marks: 0 };
        }
        words = put_row(shape, &told, room, words);
        rows += 1;
        steps += 5;
        left = next;
        next = rest(left);
    }
    taken_of(left, steps, rows, words, last)
}

// The state after choices, and what the variable of the line is bound to.
#[derive(Drop)]
pub struct Leaves {
    pub state: State,
    pub last: Binding,
}

pub fn last_of(r: Leaves) -> Binding
    ensures { result ≡ r.last }
{
    r.last
}

// What choices keep to: the most steps, and the shape of a row.
#[derive(Drop)]
pub struct Bounds {
    pub budget: u64,
    pub shape: Shape,
}

// The choices of the last open frame but the last are taken up; i: the line at which the first part is tested or bound.
pub fn take(
    mut x: State,
    i: usize,
    b: Bindings,
    by: Bounds,
    units: Units,
    places: &Places,
    lines: &Lines,
    slots: &mut Slots,
    room: &mut [i32],
) -> Leaves
    requires placed { Placed units.words.now places.now }
    requires takes { Takes units.words.now (columns_of lines.now).con by.shape.vars i (part_of (columns_of lines.now).op (columns_of lines.now).arg (columns_of lines.now).con i b x (view_of (columns_of lines.now).arg slots.old)) by.budget b x (view_of (columns_of lines.now).arg slots.old) room.old }
    requires slotted { Slotted (columns_of lines.now).arg slots.old (x.top - 1) }
    requires alone { Alone (columns_of lines.now).arg (x.top - 1) }
    ensures { None (part_of (columns_of lines.now).op (columns_of lines.now).arg (columns_of lines.now).con i b x (view_of (columns_of lines.now).arg slots.old)) x (view_of (columns_of lines.now).arg slots.old) room.old result.state (view_of (columns_of lines.now).arg slots.new) result.last room.new ⊎ Took units.entry.words.now by.shape.origins by.shape.vars (part_of (columns_of lines.now).op (columns_of lines.now).arg (columns_of lines.now).con i b x (view_of (columns_of lines.now).arg slots.old)) by.budget b x (view_of (columns_of lines.now).arg slots.old) room.old result.state (view_of (columns_of lines.now).arg slots.new) result.last room.new }
{
    let o = op_at(lines, i);
    let v = arg_at(lines, i);
    let mut words = [0i32; VARIABLES];
    let told = told_of(by.shape, b, v, but_of(o, v), units, &mut words);
    let y = told.value;
    if !told.all {
        return Leaves { state: x, last: y };
    }
    let j = x.top - 1;
    let f = frame_at(slots, lines, j);
    let first = Tally {
        left: f.left,
        steps: x.steps,
        rows: x.rows,
        words: x.words,
    };
    let part = Part {
        at: f.at,
        op: o,
        var: v,
        value: y,
        plus: con_at(lines, i),
    };
    let mut t = first;
    let mut last = y;
    if o == SUM {
        t = take_sums(
            first, part, by.budget, by.shape, &words, units, places, room,
        );
    } else {
        let r = take_all(first, part, by.budget, by.shape, words, units, places, room);
        t = r.tally;
        last = r.last;
    }
    put_left(slots, lines, j, t.left);
    x.steps = t.steps;
    x.rows = t.rows;
    x.words = t.words;
    Leaves {
        state: x,
        last: last,
    }
}
