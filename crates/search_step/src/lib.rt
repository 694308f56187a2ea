// Document 01, section 4: the search state, a struct of numbers by value, whose step hands the next state back. What waits stands in the lent slots.
#![tactic(auto)]

pub mod sides;

ghost use Rattle.std.specs.Prelude.{◌≡◌, ◌-◌, ◌<◌, get_or};
ghost use Rattle.words.specs.Words.{entries};
ghost use Rattle.tables.specs.Line.{columns_of};
ghost use Rattle.tables.specs.Slot.{view_of, Slotted, Alone};
ghost use Rattle.value_places.specs.Places.{Target};
ghost use Rattle.value_places.specs.Tables.{Placed};
ghost use Rattle.value_places.specs.Held.{Held};
ghost use Rattle.search_step.specs.Steps.{turned, dropped, pushed, pushed_in, split_of, head_of, apart_of, divide_of, step_of, Steps, Divides, Aparts};

use search_atom::tuples::{is_wide, keep, later};
use search_atom::{nothing, opens, passes};
use tables::instruction::{AND, JOIN, LIST_CONS, NIL, SAME};
use tables::line::{Lines, from_at, op_at, to_at};
use tables::place::Places;
use tables::slot::{Frame, Slots, held_at, put_back, put_frame};
use value_places::places::{Units, element, whole};
use words::marks::{lowest, one, rest};

// How a run goes on, `live`: no state is left; the state at pc stands; the next state is the next choice of the last open frame; a row did not fit.
pub const ENDED: u64 = 0;

pub const STANDS: u64 = 1;

pub const CHOOSES: u64 = 2;

pub const FULL: u64 = 3;

// C lends these bytes in its run, whatever they are, so `live` is a number and no enum.
// `at` and `marks` are the value of the first atom, `top` the last open frame (0: none, j + 1: at j), `words` how many words are written.
#[repr(C)]
#[derive(Clone, Copy)]
pub struct State {
    pub pc: usize,
    pub at: usize,
    pub marks: u64,
    pub top: usize,
    pub live: u64,
    pub rows: u64,
    pub steps: u64,
    pub words: usize,
}

impl State {
    // The atom is dropped: the next one in prefix order, whose value waits in a slot.
    #[tactic(auto, using(crate::proofs::Laws::drop_rules), unfolding(crate::specs::Steps::moved))]
    fn drop(mut self, lines: &Lines, slots: &Slots) -> State
        requires line { self.pc < entries }
        requires slotted_from { Slotted (columns_of lines.now).arg slots.now (get_or (columns_of lines.now).from self.pc 0) }
        ensures { result ≡ dropped (columns_of lines.now).from (columns_of lines.now).to (view_of (columns_of lines.now).arg slots.now).ats (view_of (columns_of lines.now).arg slots.now).backs self }
    {
        let pc = self.pc;
        let f = from_at(lines, pc);
        let h = held_at(slots, lines, f);
        self.pc = to_at(lines, pc);
        self.at = h.at;
        self.marks = h.marks;
        self.live = STANDS;
        self
    }

    // A frame is opened at pc.
    #[tactic(auto, using(crate::proofs::Laws::push_rules), unfolding(crate::specs::Steps::pushed))]
    fn push(mut self, choices: u64, lines: &Lines, slots: &mut Slots) -> State
        requires slotted { Slotted (columns_of lines.now).arg slots.old self.pc }
        requires alone { Alone (columns_of lines.now).arg self.pc }
        ensures value { result ≡ pushed self }
        ensures slots { (view_of (columns_of lines.now).arg slots.new) ≡ pushed_in choices self (view_of (columns_of lines.now).arg slots.old) }
    {
        let pc = self.pc;
        let top = self.top;
        let f = Frame {
            at: self.at,
            whole: self.marks,
            left: choices,
        };
        put_frame(slots, lines, pc, f, top);
        self.top = pc + 1;
        self.live = CHOOSES;
        self
    }

    // A cons or a join: the frame is opened, unless there is no choice.
    #[tactic(auto, using(crate::proofs::Laws::split_rules), unfolding(crate::specs::Steps::lived, crate::specs::Steps::split_of))]
    fn split(mut self, o: u16, lines: &Lines, slots: &mut Slots) -> State
        requires slotted { Slotted (columns_of lines.now).arg slots.old self.pc }
        requires alone { Alone (columns_of lines.now).arg self.pc }
        ensures { turned result (view_of (columns_of lines.now).arg slots.new) ≡ split_of o self (view_of (columns_of lines.now).arg slots.old) }
    {
        let m = self.marks;
        let no = nothing(o, m);
        if no {
            self.live = CHOOSES;
            return self;
        }
        let c = opens(o, m);
        self.push(c, lines, slots)
    }

    // A list's cons: its one choice is taken at once, and the frame is left as one that is no longer open.
    #[tactic(auto, using(crate::proofs::Laws::head_rules), unfolding(crate::specs::Steps::lived, crate::specs::Steps::moved))]
    fn head(mut self, units: Units, places: &Places, lines: &Lines, slots: &mut Slots) -> State
        requires placed { Placed units.words.now places.now }
        requires held { Held units.words.now self.at self.marks }
        requires slotted { Slotted (columns_of lines.now).arg slots.old self.pc }
        requires alone { Alone (columns_of lines.now).arg self.pc }
        ensures { turned result (view_of (columns_of lines.now).arg slots.new) ≡ head_of units.entry.words.now self (view_of (columns_of lines.now).arg slots.old) }
    {
        let m = self.marks;
        if m == 0 {
            self.live = CHOOSES;
            return self;
        }
        let pc = self.pc;
        let at = self.at;
        let k = lowest(m);
        let f = Frame {
            at: at,
            whole: m,
            left: one(k),
        };
        put_frame(slots, lines, pc, f, self.top);
        put_back(slots, lines, pc, rest(m));
        let e = element(units, places, at, k);
        self.pc = pc + 1;
        self.at = e;
        self.marks = whole(units, e);
        self.live = STANDS;
        self
    }

    // A tuple: the first part is next, the others wait.
    #[tactic(auto, using(crate::proofs::Laws::apart_rules), unfolding(crate::specs::Steps::lived, crate::specs::Steps::moved))]
    fn apart(
        mut self,
        o: u16,
        units: Units,
        places: &Places,
        lines: &Lines,
        slots: &mut Slots,
    ) -> State
        requires placed { Placed units.words.now places.now }
        requires aparts { Aparts units.words.now o (columns_of lines.now).arg slots.old self }
        ensures { turned result (view_of (columns_of lines.now).arg slots.new) ≡ apart_of units.entry.words.now (o - 10) self (view_of (columns_of lines.now).arg slots.old) }
    {
        let n = later(o);
        let at = self.at;
        let fits = is_wide(units, at, n);
        if fits {
            let from = self.pc;
            keep(units, places, at, from, n, lines, slots);
            let first = element(units, places, at, 0);
            self.pc = from + n;
            self.at = first;
            self.marks = whole(units, first);
            self.live = STANDS;
            return self;
        }
        self.live = CHOOSES;
        self
    }

    // A cons, a join, a tuple; and, or, not.
    #[tactic(auto, using(crate::proofs::Laws::divide_rules))]
    fn divide(
        self,
        o: u16,
        units: Units,
        places: &Places,
        lines: &Lines,
        slots: &mut Slots,
    ) -> State
        requires placed { Placed units.words.now places.now }
        requires divides { Divides units.words.now o (columns_of lines.now).from (columns_of lines.now).arg slots.old self }
        ensures { turned result (view_of (columns_of lines.now).arg slots.new) ≡ divide_of units.entry.words.now o (columns_of lines.now).from self (view_of (columns_of lines.now).arg slots.old) }
    {
        if JOIN < o {
            if o < AND {
                return self.apart(o, units, places, lines, slots);
            }
            return self.sides(o, lines, slots);
        }
        if o == LIST_CONS {
            return self.head(units, places, lines, slots);
        }
        self.split(o, lines, slots)
    }

    // Takes up a state that has an atom left. same: what the tag 3 of its first atom asks is equal.
    #[tactic(auto, using(crate::proofs::Laws::step_rules), unfolding(crate::specs::Steps::counted, crate::specs::Steps::lived, crate::specs::Steps::moved))]
    pub fn step(
        mut self,
        same: bool,
        units: Units,
        places: &Places,
        lines: &Lines,
        slots: &mut Slots,
    ) -> State
        requires placed { Placed units.words.now places.now }
        requires steps { Steps units.words.now (columns_of lines.now).op (columns_of lines.now).from (columns_of lines.now).arg (columns_of lines.now).con slots.old self }
        ensures { turned result (view_of (columns_of lines.now).arg slots.new) ≡ step_of (columns_of lines.now).op (columns_of lines.now).from (columns_of lines.now).to (columns_of lines.now).con units.entry.words.now same self (view_of (columns_of lines.now).arg slots.old) }
    {
        let pc = self.pc;
        let o = op_at(lines, pc);
        self.steps = self.steps + 1;
        if o == SAME {
            self.pc = pc + 1;
            self.live = STANDS;
            return self;
        }
        if NIL < o {
            return self.divide(o, units, places, lines, slots);
        }
        let at = self.at;
        let m = self.marks;
        let ok = passes(o, same, units.words, at, m, lines, pc);
        if ok {
            return self.drop(lines, slots);
        }
        self.live = CHOOSES;
        self
    }
}
