// And, or, not: a value that waits for both, a frame for the second side or for what follows the not, and the end of the search inside a not.
ghost use Rattle.std.specs.Prelude.{◌≡◌, ◌<◌, get_or};
ghost use Rattle.words.specs.Words.{entries};
ghost use Rattle.tables.specs.Line.{columns_of};
ghost use Rattle.tables.specs.Slot.{view_of, Slotted, Alone};
ghost use Rattle.search_step.specs.Steps.{turned, kept_at, kept_in, framed_at, framed_in, cut_to, sides_of, Sides};

use super::{CHOOSES, STANDS, State};
use tables::instruction::{AND, NOT_END};
use tables::line::{Lines, from_at};
use tables::slot::{Held, Slots, low_at, put_held, put_side};

impl State {
    // And: the value waits for the second part; the first is next, on the same value.
    #[tactic(auto, using(crate::proofs::Laws::both_rules), unfolding(crate::specs::Steps::kept_at, crate::specs::Steps::moved))]
    fn both(mut self, lines: &Lines, slots: &mut Slots) -> State
        requires slotted { Slotted (columns_of lines.now).arg slots.old self.pc }
        requires alone { Alone (columns_of lines.now).arg self.pc }
        ensures value { result ≡ kept_at self }
        ensures slots { (view_of (columns_of lines.now).arg slots.new) ≡ kept_in self (view_of (columns_of lines.now).arg slots.old) }
    {
        let pc = self.pc;
        let h = Held {
            at: self.at,
            marks: self.marks,
        };
        put_held(slots, lines, pc, h);
        self.pc = pc + 1;
        self.live = STANDS;
        self
    }

    // Or, not: a frame is opened at pc, with the value; what is inside is next, on the same value.
    #[tactic(auto, using(crate::proofs::Laws::both_rules), unfolding(crate::specs::Steps::framed_at))]
    fn frame(mut self, lines: &Lines, slots: &mut Slots) -> State
        requires slotted { Slotted (columns_of lines.now).arg slots.old self.pc }
        requires alone { Alone (columns_of lines.now).arg self.pc }
        ensures value { result ≡ framed_at self }
        ensures slots { (view_of (columns_of lines.now).arg slots.new) ≡ framed_in self (view_of (columns_of lines.now).arg slots.old) }
    {
        let pc = self.pc;
        let top = self.top;
        let h = Held {
            at: self.at,
            marks: self.marks,
        };
        put_side(slots, lines, pc, h, top);
        self.pc = pc + 1;
        self.top = pc + 1;
        self.live = STANDS;
        self
    }

    // The search inside the not at j has a row: its frame and those above it are no longer open, and no state stands.
    #[tactic(auto, using(crate::proofs::Laws::cut_rules), unfolding(crate::specs::Steps::lived, crate::specs::Steps::topped))]
    fn cut(mut self, lines: &Lines, slots: &Slots) -> State
        requires line { self.pc < entries }
        requires slotted_from { Slotted (columns_of lines.now).arg slots.now (get_or (columns_of lines.now).from self.pc 0) }
        ensures { result ≡ cut_to (columns_of lines.now).from (view_of (columns_of lines.now).arg slots.now).lows self }
    {
        let pc = self.pc;
        let j = from_at(lines, pc);
        self.top = low_at(slots, lines, j);
        self.live = CHOOSES;
        self
    }

    // And, or, not, and the end of the search inside a not.
    #[tactic(auto, using(crate::proofs::Laws::sides_rules), unfolding(crate::specs::Steps::lived))]
    pub fn sides(mut self, o: u16, lines: &Lines, slots: &mut Slots) -> State
        requires { Sides o (columns_of lines.now).from (columns_of lines.now).arg slots.old self }
        ensures { turned result (view_of (columns_of lines.now).arg slots.new) ≡ sides_of o (columns_of lines.now).from self (view_of (columns_of lines.now).arg slots.old) }
    {
        if o == AND {
            return self.both(lines, slots);
        }
        if o < NOT_END {
            return self.frame(lines, slots);
        }
        if o == NOT_END {
            return self.cut(lines, slots);
        }
        self.live = CHOOSES;
        self
    }
}
