// The matchers of parts, and the parts that wait.
#![tactic(auto)]

pub mod tags;

ghost use Rattle.std.specs.Prelude.{◌≡◌, cond, ◌+◌, ◌-◌, ◌<◌, ◌≤◌, length, get_or, eqb, replicate};
ghost use Rattle.matchers.specs.Places.{matcher_end};
ghost use Rattle.program_rules.specs.Lines.{behind_by, first_under, second_under};
ghost use Rattle.program_rules.specs.Stack.{stack, popped};
ghost use Rattle.program_parts.specs.Parts.{stack_of, pushed, Ended};

use matchers::matcher_end;
use tables::instruction::{JOIN, NOT, OR, PAIR, QUADRUPLE};

// What waits in place of a part: the second side of an or, the end of an or, and the end of the search inside a not.
pub const OTHER_SIDE: u8 = 3;

pub const END_OF_OR: u8 = 4;

pub const END_OF_NOT: u8 = 5;

// A matcher's words, of which a byte tells the index.
#[derive(Clone, Copy)]
pub struct Matcher<'a> {
    pub words: &'a [i32],
    ghost brief: { length words.now ≤ 64 },
}

// A pattern's words.
#[derive(Clone, Copy)]
pub struct Pattern<'a> {
    pub words: &'a [i32],
    ghost short: { length words.now ≤ 256 },
}

// Where the matcher ends whose tag is at an index.
#[tactic(auto, using(crate::proofs::Laws::end_rules))]
pub fn end_of(m: Matcher, i: u8) -> u8
    ensures { result ≡ matcher_end m.entry.words.now i }
{
    let e = matcher_end(m.words, usize::from(i));
    e as u8
}

// The matcher of a first part.
#[tactic(auto, using(crate::proofs::Laws::under_rules))]
pub fn first_under(o: u16, i: u8) -> u8
    requires { (o ≡ 10 → ⊥) → o ≤ 13 → i + 2 < 256 }
    ensures { result ≡ first_under o i }
{
    if QUADRUPLE < o {
        return i;
    }
    if o == JOIN {
        return i;
    }
    if o == PAIR {
        return i + 2;
    }
    i + 1
}

// The matcher of a second part.
#[tactic(auto, using(crate::proofs::Laws::under_rules))]
pub fn second_under(m: Matcher, o: u16, i: u8) -> u8
    requires { ((o ≡ 10 → ⊥) → o ≤ 13 → i + 2 < 256) }
    ensures { result ≡ second_under m.entry.words.now o i }
{
    if o == PAIR {
        return end_of(m, i + 2);
    }
    i
}

// The slot of the value for the atom after a not, f being that of what waits.
#[tactic(auto, using(crate::proofs::Laws::by_rules))]
pub fn from_by(o: u16, f: u16) -> u16
    ensures { result ≡ cond (eqb o 16) f 0 }
{
    if o == NOT { f } else { 0 }
}

// The slot of what waits after a tag with parts.
#[tactic(auto, using(crate::proofs::Laws::by_rules))]
pub fn slot_by(o: u16, pc: usize, f: u16) -> u16
    requires { pc < 1000 }
    ensures { result ≡ cond (eqb o 15) f pc }
{
    if o == OR { f } else { pc as u16 }
}

// The number of what waits after a tag with parts, e places being reserved.
pub fn behind_by(o: u16, e: u8) -> u8
    ensures { result ≡ behind_by o e }
{
    match o {
        OR => OTHER_SIDE,
        NOT => END_OF_NOT,
        _ => e,
    }
}

// As many parts can wait as a pattern has words; the entry 0 is no part's.
const PARTS: usize = 257;

// A part that waits: the slot where its value will be, the index of its matcher, and how many parts of the same tuple wait behind it. In place of that
// number stands what is no part, as `waits` has it.
#[derive(Clone, Copy)]
pub struct Part {
    pub slot: u16,
    pub under: u8,
    pub behind: u8,
}

// The parts that wait, up to a depth.
#[derive(Drop)]
pub struct Parts {
    waiting: [Part; PARTS],
    depth: usize,
}

impl Parts {
    pub fn none() -> Parts
        ensures { stack_of result ≡ stack (replicate 257 0) (replicate 257 0) (replicate 257 0) 0 }
    {
        let no_part = Part {
            slot: 0,
            under: 0,
            behind: 0,
        };
        Parts {
            waiting: [no_part; PARTS],
            depth: 0,
        }
    }

    // Whether no part waits.
    pub fn is_empty(&self) -> bool
        ensures { result ≡ eqb self.now.depth 0 }
    {
        self.depth == 0
    }

    // The part on top.
    pub fn top(&self) -> Part
        requires { self.now.depth < 257 }
        ensures slot { result.slot ≡ get_or (stack_of self.now).slots self.now.depth 0 }
        ensures under { result.under ≡ get_or (stack_of self.now).under self.now.depth 0 }
        ensures behind { result.behind ≡ get_or (stack_of self.now).behind self.now.depth 0 }
    {
        self.waiting[self.depth]
    }

    #[tactic(auto, using(crate::proofs::Laws::pop_rules))]
    pub fn push(&mut self, part: Part)
        requires { self.old.depth + 1 < 257 }
        ensures { stack_of self.new ≡ pushed part (stack_of self.old) }
    {
        let d = self.depth + 1;
        self.waiting[d] = part;
        self.depth = d;
    }

    // What waits on top, taken away where it is the end of an or or of what is inside a not.
    #[tactic(auto, using(crate::proofs::Laws::pop_rules))]
    pub fn take_end(&mut self) -> Option<Part>
        requires shallow { self.old.depth < 257 }
        requires floor { get_or (stack_of self.old).behind 0 0 ≡ 0 }
        ensures { Ended (stack_of self.old) result (stack_of self.new) }
    {
        let top = self.waiting[self.depth];
        if top.behind <= OTHER_SIDE {
            return None;
        }
        self.depth -= 1;
        Some(top)
    }

    // The part on top waits no longer: the one behind it does, or what lies below.
    #[tactic(auto, using(crate::proofs::Laws::pop_rules))]
    pub fn pop(&mut self, m: Matcher)
        requires some { 0 < self.old.depth }
        requires shallow { self.old.depth < 257 }
        requires low { get_or (stack_of self.old).slots self.old.depth 0 < 1000 }
        ensures { stack_of self.new ≡ popped m.entry.words.now (stack_of self.old) }
    {
        let d = self.depth;
        let part = self.waiting[d];
        match part.behind {
            0 => self.depth = d - 1,
            OTHER_SIDE => self.waiting[d].behind = END_OF_OR,
            more => {
                self.waiting[d] = Part {
                    slot: part.slot + 1,
                    under: end_of(m, part.under),
                    behind: more - 1,
                };
            }
        }
    }
}
