// Whether numbers are those of a held value, and of an open choice.
ghost use Rattle.std.specs.Prelude.{◌≡◌, ◌^◌, ◌<◌, length};
ghost use Rattle.value_places.specs.Places.{marks_at};
ghost use Rattle.value_places.specs.Held.{Held};
ghost use Rattle.value_rows.specs.Row.{Bound};
ghost use Rattle.search_choice.specs.Choices.{Frame};
ghost use Rattle.run_sound.specs.Tested.{Decides};

use tables::instruction::{AND, JOIN, LIST_CONS, NOT};
use value_rows::Bindings;
use words::marks::one;
use words::{ENTRIES, tag_at};

// Whether n elements have these marks.
#[tactic(auto, using(crate::proofs::Tests::mark_rules))]
fn within(n: u32, m: u64) -> bool
    ensures { Decides result (m < 2 ^ n) }
{
    if n < 64 {
        return m < one(n);
    }
    true
}

// How many elements may be marked, if a tag stands here.
#[tactic(auto, using(crate::proofs::Tests::mark_rules))]
fn marks_in(s: &[i32], at: usize) -> u32
    requires { at < length s.now }
    ensures { result ≡ marks_at s.now at }
{
    if tag_at(s, at) == 1 {
        return tag_at(s, at + 1);
    }
    0
}

#[tactic(auto, using(crate::proofs::Tests::held_rules))]
pub fn is_held(s: &[i32], at: usize, m: u64) -> bool
    ensures { Decides result (Held s.now at m) }
{
    if at < s.len() {
        if at % 2 == 0 {
            let n = marks_in(s, at);
            return within(n, m);
        }
    }
    false
}

// Whether each variable is bound to a held value.
#[tactic(auto, using(crate::proofs::Tests::bound_rules))]
pub fn are_bound(s: &[i32], b: Bindings) -> bool
    ensures { Decides result (Bound s.now b 16) }
{
    for x in &b {
        if !is_held(s, x.at, x.marks) {
            return false;
        }
    }
    true
}

// Whether a line with this instruction, at j, is one whose next choice can be taken from this value and what is left of it.
#[tactic(auto, using(crate::proofs::Tests::frame_rules))]
pub fn is_frame(o: u16, s: &[i32], j: usize, at: usize, m: u64, c: u64) -> bool
    ensures { Decides result (Frame o s.now j at m c) }
{
    if ENTRIES <= j {
        return false;
    }
    if o < LIST_CONS {
        return false;
    }
    if NOT < o {
        return false;
    }
    if JOIN < o {
        return AND < o;
    }
    if !is_held(s, at, m) {
        return false;
    }
    if o == JOIN {
        return c <= m;
    }
    if c == 0 {
        return false;
    }
    is_held(s, at, c)
}
