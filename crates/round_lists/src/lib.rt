// A list of states that follow from one state, kept in the lent table and taken out again: document 02, No. 10. The game lends the table, so that it reaches so
// far is a clause on the list's place in it.
#![tactic(auto)]

pub mod keeping;
pub mod taking;

ghost use Rattle.std.specs.Prelude.{◌≤◌};

// How many slots a rule's lines use, those of the variables among them.
#[derive(Clone, Copy)]
pub struct Used {
    pub slots: usize,
    ghost bindings: { 16 ≤ slots },
    ghost most: { slots ≤ 272 },
}

// The first number of a slot that is no variable's.
const FIRST: usize = 16;

// Where the bindings and the slots start among the entries of a list.
pub const HEAD: usize = 3;
