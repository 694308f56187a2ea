// The trial program's input, read.
#![tactic(auto)]

mod asked;
mod line;
pub mod question;

// The bytes of an input, at most.
pub const INPUT_BYTES: usize = 32768;

// The words of a line, at most.
pub const LINE_WORDS: usize = 2000;

// The words of the room, at most.
pub const ROOM_WORDS: usize = 4096;
