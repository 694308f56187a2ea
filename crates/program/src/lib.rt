// The program of a rule, compiled once: a line for each state that a run can take up there, and the end, in the table of lines; the modules Lines, Slots
// and Link of `program_rules` say what they are. 256 words make at most 641 lines.
#![tactic(auto)]

mod lay;
mod link;
mod number;

ghost use Rattle.std.specs.Prelude.{◌≡◌, ◌<◌, ◌≤◌, length};
ghost use Rattle.tables.specs.Line.{columns_of};
ghost use Rattle.program_rules.specs.Lines.{lines_of, laid};
ghost use Rattle.program_rules.specs.Slots.{numbered};
ghost use Rattle.program_rules.specs.Link.{ops_in, bindings_in, linked_in};

use lay::lay;
use link::link;
use number::number;
use program_parts::{Matcher, Pattern};
use tables::line::Lines;

// The rule's program: how many variables it has, its lines from the first entry on, and for each the place where the next state stands.
#[tactic(auto, using(crate::proofs::Both::both_rules))]
pub fn compile(m: Matcher, p: Pattern, lines: &mut Lines) -> usize
    ensures value { result ≡ bindings_in (ops_in (columns_of lines.new).op 0 (length (lines_of m.entry.words.now p.entry.words.now))) }
    ensures lines { columns_of lines.new ≡ linked_in (length (lines_of m.entry.words.now p.entry.words.now)) (numbered (length (lines_of m.entry.words.now p.entry.words.now)) (laid 0 (lines_of m.entry.words.now p.entry.words.now) (columns_of lines.old))) }
{
    let last = lay(m, p, lines);
    number(last, lines);
    link(last, lines)
}
