// The ends that wait, of ors and of the searches inside nots, and the line before the second side of an or.
#![tactic(auto, using(crate::proofs::Laws::ends_rules, crate::proofs::Closing::closing_rules))]

ghost use Rattle.std.specs.Prelude.{◌≡◌, suc, ◌+◌, ◌<◌, ◌≤◌, length, get_or};
ghost use Rattle.words.specs.Words.{entries};
ghost use Rattle.tables.specs.Line.{columns_of, written};
ghost use Rattle.program_rules.specs.Lines.{laid, close_line, else_lines};
ghost use Rattle.program_rules.specs.Stack.{stack, close_lines};
ghost use Rattle.program_parts.specs.Parts.{stack_of};

use super::put;
use program_parts::{END_OF_OR, OTHER_SIDE, Parts};
use tables::instruction::{NOT_END, OR_END, OR_OTHER};
use tables::line::Lines;

// The line of an end, with its number and its slot.
pub fn close_line(n: u8, c: u16, pc: usize, lines: &mut Lines)
    requires { pc < entries }
    ensures { columns_of lines.new ≡ written pc (close_line n c) (columns_of lines.old) }
{
    if n == END_OF_OR {
        put(pc, OR_END, 0, 0, 0, 0, lines);
    } else {
        put(pc, NOT_END, c, 0, 0, 0, lines);
    }
}

// The lines of the ends on top, which wait no longer: the place after them.
pub fn close(parts: &mut Parts, pc: usize, lines: &mut Lines) -> usize
    requires shallow { parts.old.depth < 257 }
    requires floor { get_or (stack_of parts.old).behind 0 0 ≡ 0 }
    requires room { pc + length (close_lines (stack_of parts.old).slots (stack_of parts.old).behind parts.old.depth) < entries }
    ensures place { result ≡ pc + length (close_lines (stack_of parts.old).slots (stack_of parts.old).behind parts.old.depth) }
    ensures depth { parts.new.depth + length (close_lines (stack_of parts.old).slots (stack_of parts.old).behind parts.old.depth) ≡ parts.old.depth }
    ensures same { stack_of parts.new ≡ stack (stack_of parts.old).under (stack_of parts.old).slots (stack_of parts.old).behind parts.new.depth }
    ensures laid { columns_of lines.new ≡ laid pc (close_lines (stack_of parts.old).slots (stack_of parts.old).behind parts.old.depth) (columns_of lines.old) }
{
    let mut q = pc;
    while let Some(end) = parts.take_end() {
        close_line(end.behind, end.slot, q, lines);
        q += 1;
    }
    q
}

// The line before the second side of an or, where that is what waits: the place after it.
#[tactic(auto, using(crate::proofs::Laws::ends_rules))]
pub fn other(n: u8, pc: usize, lines: &mut Lines) -> usize
    requires { pc < entries }
    ensures value { result ≡ pc + length (else_lines n) }
    ensures lines { columns_of lines.new ≡ laid pc (else_lines n) (columns_of lines.old) }
{
    if n == OTHER_SIDE {
        put(pc, OR_OTHER, 0, 0, 0, 0, lines);
        return pc + 1;
    }
    pc
}
