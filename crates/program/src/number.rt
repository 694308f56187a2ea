// The numbers of the slots: each line that divides has one, and each line that is reserved after a tuple's. Those below 16 are the variables'.
#![tactic(auto, using(crate::proofs::Numbering::numbering_rules, crate::proofs::Numbering::width_rules))]

ghost use Rattle.std.specs.Prelude.{◌≡◌, suc, ◌<◌, ◌≤◌};
ghost use Rattle.words.specs.Words.{entries};
ghost use Rattle.tables.specs.Line.{columns_of};
ghost use Rattle.program_rules.specs.Slots.{width, numbered};

use tables::instruction::{AND, JOIN, LIST_CONS, NOT, PAIR};
use tables::line::{Lines, op_at, put_arg};

// The first number that is no variable's.
const FIRST: u16 = 16;

// So many lines from this one on have a slot, `left` being those that an earlier tuple's line leaves.
fn width(o: u16, left: u16) -> u16
    ensures { result ≡ width o left }
{
    if o < LIST_CONS {
        return left;
    }
    if NOT < o {
        return left;
    }
    if o < PAIR {
        return 1;
    }
    if o < AND {
        return o - JOIN;
    }
    1
}

// For each line up to the last that has a slot its number.
pub fn number(last: usize, lines: &mut Lines)
    requires { last < entries }
    ensures { columns_of lines.new ≡ numbered (suc last) (columns_of lines.old) }
{
    let mut next = FIRST;
    let mut left: u16 = 0;
    for pc in 0..last + 1 {
        left = width(op_at(lines, pc), left);
        if 0 < left {
            put_arg(lines, pc, next);
            next += 1;
            left -= 1;
        }
    }
}
