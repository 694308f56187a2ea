// The first pass: a line for each state that a run can take up there, the places of ors and nots at which none is, and the end.
ghost use Rattle.std.specs.Prelude.{◌≡◌, suc, ◌<◌, ◌≤◌, length};
ghost use Rattle.words.specs.Words.{entries};
ghost use Rattle.tables.specs.Line.{columns_of};
ghost use Rattle.program_rules.specs.Lines.{lines_of, laid};
ghost use Rattle.program_parts.specs.Parts.{stack_of};
ghost use Rattle.program.specs.Pass.{Waits, outcome_of};

use program_lay::ends::{close, other};
use program_lay::{divide, leaf, put};
use program_parts::tags::{op_of, operands, reserved};
use program_parts::{
    Matcher, Part, Parts, Pattern, behind_by, first_under, from_by, second_under, slot_by,
};
use tables::instruction::{END, NIL};
use tables::line::Lines;
use words::tag_at;

// How far the pass is: the index of the next word, the place of the next line, and the matcher of the next pattern.
#[derive(Drop)]
pub struct Cursor {
    pub at: usize,
    pub pc: usize,
    pub i: u8,
}

// The lines of the next tag, and of the ends that wait no longer after it. Where nothing waits then, the words that are left are passed over.
fn lay_next(c: Cursor, m: Matcher, p: Pattern, parts: &mut Parts, lines: &mut Lines) -> Cursor
    requires inside { c.at < length p.words.now }
    requires within { Waits (stack_of parts.old) c }
    requires low { (outcome_of m.words.now p.words.now (stack_of parts.old) c (columns_of lines.old)).lines < entries }
    ensures further { c.at < result.at }
    ensures within { Waits (stack_of parts.new) result }
    ensures same { outcome_of m.entry.words.now p.entry.words.now (stack_of parts.new) result (columns_of lines.new) ≡ outcome_of m.entry.words.now p.entry.words.now (stack_of parts.old) c (columns_of lines.old) }
{
    let k = tag_at(m.words, usize::from(c.i));
    let o = op_of(tag_at(p.words, c.at), k);
    let f = parts.top().slot;
    let at = c.at + 1;
    let next = at + operands(o);
    if NIL < o {
        let e = reserved(p.words, at, o);
        let j = first_under(o, c.i);
        let part = Part {
            slot: slot_by(o, c.pc, f),
            under: second_under(m, o, c.i),
            behind: behind_by(o, e),
        };
        parts.push(part);
        return Cursor {
            at: next,
            pc: divide(o, e, from_by(o, f), c.i, c.pc, lines),
            i: j,
        };
    }
    let q = leaf(p.words, at, k, o, c.i, f, c.pc, lines);
    let end = close(parts, q, lines);
    if parts.is_empty() {
        return Cursor {
            at: p.words.len(),
            pc: end,
            i: 0,
        };
    }
    let top = parts.top();
    let pc = other(top.behind, end, lines);
    parts.pop(m);
    Cursor {
        at: next,
        pc: pc,
        i: top.under,
    }
}

// The rule's lines from the first entry on: the place of the last. Each step is as long as the words say, so it is along no range.
pub fn lay(m: Matcher, p: Pattern, lines: &mut Lines) -> usize
    ensures last { suc result ≡ length (lines_of m.entry.words.now p.entry.words.now) }
    ensures lines { columns_of lines.new ≡ laid 0 (lines_of m.entry.words.now p.entry.words.now) (columns_of lines.old) }
{
    let mut parts = Parts::none();
    let mut c = Cursor { at: 0, pc: 0, i: 0 };
    while c.at < p.words.len() {
        c = lay_next(c, m, p, &mut parts, lines);
    }
    put(c.pc, END, 0, 0, 0, 0, lines);
    c.pc
}
