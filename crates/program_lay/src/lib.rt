// Lines, written in their table.
#![tactic(auto, using(crate::proofs::Laws::put_rules, crate::proofs::Laws::reserve_rules, crate::proofs::Laws::divide_rules, crate::proofs::Laws::leaf_rules))]

pub mod ends;

ghost use Rattle.std.specs.Prelude.{◌≡◌, ◌∷◌, suc, ◌+◌, ◌<◌, ◌≤◌, length, drop, pos};
ghost use Rattle.words.specs.Words.{entries};
ghost use Rattle.tables.specs.Line.{columns_of, written};
ghost use Rattle.program_rules.specs.Lines.{line, reserved_lines, strip_lines, leaf_line, laid};

use program_parts::tags::{arg_of, con_of, operands};
use tables::instruction::{CONSTANT, SAME};
use tables::line::{Line, Lines, put_line};

// One line.
pub fn put(pc: usize, o: u16, f: u16, a: u16, i: u8, c: i32, lines: &mut Lines)
    requires { pc < entries }
    ensures { columns_of lines.new ≡ written pc (line o f a i c) (columns_of lines.old) }
{
    let l = Line {
        op: o,
        from: f,
        arg: a,
        mat: u16::from(i),
        con: c,
    };
    put_line(lines, pc, l);
}

// The same atom under something, where a wildcard or a variable is not there: the place after it.
#[tactic(auto, using(crate::proofs::Laws::leaf_rules))]
pub fn strip(k: u32, o: u16, i: u8, pc: usize, lines: &mut Lines) -> usize
    requires { pc < entries }
    ensures value { result ≡ pc + length (strip_lines k o i) }
    ensures lines { columns_of lines.new ≡ laid pc (strip_lines k o i) (columns_of lines.old) }
{
    if k == 0 {
        return pc;
    }
    if o < CONSTANT {
        put(pc, SAME, 0, 0, i, 0, lines);
        return pc + 1;
    }
    pc
}

// The line of a tag without parts, whose operands are at an index.
#[tactic(auto, using(crate::proofs::Laws::leaf_rules))]
pub fn leaf_line(p: &[i32], at: usize, o: u16, i: u8, f: u16, pc: usize, lines: &mut Lines)
    requires within { at ≤ length p.now }
    requires line { pc < entries }
    ensures { columns_of lines.new ≡ written pc (leaf_line o i f (drop at p.now)) (columns_of lines.old) }
{
    let n = operands(o);
    let a = arg_of(p, at, n);
    let c = con_of(p, at, n);
    put(pc, o, f, a, i, c, lines);
}

// The one or two lines of a tag without parts: the place after them.
#[tactic(auto, using(crate::proofs::Laws::leaf_rules))]
pub fn leaf(
    p: &[i32],
    at: usize,
    k: u32,
    o: u16,
    i: u8,
    f: u16,
    pc: usize,
    lines: &mut Lines,
) -> usize
    requires within { at ≤ length p.now }
    requires next_line { pc + 1 < entries }
    ensures value { result ≡ suc (pc + length (strip_lines k o i)) }
    ensures lines { columns_of lines.new ≡ written (pc + length (strip_lines k o i)) (leaf_line o i f (drop at p.now)) (laid pc (strip_lines k o i) (columns_of lines.old)) }
{
    let q = strip(k, o, i, pc, lines);
    leaf_line(p, at, o, i, f, q, lines);
    q + 1
}

// The lines that are reserved: the place after them.
pub fn reserve(e: u8, pc: usize, lines: &mut Lines) -> usize
    requires { pc + e < entries }
    ensures value { result ≡ pc + e }
    ensures lines { columns_of lines.new ≡ laid pc (reserved_lines e) (columns_of lines.old) }
{
    let end = pc + usize::from(e);
    for q in pc..end {
        put(q, SAME, 0, 0, 0, 0, lines);
    }
    end
}

// The line of a tag with parts, and those reserved after it: the place after them.
#[tactic(auto, using(crate::proofs::Laws::divide_rules))]
pub fn divide(o: u16, e: u8, f: u16, i: u8, pc: usize, lines: &mut Lines) -> usize
    requires lines { suc pc + e < entries }
    requires instruction { o + e < 256 }
    ensures value { result ≡ suc pc + e }
    ensures lines { columns_of lines.new ≡ laid pc (line (o + e) f 0 i (pos 0) ∷ reserved_lines e) (columns_of lines.old) }
{
    put(pc, o + u16::from(e), f, 0, i, 0, lines);
    reserve(e, pc + 1, lines)
}
