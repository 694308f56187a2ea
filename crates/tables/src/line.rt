// The lines of a program, in sections: a number of every line, then the next number of every line; at the end the constants, two numbers for each. Each reader
// names its column in its clause, so each is written out. That a place is a line's is asked of the caller and no type says it: a place is counted on.
#![tactic(auto, using(crate::proofs::Lines::read_rules))]

ghost use Rattle.std.specs.Prelude.{◌≡◌, ◌<◌, length, get_or, set, pos};
ghost use Rattle.words.specs.Words.{entries};
ghost use Rattle.tables.specs.Line.{columns_of, written, aimed, named, no_lines, halves};

use words::ENTRIES;

// Where the sections start; the instructions' at 0.
const ARGS: usize = ENTRIES;

const MATS: usize = 2 * ENTRIES;

const FROMS: usize = 3 * ENTRIES;

const TOS: usize = 4 * ENTRIES;

const CONS: usize = 5 * ENTRIES;

const NUMBERS: usize = 7 * ENTRIES;

pub type Lines = [u16; NUMBERS];

// A line: its instruction, the slot of the value for the next atom, the variable that it names, the matcher it stands under, its constant.
#[derive(Drop)]
pub struct Line {
    pub op: u16,
    pub from: u16,
    pub arg: u16,
    pub mat: u16,
    pub con: i32,
}

pub fn no_lines() -> Lines
    ensures { result ≡ no_lines }
{
    [0u16; NUMBERS]
}

// The instruction of a line.
pub fn op_at(lines: &Lines, pc: usize) -> u16
    requires { pc < entries }
    ensures { result ≡ get_or (columns_of lines.now).op pc 0 }
{
    lines[pc]
}

// The variable that a line names.
pub fn arg_at(lines: &Lines, pc: usize) -> usize
    requires { pc < entries }
    ensures { result ≡ get_or (columns_of lines.now).arg pc 0 }
{
    usize::from(lines[ARGS + pc])
}

// The index of the matcher that a line stands under.
pub fn mat_at(lines: &Lines, pc: usize) -> usize
    requires { pc < entries }
    ensures { result ≡ get_or (columns_of lines.now).mat pc 0 }
{
    usize::from(lines[MATS + pc])
}

// The slot of the value for the next atom.
pub fn from_at(lines: &Lines, pc: usize) -> usize
    requires { pc < entries }
    ensures { result ≡ get_or (columns_of lines.now).from pc 0 }
{
    usize::from(lines[FROMS + pc])
}

// Where the next state stands.
pub fn to_at(lines: &Lines, pc: usize) -> usize
    requires { pc < entries }
    ensures { result ≡ get_or (columns_of lines.now).to pc 0 }
{
    usize::from(lines[TOS + pc])
}

// The bits of a constant, from their two halves.
fn joined(low: u16, high: u16) -> u32
    ensures { result ≡ halves low high }
{
    (low as u32) + 65536 * (high as u32)
}

// The constant of a line.
pub fn con_at(lines: &Lines, pc: usize) -> i32
    requires line { pc < entries }
    requires constant { pc < length (columns_of lines.now).con }
    ensures { result ≡ get_or (columns_of lines.now).con pc (pos 0) }
{
    let at = CONS + 2 * pc;
    joined(lines[at], lines[at + 1]).cast_signed()
}

// A line in its place; where the next state stands is left as it is.
pub fn put_line(lines: &mut Lines, pc: usize, l: Line)
    requires { pc < entries }
    ensures { columns_of lines.new ≡ written pc l (columns_of lines.old) }
{
    let b = l.con.cast_unsigned();
    let at = CONS + 2 * pc;
    lines[pc] = l.op;
    lines[ARGS + pc] = l.arg;
    lines[MATS + pc] = l.mat;
    lines[FROMS + pc] = l.from;
    lines[at] = (b % 65536) as u16;
    lines[at + 1] = (b / 65536 % 65536) as u16;
}

// Where the next state stands, for the line at a place.
pub fn put_to(lines: &mut Lines, pc: usize, to: u16)
    requires { pc < entries }
    ensures { columns_of lines.new ≡ aimed (set (columns_of lines.old).to pc to) (columns_of lines.old) }
{
    lines[TOS + pc] = to;
}

// The number of a line's slot.
pub fn put_arg(lines: &mut Lines, pc: usize, arg: u16)
    requires { pc < entries }
    ensures { columns_of lines.new ≡ named (set (columns_of lines.old).arg pc arg) (columns_of lines.old) }
{
    lines[ARGS + pc] = arg;
}
