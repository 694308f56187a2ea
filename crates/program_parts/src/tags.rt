// What a pattern's tag becomes: its instruction, its operands and the places reserved after its line.
ghost use Rattle.std.specs.Prelude.{◌≡◌, ◌+◌, ◌%◌, ◌<◌, ◌≤◌, length, get_or, drop, pos};
ghost use Rattle.program_rules.specs.Lines.{op_of, operands_of, beyond_two, reserved_by, arg_of, con_of};

use tables::instruction::{
    AND, BIND, CONSTANT, DROP, END, EQUAL, JOIN, LIST_CONS, MULTISET_CONS, NIL, NOT, OR, PAIR, SUM,
};
use words::{matcher, pattern, tag_at};

// The instruction of a pattern's tag under a matcher's.
pub fn op_of(t: u32, k: u32) -> u16
    ensures { result ≡ op_of t k }
{
    match t {
        pattern::WILDCARD => DROP,
        pattern::VARIABLE => BIND,
        pattern::CONSTANT => CONSTANT,
        pattern::VALUE => { if k == matcher::INTEGER { SUM } else { EQUAL } }
        pattern::NIL => NIL,
        pattern::CONS => match k {
            matcher::LIST => LIST_CONS,
            matcher::MULTISET => MULTISET_CONS,
            _ => END,
        },
        pattern::JOIN => JOIN,
        pattern::TUPLE => { if k == matcher::TUPLE { PAIR } else { END } }
        pattern::AND => AND,
        pattern::OR => OR,
        pattern::NOT => NOT,
        _ => END,
    }
}

// How many operands follow its tag.
pub fn operands(o: u16) -> usize
    ensures { result ≡ operands_of o }
{
    if o == PAIR {
        return 1;
    }
    match o {
        END..=DROP => 0,
        BIND..=CONSTANT => 1,
        SUM..=EQUAL => 2,
        _ => 0,
    }
}

// How many parts a tuple of k has beyond two.
pub fn beyond_two(k: u32) -> u8
    ensures { result ≡ beyond_two k }
{
    match k {
        3 => 1,
        4 => 2,
        _ => 0,
    }
}

// How many places are reserved after the line of a tag with parts, whose operand is at an index.
#[tactic(auto, using(crate::proofs::Laws::reserved_rules))]
pub fn reserved(p: &[i32], at: usize, o: u16) -> u8
    ensures { result ≡ reserved_by o (drop at p.now) }
{
    if o == PAIR {
        let k = tag_at(p, at);
        return beyond_two(k);
    }
    0
}

// The word at an index, and 0 past the end.
#[tactic(auto, using(crate::proofs::Laws::operand_rules))]
pub fn word_at(p: &[i32], at: usize) -> i32
    ensures { result ≡ get_or p.now at (pos 0) }
{
    if at < p.len() { p[at] } else { 0 }
}

// The variable that the first of n operands names.
#[tactic(auto, using(crate::proofs::Laws::operand_rules))]
pub fn arg_of(p: &[i32], at: usize, n: usize) -> u16
    ensures { result ≡ arg_of n (drop at p.now) }
{
    if n == 0 {
        return 0;
    }
    let t = tag_at(p, at);
    (t % 16) as u16
}

// The last of n operands: the constant, or the number that is added.
#[tactic(auto, using(crate::proofs::Laws::operand_rules))]
pub fn con_of(p: &[i32], at: usize, n: usize) -> i32
    requires { at + n ≤ length p.now + 2 }
    ensures { result ≡ con_of n (drop at p.now) }
{
    if n == 0 {
        return 0;
    }
    word_at(p, at + (n - 1))
}
