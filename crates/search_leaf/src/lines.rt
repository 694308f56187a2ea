// The lines of a leaf.
ghost use Rattle.std.specs.Prelude.{◌≡◌, true, ◌<◌, get_or};
ghost use Rattle.words.specs.Words.{entries};
ghost use Rattle.tables.specs.Line.{columns_of};
ghost use Rattle.search_leaf.specs.Lines.{Tested, Last, Leafs, Ends, Looks};

use search_step::{CHOOSES, State};
use tables::instruction::{BIND, DROP, END, MULTISET_CONS, SAME, SUM};
use tables::line::{Lines, op_at, to_at};
use tables::slot::{Slots, frame_at};
use words::marks::rest;

// Whether there are four choices or more: fewer are not worth the words of a row.
fn is_long(m: u64) -> bool
    ensures { result ≡ true → 0 < m }
{
    if m == 0 {
        return false;
    }
    let a = rest(m);
    if a == 0 {
        return false;
    }
    let b = rest(a);
    if b == 0 {
        return false;
    }
    0 < rest(b)
}

// The line at which the first part, which starts at a line, is tested or bound; 0 where it is neither.
#[tactic(auto, using(crate::proofs::Ends::tested_rules))]
fn tested_at(top: usize, lines: &Lines) -> usize
    requires line { top < entries }
    requires ends { Ends (columns_of lines.now).op (columns_of lines.now).to }
    ensures { 0 < result → Tested (columns_of lines.now).op top result }
{
    let o = op_at(lines, top);
    if o == SUM {
        return top;
    }
    if o != SAME {
        return 0;
    }
    let p = op_at(lines, top + 1);
    if p == DROP {
        return top + 1;
    }
    if p == BIND {
        return top + 1;
    }
    0
}

// Whether behind a line only a wildcard is left.
#[tactic(auto, using(crate::proofs::Ends::last_rules))]
fn is_last(i: usize, lines: &Lines) -> bool
    requires line { i < entries }
    requires ends { Ends (columns_of lines.now).op (columns_of lines.now).to }
    ensures { result ≡ true → Last (columns_of lines.now).op (columns_of lines.now).to i }
{
    let a = to_at(lines, i);
    let o = op_at(lines, a);
    if o != SAME {
        return false;
    }
    let p = op_at(lines, a + 1);
    if p != DROP {
        return false;
    }
    let z = to_at(lines, a + 1);
    let q = op_at(lines, z);
    q == END
}

// The line at which the first part of the last open frame is tested or bound, where that is a leaf with four choices or more; else 0.
pub fn leaf_at(x: State, lines: &Lines, slots: &Slots) -> usize
    requires { Looks (columns_of lines.now).op (columns_of lines.now).to (columns_of lines.now).arg slots.now x }
    ensures { 0 < result → Leafs (columns_of lines.now).op (columns_of lines.now).to x result }
{
    let live = x.live;
    if live != CHOOSES {
        return 0;
    }
    let top = x.top;
    if top == 0 {
        return 0;
    }
    let o = op_at(lines, top - 1);
    if o != MULTISET_CONS {
        return 0;
    }
    let f = frame_at(slots, lines, top - 1);
    let many = is_long(f.left);
    if !many {
        return 0;
    }
    let i = tested_at(top, lines);
    if i == 0 {
        return 0;
    }
    let last = is_last(i, lines);
    if last {
        return i;
    }
    0
}
