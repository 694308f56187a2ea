// Document 02, No. 5: whether everybody passes a rule, told by the lines of its program.
ghost use Rattle.std.specs.Prelude.{◌≡◌};
ghost use Rattle.words.specs.Words.{entries};
ghost use Rattle.tables.specs.Line.{columns_of};
ghost use Rattle.review_count.specs.Scan.{line_fails, none_from};

use tables::instruction::{CONSTANT, END, MULTISET_CONS, NOT};
use tables::line::{Lines, op_at};
use words::ENTRIES;

// Whether a line is that of a tag that can fail: a constant, a value, nil, cons, not.
#[tactic(auto, unfolding(crate::specs::Scan::line_fails))]
fn line_fails(o: u16) -> bool
    ensures { result ≡ line_fails o }
{
    matches!(o, CONSTANT..=MULTISET_CONS | NOT)
}

// Whether a rule is always true: a scan over the tags of its pattern, line by line up to the end. It gives its verdict by `break`, a form that the customers ask
// for by name, and a `for` can give none so.
#[tactic(auto, using(crate::proofs::always::Scanned::own_rules))]
pub fn always_true(lines: &Lines) -> bool
    ensures { result ≡ none_from (columns_of lines.now).op 0 entries }
{
    let mut pc: usize = 0;
    let verdict = loop {
        if ENTRIES <= pc {
            break true;
        }
        let o = op_at(lines, pc);
        if o == END {
            break true;
        }
        if line_fails(o) {
            break false;
        }
        pc += 1;
    };
    verdict
}
