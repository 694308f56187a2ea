// The rows that match wrote one after the other, cut apart and printed.
ghost use Rattle.std.specs.Prelude.{◌≡◌, ◌+◌, ◌*◌, ◌≤◌, length};
ghost use Rattle.text_print.specs.Rows.{extent, inside as Rows·inside};
ghost use Rattle.text_print.specs.Meaning.{WroteRows};

use crate::print::put_line;
use words::{tag_of, target};

// Where the rows' text ends, and how many empty lines follow it.
#[derive(Clone, Copy)]
pub struct Rest {
    pub at: usize,
    pub lines: u64,
}

// How many values come in a value's own words: none in an integer.
#[tactic(auto, using(crate::proofs::rows::Laws::none_inside, crate::proofs::rows::Laws::so_many))]
fn inside(tag: i32, count: i32) -> u32
    ensures { result ≡ Rows·inside tag count }
{
    if tag_of(tag) == target::INTEGER {
        return 0;
    }
    u32::try_from(count).unwrap_or(0)
}

// How many words the next values have.
fn extent_of(ws: &[i32], values: u32) -> usize
    requires { length ws.now ≤ 4096 }
    ensures value { result ≡ extent values ws.now }
    ensures upper_bound { result ≤ length ws.now }
{
    let mut left = u64::from(values);
    let mut rest = ws;
    // No plainer over `chunks_exact(2)`: what is left would have to be counted beside it, and here it tells the extent.
    while let [tag, count, behind @ ..] = rest {
        if left == 0 {
            break;
        }
        left = left - 1 + u64::from(inside(*tag, *count));
        rest = behind;
    }
    ws.len() - rest.len()
}

// Prints rows until none is left that has words: the others are empty lines.
pub(crate) fn put_rows(ws: &[i32], values: u32, rows: u64, out: &mut [u8], at: usize) -> Rest
    requires ws_len_bound { length ws.now ≤ 4096 }
    requires ws_in_bounds { at + 22 * length ws.now ≤ length out.old }
    ensures { WroteRows out.old out.new at result values rows ws.now }
{
    let mut at = at;
    let mut rest = ws;
    for done in 0..rows {
        let (row, behind) = rest.split_at(extent_of(rest, values));
        if row.is_empty() {
            return Rest {
                at,
                lines: rows - done,
            };
        }
        at = put_line(row, out, at);
        rest = behind;
    }
    Rest { at, lines: 0 }
}
