// What the trial program prints, written into a lent slice of bytes. Empty lines at the end are counted and not written.
ghost use Rattle.std.specs.Prelude.{◌≡◌, ◌++◌, ◌≤◌, length};
ghost use Rattle.text_print.specs.Rows.{cut_rows, empty_rows, lines};
ghost use Rattle.text_print.specs.Meaning.{unreadable, six_line, Text};

use crate::print::put_line;
use crate::rows::{Rest, put_rows};

const UNREADABLE: &[u8] = b"unreadable\n";

// The numbers of an answer, in the order of its line. Numbers, since `six_line` in the contract of `put_report` takes them as such.
#[derive(Clone, Copy)]
pub struct Numbers {
    pub answer: u64,
    pub place: u64,
    pub rows: u64,
    pub steps: u64,
    pub words: u64,
    pub cause: u64,
}

// The one line `unreadable`.
pub fn put_unreadable(out: &mut [u8]) -> Rest
    requires { 98304 ≤ length out.old }
    ensures text { Text out.old out.new result unreadable }
    ensures lines_value { result.lines ≡ 0 }
{
    let at = UNREADABLE.len();
    out[..at].copy_from_slice(UNREADABLE);
    Rest { at, lines: 0 }
}

// The six numbers, and the rows that `ws` holds.
// The bounds of both slices stay clauses: no plainer as types, which would be built for the one call in `text` and taken apart in the next.
pub fn put_report(out: &mut [u8], numbers: Numbers, ws: &[i32], values: u32) -> Rest
    requires in_bounds { 98304 ≤ length out.old }
    requires ws_len_bound { length ws.now ≤ 4096 }
    ensures text { Text out.old out.new result (six_line numbers.answer numbers.place numbers.rows numbers.steps numbers.words numbers.cause ++ lines (cut_rows values numbers.rows ws.now)) }
    ensures lines_value { result.lines ≡ empty_rows values numbers.rows ws.now }
{
    let Numbers {
        answer,
        place,
        rows,
        steps,
        words,
        cause,
    } = numbers;
    let at = put_line(&[answer, place, rows, steps, words, cause], out, 0);
    put_rows(ws, values, rows, out, at)
}
