// Cases of the trial program: its input, a line `=`, what it must print, a line `--`. A line `=!` says that the newline before it is no part of the input.
ghost use Rattle.std.specs.Iterator.{at_most};
ghost use Rattle.std.specs.Prelude.{◌-◌, ◌≤◌, length};

use crate::file::{Tally, load};
use crate::lines::{next_line, seek};
use std::fs::Files;
use text::TEXT_BYTES;
use text_print::rows::Rest;

// The bytes of a case file, at most.
const FILE_BYTES: usize = 65536;

// Writes empty lines behind a text, as far as there is room; gives their end.
fn pad(out: &mut [u8], rest: Rest) -> usize
    requires { rest.at ≤ length out.old }
    ensures { result ≤ length out.new }
{
    let room = out.len() - rest.at;
    let end = rest.at + usize::try_from(rest.lines).map_or(room, |lines| lines.min(room));
    out[rest.at..end].fill(b'\n');
    end
}

// What the library prints for an input: how many bytes.
fn printed(input: &[u8], out: &mut [u8]) -> usize
    ensures { result ≤ length out.new }
{
    match text::answer(input, out) {
        Some(rest) => pad(out, rest),
        None => 0,
    }
}

// What is asked, and what must be printed.
#[derive(Clone, Copy)]
struct Case<'a> {
    input: &'a [u8],
    wanted: &'a [u8],
}

impl Case<'_> {
    // Whether the library prints what it must; if not, the case is told.
    fn is_met(self, rt: &impl Print, path: &[u8]) -> bool {
        let mut out = [0u8; TEXT_BYTES];
        let n = printed(self.input, &mut out);
        let got = &out[..n];
        let good = self.wanted == got;
        if !good {
            self.tell(rt, path, got);
        }
        good
    }

    // Tells what was asked, what must be printed, what was printed.
    fn tell(self, rt: &impl Print, path: &[u8], got: &[u8]) {
        let _ = rt.write_all(path);
        let _ = rt.write_all(b": a case differs\n");
        let _ = rt.write_all(self.input);
        let _ = rt.write_all(b"= wanted\n");
        let _ = rt.write_all(self.wanted);
        let _ = rt.write_all(b"= printed\n");
        let _ = rt.write_all(got);
        let _ = rt.write_all(b"--\n");
    }
}

// The cases that a text has from an index on.
#[derive(Drop)]
struct Cases<'a> {
    text: &'a [u8],
    at: usize,
}

impl<'a> Iterator for Cases<'a> {
    // No case where `=!` has no newline of the case's before it.
    type Item = Option<Case<'a>>;

    ghost remaining = { λ s. at_most (length s.text.now - s.at) };

    fn next(&mut self) -> Option<Option<Case<'a>>> {
        let text = self.text;
        let at = self.at;
        if text.len() <= at {
            return None;
        }
        let whole = seek(text, at, b"=\n");
        let cut = seek(text, at, b"=!\n");
        let end = if cut < whole {
            cut.saturating_sub(1)
        } else {
            whole
        };
        let from = next_line(text, whole.min(cut));
        let to = seek(text, from, b"--\n");
        self.at = next_line(text, to);
        let wanted = &text[from..to];
        Some(text.get(at..end).map(|input| Case { input, wanted }))
    }
}

pub(crate) fn play(rt: &(impl Files + Print + Eprint), path: &[u8], tally: Tally) -> Tally {
    let mut file = [0; FILE_BYTES];
    let n = load(rt, path, &mut file);
    let mut tally = tally;
    let cases = Cases {
        text: &file[..n],
        at: 0,
    };
    for case in cases {
        tally = tally.seen(case.is_some_and(|case| case.is_met(rt, path)));
    }
    tally
}
