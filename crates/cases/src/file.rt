// Case files read, and cases counted.
ghost use Rattle.std.specs.Prelude.{◌≤◌, length};

use std::fs::Files;
use std::io::{Cursor, Error, ErrorKind, Write};
use std::{fs, str};
use streams::read_full;

// What a tally counts to, at most.
const MOST: u64 = 1000000;

// More bytes than the system says why in.
const REASON: usize = 128;

#[derive(Clone, Copy)]
pub struct Tally {
    pub cases: u64,
    pub differ: u64,
}

impl Tally {
    // One case more; `good` if it does not differ.
    pub(crate) fn seen(self, good: bool) -> Self {
        if MOST < self.cases.max(self.differ) {
            return self;
        }
        Tally {
            cases: self.cases + 1,
            differ: self.differ + u64::from(!good),
        }
    }
}

// Reads a file whole, as far as it fits.
pub(crate) fn load(rt: &(impl Files + Eprint), path: &[u8], into: &mut [u8]) -> usize
    ensures { result ≤ length into.new }
{
    let Ok(name) = str::from_utf8(path) else {
        fail(rt, "a file", Error::from(ErrorKind::InvalidFilename));
        return 0;
    };
    match fs::open(rt, name) {
        Ok(mut file) => read_full(&mut file, into),
        Err(e) => {
            fail(rt, name, e);
            0
        }
    }
}

// Says on standard error why a file cannot be opened, in the C library's words, without the number that stands behind them.
fn fail(rt: &impl Eprint, name: &str, e: Error) {
    let mut to = Cursor::new([0u8; REASON]);
    let _ = write!(to, "{e}");
    let n = (to.position() as usize).min(REASON);
    let text = to.into_inner();
    let words = str::from_utf8(&text[..n]).unwrap_or("");
    let reason = words
        .split_once(" (os error ")
        .map_or(words, |(reason, _)| reason);
    let _ = eprintln!(rt; "{name}: {reason}");
}
