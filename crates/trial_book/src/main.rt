// The program of `./book`: a rule book in a file. Its argument is the file; standard input has what is asked, in the form of the trial program's input:
//   matcher / pattern / version dialect / badge command
// It prints a line, a word and two numbers, which `./book` puts into words, and for `list` and `show` the rules.
#![tactic(auto)]

mod disc;
mod keep;
mod line;

use book_blocks::writing::Entry;
use disc::{Book, LARGEST};
use keep::{Command, Request};
use line::tell;
use std::env::Env;
use std::fs::{File, Files};
use std::io::Read;
use streams::arg;
use text_ask::LINE_WORDS;
use text_ask::question::read_question;
use words::tag_at;

// Where the third part has its version and its dialect, and the program its file.
const VERSION_AT: usize = 0;

const DIALECT_AT: usize = 1;

const FILE: usize = 1;

// More bytes than a file's path has.
const PATH_BYTES: usize = 4096;

// A function of its own: where the array stands in `serve`, the check of the call of `read` runs out of stack over its four million bytes.
fn blank() -> [u8; LARGEST] {
    [0; LARGEST]
}

// Reads the book, and does what is asked.
fn serve(rt: &impl Print, file: File, asked: Request) {
    let mut bytes = blank();
    match Book::read(file, &mut bytes) {
        Some(mut book) => book.answer(rt, asked),
        None => tell(rt, "unread", 0, 0),
    }
}

// Opens the file, which is changed by an add or a withdrawal alone.
fn open(rt: &(impl Files<File = File> + Print), path: &[u8], asked: Request) {
    match disc::open(rt, path, asked.command.is_change()) {
        Ok(file) => serve(rt, file, asked),
        Err(_) => tell(rt, "unopened", 0, 0),
    }
}

// A number of 16 bits; `./book` asks for no other.
fn half(x: u32) -> u16 {
    u16::try_from(x).unwrap_or(0)
}

// Reads what is asked.
fn respond(rt: &(impl Files<File = File> + Print), path: &[u8], from: &mut impl Read) {
    let mut m = [0; LINE_WORDS];
    let mut p = [0; LINE_WORDS];
    let mut t = [0; LINE_WORDS];
    match read_question(from, &mut m, &mut p, &mut t) {
        None => tell(rt, "unreadable", 0, 0),
        Some(asked) => {
            let entry = Entry {
                version: half(tag_at(&t, VERSION_AT)),
                badge: half(asked.budget),
                dialect: tag_at(&t, DIALECT_AT),
                matcher: &m[..asked.matcher],
                pattern: &p[..asked.pattern],
            };
            let command = Command::from(asked.room);
            open(rt, path, Request { command, entry });
        }
    }
}

fn main(rt: HostRuntime) {
    let mut path = [0u8; PATH_BYTES];
    let n = arg(&rt, FILE, &mut path);
    respond(&rt, &path[..n], &mut rt.stdin());
}
