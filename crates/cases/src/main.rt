// Plays the case files that its arguments name through the trial program's text: one line of counts, and every case that differs.
#![tactic(auto)]

mod file;
mod lines;
mod trial;

use file::Tally;
use std::env::{Env, FillError};
use std::fs::Files;

// The bytes of a file's name, at most.
const NAME_BYTES: usize = 64;

// Each argument behind the program's own name is a file.
fn play_named(rt: &(impl Env + Files + Print + Eprint)) -> Tally {
    let mut tally = Tally {
        cases: 0,
        differ: 0,
    };
    let mut name = [0u8; NAME_BYTES];
    for i in 1..usize::MAX {
        let n = match rt.arg(i, &mut name) {
            Ok(n) => n,
            Err(FillError::TooLong) => 0,
            Err(FillError::NotPresent) => break,
        };
        tally = trial::play(rt, &name[..n], tally);
    }
    tally
}

fn main(rt: HostRuntime) {
    let all = play_named(&rt);
    let _ = println!(rt; "{} cases, {} differ", all.cases, all.differ);
}
