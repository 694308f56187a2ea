// What a program reads, into a slice that it lends, and what it prints on.
#![tactic(auto)]

ghost use Rattle.std.specs.Prelude.{◌≤◌, length, take, IsOk};
ghost use Rattle.std.specs.Io.KnownBytes.{Consumes};

use std::env::Env;
use std::fmt::Display;
use std::io::{Read, Result};

// Reads until the slice is full, the input ends or a read fails, and tells how many bytes it put at the start.
pub fn read_full<R: Read>(from: &mut R, into: &mut [u8]) -> usize
    ensures in_bounds { result ≤ length into.new }
    ensures bytes { Consumes (R.remaining from.old) (R.remaining from.new) (take result into.new) }
{
    let mut done = 0;
    // Each step is as long as what one read gave, and std's `read_exact` tells no count where the input ends first.
    while done < into.len() {
        match from.read(&mut into[done..]) {
            Ok(0) | Err(_) => break,
            Ok(n) => done += n,
        }
    }
    done
}

// Puts an argument of the program at the start of the slice, and tells its length: 0 where it is missing or longer than the slice.
pub fn arg(rt: &impl Env, i: usize, into: &mut [u8]) -> usize
    ensures { result ≤ length into.new }
{
    rt.arg(i, into).unwrap_or(0)
}

// An output that goes on where a write fails: that piece is let go, and the next one is tried.
#[derive(Clone, Copy)]
pub struct Onward<'a, P: Print> {
    pub to: &'a P,
}

impl<P: Print> Print for Onward<'_, P> {
    fn print<D: Display + Drop>(&self, value: D) -> Result<()>
        ensures { IsOk result }
    {
        let _ = self.to.print(value);
        Ok(())
    }

    fn println<D: Display + Drop>(&self, value: D) -> Result<()>
        ensures { IsOk result }
    {
        let _ = self.to.println(value);
        Ok(())
    }

    fn write_all(&self, bytes: &[u8]) -> Result<()>
        ensures { IsOk result }
    {
        let _ = self.to.write_all(bytes);
        Ok(())
    }
}
