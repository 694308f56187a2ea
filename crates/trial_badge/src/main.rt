// Reads the rule in Egison's notation on standard input: its words, what it costs at worst and, where it has units, whether they earn the badge, by
// which values and which units. What cannot be read is shown with a mark under it.
#![tactic(auto)]

ghost use Rattle.std.specs.Iterator.{at_most};

use notation_print::Pen;
use notation_read::{Cause, Refusal, read_rule};
use notation_scan::{BINDS, END, part, scan};
use notation_write::{TARGET, write};
use services::matching::{Matched, match_units, match_units_with};
use services::refusal::ALWAYS_TRUE;
use services::review::review;
use std::io;
use streams::{Onward, read_full};
use tests::{MISFIT, TARGET as TARGET_REFUSED, UNFIT};
use words::dialect::EVERY_PLACE;
use words::tag_at;
use words::target::COLLECTION;

// The answers that refuse nothing and are told in words of their own; the refusals of a rule are those from 1 to MISFIT.
const DONE: u32 = 0;

const FULL: u32 = 8;

// The row form that tells which units a variable took, in three words: the place of its value or, where that is 0, the marks of its units.
const ORIGINS: u32 = 2;

const ORIGIN_WORDS: usize = 3;

const MARKS: u32 = 64;

// The characters of a value that are shown at most, and the words of the rows.
const PAGE: usize = 8192;

const ROOM: usize = 8192;

// A target's levels, and one for what stands inside the last.
const LEVELS: u32 = 9;

const BUDGET: u32 = 1000000;

// The words that the library takes.
const WORDS: usize = 2048;

// One byte more than is read, so that longer input is seen.
const INPUT: usize = 16385;

// The largest collections that the worst case is told for.
const CAPS: [i32; 4] = [8, 16, 32, 64];

// A rule that was read, with its text.
#[derive(Clone, Copy)]
struct Rule<'a> {
    text: &'a [u8],
    matcher: &'a [i32],
    pattern: &'a [i32],
    units: &'a [i32],
}

// ---- A refusal.
fn reason(refusal: Refusal) -> &'static str {
    let Refusal::Unreadable { cause, .. } = refusal else {
        return "too long: a rule's text has at most 16384 characters";
    };
    match cause {
        Cause::UnknownSign => "unknown sign: the notation has no such character or word",
        Cause::Misplaced => "misplaced: this cannot stand here",
        Cause::CutShort => "cut short: the rule ends too early",
        Cause::BracketOpen => "bracket open: the rule ends before a bracket is closed",
        Cause::UnknownName => "unknown name: no $ binds it",
        Cause::BoundTwice => "bound twice: the name has its $ already",
        Cause::UsedBefore => "used before it is bound: its $ stands further on",
        Cause::OutOfRange => "number out of range: -2147483648 to 2147483647",
        Cause::OverLimit => {
            "over a limit: a tuple has at most four parts, a rule at most sixteen variables"
        }
    }
}

fn say_unreadable(rt: &impl Print, text: &[u8], refusal: Refusal) -> io::Result<()> {
    if let Refusal::Unreadable { line, column, .. } = refusal {
        let mut lines = text.split(|c| *c == b'\n');
        rt.write_all(lines.nth(line.saturating_sub(1)).unwrap_or(b""))?;
        println!(rt; "\n{:>column$}", "^")?;
        print!(rt; "line {line}, column {column}: ")?;
    }
    println!(rt; "{}", reason(refusal))
}

// ---- Words and review.
fn say_words(rt: &impl Print, name: &str, words: &[i32]) -> io::Result<()> {
    print!(rt; "{name}")?;
    for word in words {
        print!(rt; " {word}")?;
    }
    println!(rt; "")
}

fn say_cap(rt: &impl Print, rule: Rule<'_>, cap: i32) -> io::Result<()> {
    let reviewed = review(rule.matcher, rule.pattern, cap);
    match reviewed.answer {
        DONE => println!(rt; "cap {cap}: at most {} steps", reviewed.count),
        ALWAYS_TRUE => {
            println!(rt; "cap {cap}: the rule is always true, every player has this badge")
        }
        _ => println!(rt; "cap {cap}: more than 4294967295 steps"),
    }
}

// ---- Rows by name.
// The value at an index of the rows, and the index behind it.
fn say_value(rt: &impl Print, rows: &[i32], at: usize) -> io::Result<usize> {
    let mut page = [0; PAGE];
    let mut pen = Pen::new(&mut page);
    let end = write(rows, at, TARGET, LEVELS, &mut pen);
    let length = pen.at.min(PAGE);
    rt.write_all(&page[..length])?;
    Ok(end)
}

// The units whose bits are set, each by its number from 1.
fn say_marks(rt: &impl Print, marks: u64) -> io::Result<()> {
    for k in 0..MARKS {
        if marks >> k & 1 == 1 {
            print!(rt; " {}", k + 1)?;
        }
    }
    Ok(())
}

// The unit that a place lies in.
fn say_unit_at(rt: &impl Print, units: &[i32], place: usize) -> io::Result<()> {
    let count = units.get(1).map_or(0, |n| n.cast_unsigned());
    let mut end = 2;
    for unit in 1..=count {
        end = write(units, end, TARGET, LEVELS, &mut Pen::new(&mut [0]));
        if place < end {
            return print!(rt; " {unit}");
        }
    }
    Ok(())
}

// The units that a variable took, where the units are a collection.
fn say_taken(rt: &impl Print, units: &[i32], origin: &[i32]) -> io::Result<()> {
    if tag_at(units, 0) != COLLECTION {
        return Ok(());
    }
    print!(rt; " (unit")?;
    match origin {
        [0, low, high] => say_marks(
            rt,
            u64::from(low.cast_unsigned()) | u64::from(high.cast_unsigned()) << 32,
        )?,
        [place, ..] => say_unit_at(rt, units, place.cast_unsigned() as usize)?,
        [] => {}
    }
    print!(rt; ")")
}

// The names that a text binds, in their order: from an index on, in so many tokens at most. A text has no more tokens than characters.
#[derive(Clone, Copy)]
struct Names<'a> {
    text: &'a [u8],
    at: usize,
    left: usize,
}

impl<'a> Iterator for Names<'a> {
    type Item = &'a [u8];

    ghost remaining = { λ s. at_most s.left };

    fn next(&mut self) -> Option<&'a [u8]> {
        for left in (0..self.left).rev() {
            let token = scan(self.text, self.at);
            self.at = token.to;
            match token.kind {
                END => return None,
                BINDS => {
                    self.left = left;
                    return Some(part(self.text, token.name, token.to));
                }
                _ => {}
            }
        }
        None
    }
}

// What the rows are told by: the names of the variables and their number, the units, and the words of the rows.
#[derive(Clone, Copy)]
struct Rows<'a> {
    names: Names<'a>,
    variables: usize,
    units: &'a [i32],
    words: &'a [i32],
}

// A row from an index of the rows on: each variable's name, its value and its units. What is given back is the index behind the row.
fn say_row(rt: &impl Print, rows: Rows<'_>, at: usize, origins: &[i32]) -> io::Result<usize> {
    if rows.variables == 0 {
        print!(rt; "(no variable)")?;
    }
    let mut end = at;
    // By their number, so that the text behind the last name is not scanned to its end for each row.
    for (i, name) in rows.names.take(rows.variables).enumerate() {
        if 0 < i {
            print!(rt; ", ")?;
        }
        rt.write_all(name)?;
        print!(rt; " = ")?;
        end = say_value(rt, rows.words, end)?;
        let origin = origins.chunks_exact(ORIGIN_WORDS).nth(i).unwrap_or(&[]);
        say_taken(rt, rows.units, origin)?;
    }
    println!(rt; "")?;
    Ok(end)
}

// With FULL a row was found, whether it fits or not.
fn say_found(rt: &impl Print, found: &Matched) -> io::Result<()> {
    let earned = match found.answer {
        _ if 0 < found.rows => "earned",
        DONE => "not earned",
        FULL => "earned by a row that is too long to be shown",
        _ => "not known",
    };
    print!(rt; "{earned}: {} rows in {} steps", found.rows, found.steps)?;
    if found.answer == DONE {
        return println!(rt; "");
    }
    println!(rt; ", and there is more")
}

// So many rows, one behind the other; the units that their variables took stand in `origins` likewise.
fn say_rows(rt: &impl Print, rows: Rows<'_>, count: u64, origins: &[i32]) -> io::Result<()> {
    let width = rows.variables.saturating_mul(ORIGIN_WORDS);
    let mut at = 0;
    let mut taken = origins;
    for _ in 0..count {
        at = say_row(rt, rows, at, taken)?;
        taken = taken.get(width..).unwrap_or(&[]);
    }
    Ok(())
}

// Plays the units.
fn play(rt: &impl Print, rule: Rule<'_>) -> io::Result<()> {
    let Rule {
        text,
        matcher,
        pattern,
        units,
    } = rule;
    let mut words = [0; ROOM];
    let found = match_units(matcher, pattern, units, BUDGET, &mut words);
    if let TARGET_REFUSED | UNFIT = found.answer {
        return println!(rt;
            "the units are refused, answer {}, place {}",
            found.answer, found.place
        );
    }
    let mut origins = [0; ROOM];
    let traced = match_units_with(
        ORIGINS,
        EVERY_PLACE,
        matcher,
        pattern,
        units,
        BUDGET,
        &mut origins,
    );
    say_found(rt, &found)?;
    let names = Names {
        text,
        at: 0,
        left: text.len(),
    };
    let rows = Rows {
        names,
        variables: names.count(),
        units,
        words: &words,
    };
    say_rows(rt, rows, found.rows.min(traced.rows), &origins)
}

fn tell(rt: &impl Print, rule: Rule<'_>) -> io::Result<()> {
    say_words(rt, "matcher", rule.matcher)?;
    say_words(rt, "pattern", rule.pattern)?;
    if !rule.units.is_empty() {
        say_words(rt, "units", rule.units)?;
    }
    let reviewed = review(rule.matcher, rule.pattern, 0);
    if let 1..=MISFIT = reviewed.answer {
        return println!(rt;
            "refused, answer {}, place {}",
            reviewed.answer, reviewed.place
        );
    }
    for cap in CAPS {
        say_cap(rt, rule, cap)?;
    }
    if rule.units.is_empty() {
        return Ok(());
    }
    play(rt, rule)
}

fn answer(rt: &impl Print, text: &[u8]) -> io::Result<()> {
    let mut words = [0; WORDS];
    let parts = match read_rule(text, &mut words) {
        Ok(parts) => parts,
        Err(refusal) => return say_unreadable(rt, text, refusal),
    };
    if WORDS < parts.end {
        return println!(rt;
            "refused: the rule and its units have more words than the library takes"
        );
    }
    let rule = Rule {
        text,
        units: words.get(..parts.matcher).unwrap_or(&[]),
        matcher: words.get(parts.matcher..parts.pattern).unwrap_or(&[]),
        pattern: words.get(parts.pattern..parts.end).unwrap_or(&[]),
    };
    tell(rt, rule)
}

// What can't be written is let go, and what comes after it is tried.
fn main(rt: HostRuntime) {
    let mut input = [0u8; INPUT];
    let n = read_full(&mut rt.stdin(), &mut input);
    let _ = answer(&Onward { to: &rt }, &input[..n]);
}
