// A line of text, put together before it is written at once.
use book_blocks::writing::Entry;
use std::io::{Cursor, Write};

// More than the longest line has: 124 words of at most 11 bytes, each behind a space, and what stands before them.
const LINE: usize = 4096;

fn blank() -> Cursor<[u8; LINE]> {
    Cursor::new([0; LINE])
}

fn send(rt: &impl Print, line: Cursor<[u8; LINE]>) {
    let n = (line.position() as usize).min(LINE);
    let text = line.into_inner();
    let _ = rt.write_all(&text[..n]);
}

fn put_words(line: &mut Cursor<[u8; LINE]>, words: &[i32]) {
    for word in words {
        let _ = write!(line, " {word}");
    }
}

// A rule as `add` takes it.
pub(crate) fn print_rule(rt: &impl Print, rule: Entry) {
    let mut line = blank();
    let _ = write!(line, "{} {} {} /", rule.version, rule.badge, rule.dialect);
    put_words(&mut line, rule.matcher);
    let _ = write!(line, " /");
    put_words(&mut line, rule.pattern);
    let _ = writeln!(line);
    send(rt, line);
}

// The first line: what became of what was asked.
pub(crate) fn tell(rt: &impl Print, word: &str, a: u64, b: u64) {
    let mut line = blank();
    let _ = writeln!(line, "{word} {a} {b}");
    send(rt, line);
}
