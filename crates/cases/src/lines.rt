// Lines of a case file, by the index where each starts.
ghost use Rattle.std.specs.Prelude.{◌<◌, ◌≤◌, length};

// Where the next line starts, or the end.
pub(crate) fn next_line(text: &[u8], from: usize) -> usize
    requires { from ≤ length text.now }
    ensures upper_bound { result ≤ length text.now }
    ensures no_less { from ≤ result }
    ensures lower_bound { from < length text.now → from < result }
{
    match text[from..].split_inclusive(|byte| *byte == b'\n').next() {
        Some(line) => from + line.len(),
        None => from,
    }
}

// Where the next line starts that is the wanted one, newline included; or the end.
pub(crate) fn seek(text: &[u8], from: usize, wanted: &[u8]) -> usize
    requires { from ≤ length text.now }
    ensures upper_bound { result ≤ length text.now }
    ensures no_less { from ≤ result }
{
    let mut at = from;
    for line in text[from..].split_inclusive(|byte| *byte == b'\n') {
        if line == wanted {
            return at;
        }
        at += line.len();
    }
    at
}
