// Decimal numbers, read from bytes.
#![tactic(auto)]

ghost use Rattle.std.specs.Prelude.{◌≡◌, ◌<◌, ◌^◌, IfSome};
ghost use Rattle.text_number.specs.Decimal.{◌then◌, natural as Decimal·natural, number as Decimal·number};
ghost use Rattle.text_number.specs.Word.{word as Word·word, at_most};

// The digits of a number, at most.
const DIGITS: usize = 10;

// The number that 1 to 10 digits write.
fn natural(text: &[u8]) -> Option<u64>
    ensures value { result ≡ Decimal·natural text.now }
    ensures below { IfSome result (λ n. n < 10 ^ 10) }
{
    if text.is_empty() || DIGITS < text.len() {
        return None;
    }
    let mut number = 0;
    for byte in text {
        match byte {
            b'0'..=b'9' => number = number * 10 + u64::from(*byte - b'0'),
            _ => return None,
        }
    }
    Some(number)
}

// The number that an optional minus and 1 to 10 digits write.
fn number(text: &[u8]) -> Option<i64>
    ensures { result ≡ Decimal·number text.now }
{
    match text {
        [b'-', digits @ ..] => Some(-(natural(digits)? as i64)),
        _ => Some(natural(text)? as i64),
    }
}

// The word that a piece of a line writes.
pub fn word(text: &[u8]) -> Option<i32>
    ensures { result ≡ Word·word text.now }
{
    i32::try_from(number(text)?).ok()
}

// The number from 0 to `most` that a piece of a line writes.
pub fn up_to(text: &[u8], most: u64) -> Option<u64>
    ensures { result ≡ (Decimal·number text.now then at_most most) }
{
    match u64::try_from(number(text)?) {
        Ok(n) if n <= most => Some(n),
        _ => None,
    }
}
