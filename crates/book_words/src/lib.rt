// Document 02, No. 7: 16-bit words in lent bytes, low byte first: read, summed up and written. The check is that of a whole block.
#![tactic(auto)]

ghost use Rattle.std.specs.Prelude.{◌≡◌, ◌∷◌, [], ◌+◌, ◌*◌, ◌/◌, ◌%◌, ◌<◌, ◌≤◌, length, replicate};
ghost use Rattle.std.proofs.lemmas.List.Edits.{sets};
ghost use Rattle.book_rules.specs.Sums.{due, checked};
ghost use Rattle.book_rules.specs.Blocks.{zeros, split, joined};
ghost use Rattle.book_rules.specs.Bytes.{word_at, words_from, bytes_of};
ghost use Rattle.book_words.specs.Halves.{Placed, halves, words_of};

// A block's bytes.
pub const BLOCK: usize = 512;

pub type Block = [u8; BLOCK];

// The bytes of a word, and of a signed word, which is two halves.
pub const WORD_BYTES: usize = 2;

pub const SIGNED_BYTES: usize = 2 * WORD_BYTES;

// The words of a block that the check sums up, and the bytes that they take.
const SUMMED: usize = 254;

const SUMMED_BYTES: usize = SUMMED * WORD_BYTES;

// The check is a remainder by this prime.
const MODULUS: u32 = 65537;

// The word at a byte's index.
pub fn word_at(s: &[u8], at: usize) -> u16
    requires { at + 2 ≤ length s.now }
    ensures { result ≡ word_at s.now at }
{
    u16::from_le_bytes([s[at], s[at + 1]])
}

// A word times its place, which is counted from 1.
fn placed(i: usize, w: u16) -> u32
    requires { i < 254 }
    ensures { Placed i w result }
{
    (i as u32 + 1) * u32::from(w)
}

// What the check of a block must be.
pub fn due(block: &Block) -> u32
    ensures { result ≡ due (words_of block.now) }
{
    let mut sum: u32 = 0;
    for i in 0..SUMMED {
        sum += placed(i, word_at(block, WORD_BYTES * i));
    }
    sum % MODULUS
}

// Two words as one number, low half first.
fn both_halves(s: &[u8], at: usize) -> u32
    requires { at + 4 ≤ length s.now }
    ensures { result ≡ halves s.now at }
{
    u32::from_le_bytes([s[at], s[at + 1], s[at + 2], s[at + 3]])
}

// Whether the check of a block holds.
pub fn is_checked(block: &Block) -> bool
    ensures { result ≡ checked (words_of block.now) }
{
    due(block) == both_halves(block, SUMMED_BYTES)
}

// Whether n words are zero.
pub fn are_zero(s: &[u8], at: usize, n: usize) -> bool
    requires { at + 2 * n ≤ length s.now }
    ensures { result ≡ zeros n (words_from s.now at n) }
{
    (0..n).all(|i| word_at(s, at + WORD_BYTES * i) == 0)
}

// n signed words, two halves each, to the start of a lent slice.
pub fn read_words(s: &[u8], at: usize, n: usize, out: &mut [i32])
    requires words_in_bounds { at + 4 * n ≤ length s.now }
    requires room { n ≤ length out.old }
    ensures { out.new ≡ sets out.old 0 (joined n (words_from s.now at (2 * n))) }
{
    for i in 0..n {
        out[i] = both_halves(s, at + SIGNED_BYTES * i).cast_signed();
    }
}

// A word written at a byte's index.
pub fn put_word(s: &mut [u8], at: usize, w: u16)
    requires { at + 2 ≤ length s.old }
    ensures { s.new ≡ sets s.old at (bytes_of (w ∷ [])) }
{
    s[at..at + WORD_BYTES].copy_from_slice(&w.to_le_bytes());
}

// n words zero.
pub fn put_zeros(s: &mut [u8], at: usize, n: usize)
    requires { at + 2 * n ≤ length s.old }
    ensures { s.new ≡ sets s.old at (bytes_of (replicate n 0)) }
{
    s[at..at + WORD_BYTES * n].fill(0);
}

// A number as two words, low half first.
fn put_halves(s: &mut [u8], at: usize, x: u32)
    requires { at + 4 ≤ length s.old }
    ensures { s.new ≡ sets s.old at (bytes_of (x % 65536 ∷ x / 65536 ∷ [])) }
{
    s[at..at + SIGNED_BYTES].copy_from_slice(&x.to_le_bytes());
}

// Signed words, two halves each.
pub fn put_words(s: &mut [u8], at: usize, words: &[i32])
    requires { at + 4 * length words.now ≤ length s.old }
    ensures { s.new ≡ sets s.old at (bytes_of (split words.now)) }
{
    for (i, word) in words.iter().enumerate() {
        put_halves(s, at + SIGNED_BYTES * i, word.cast_unsigned());
    }
}

// The check of a block, behind its other words.
pub fn seal(block: &mut Block)
    ensures { block.new ≡ sets block.old 508 (bytes_of (due (words_of block.old) % 65536 ∷ due (words_of block.old) / 65536 ∷ [])) }
{
    let c = due(block);
    put_halves(block, SUMMED_BYTES, c);
}
