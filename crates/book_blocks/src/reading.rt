// The rule of a live block.
ghost use Rattle.std.specs.Prelude.{◌≡◌, true, ◌≤◌, length};
ghost use Rattle.book_rules.specs.Blocks.{live_formed, entry_of};
ghost use Rattle.book_words.specs.Halves.{words_of};
ghost use Rattle.book_blocks.specs.Heads.{ReadAs};

use crate::form::{dialect_in, length_in};
use crate::{FOURTH_AT, LENGTH_AT, RULE_AT, VERSION_AT};
use book_words::{Block, read_words, word_at};

// What a block says of its rule: the last two are lengths.
#[derive(Drop)]
pub struct Head {
    pub version: u16,
    pub dialect: u32,
    pub matcher: usize,
    pub pattern: usize,
}

// The rule of a live block, its words to the start of a lent slice.
pub fn read_block(block: &Block, out: &mut [i32]) -> Head
    requires room { 124 ≤ length out.old }
    requires live { live_formed (words_of block.now) ≡ true }
    ensures { ReadAs (entry_of (words_of block.now)) result.version result.dialect result.matcher result.pattern out.old out.new }
{
    let version = word_at(block, VERSION_AT);
    let fourth = word_at(block, FOURTH_AT);
    let n = usize::from(word_at(block, LENGTH_AT));
    let m = length_in(version, fourth);
    read_words(block, RULE_AT, n, out);
    Head {
        version,
        dialect: dialect_in(version, fourth),
        matcher: m,
        pattern: n - m,
    }
}
