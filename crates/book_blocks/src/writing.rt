// A block written whole: a rule, or none.
ghost use Rattle.std.specs.Prelude.{◌≡◌, ◌∷◌, [], ◌++◌, ◌+◌, ◌-◌, ◌*◌, ◌≤◌, length, replicate};
ghost use Rattle.std.proofs.lemmas.List.Edits.{sets};
ghost use Rattle.book_rules.specs.Sums.{word};
ghost use Rattle.book_rules.specs.Blocks.{split, written, emptied};
ghost use Rattle.book_rules.specs.Bytes.{bytes_of};
ghost use Rattle.book_words.specs.Halves.{words_of};
ghost use Rattle.book_blocks.specs.Heads.{rule_of};

use crate::{
    BADGE_AT, DIALECT_BIT, FOURTH_AT, FROM_BADGE, FROM_RULE, LENGTH_AT, NUMBER_AT, RULE_AT,
    VERSION_AT,
};
use book_words::{Block, SIGNED_BYTES, put_word, put_words, put_zeros, seal, word_at};
use words::dialect::EVERY_PLACE;

// What dialect 2 adds to the matcher's length.
const FOR_DIALECT: usize = DIALECT_BIT as usize;

// A rule, and what an add names beside it. Version and dialect stay numbers: C names them, and `lozhbinor_book_add` answers 14 or 15 to those that are not.
#[derive(Clone, Copy)]
pub struct Entry<'a> {
    pub version: u16,
    pub badge: u16,
    pub dialect: u32,
    pub matcher: &'a [i32],
    pub pattern: &'a [i32],
}

// Word 4: the matcher's length, and the top bit for dialect 2.
fn fourth(matcher: usize, dialect: u32) -> u16
    requires at_most_longest { matcher ≤ 124 }
    requires some_dialect { (1 ≤ dialect) × (dialect ≤ 2) }
    ensures { result ≡ matcher + 32768 * (dialect - 1) }
{
    if dialect == EVERY_PLACE {
        matcher as u16
    } else {
        (matcher + FOR_DIALECT) as u16
    }
}

// Words 0 and 1.
#[tactic(auto, using(crate::proofs::writing::Puts::start_out))]
fn put_start(block: &mut Block, number: u16, version: u16)
    ensures { block.new ≡ sets block.old 0 (bytes_of (number ∷ version ∷ [])) }
{
    put_word(block, NUMBER_AT, number);
    put_word(block, VERSION_AT, version);
}

// Words 2 to 4.
#[tactic(auto, using(crate::proofs::writing::Puts::counts_out))]
fn put_counts(block: &mut Block, badge: u16, n: u16, fourth: u16)
    ensures { block.new ≡ sets block.old 4 (bytes_of (badge ∷ n ∷ fourth ∷ [])) }
{
    put_word(block, BADGE_AT, badge);
    put_word(block, LENGTH_AT, n);
    put_word(block, FOURTH_AT, fourth);
}

// Words 5 to 253: the rule, and zeros.
#[tactic(auto, using(crate::proofs::writing::Puts::rule_out))]
fn put_rule(block: &mut Block, matcher: &[i32], pattern: &[i32])
    requires at_most_longest { length matcher.now + length pattern.now ≤ 124 }
    ensures { block.new ≡ sets block.old 10 (bytes_of (split (matcher.now ++ pattern.now) ++ replicate (249 - 2 * (length matcher.now + length pattern.now)) 0)) }
{
    let m = matcher.len();
    let n = m + pattern.len();
    put_words(block, RULE_AT, matcher);
    put_words(block, RULE_AT + SIGNED_BYTES * m, pattern);
    put_zeros(block, RULE_AT + SIGNED_BYTES * n, FROM_RULE - 2 * n);
}

// Words 0 to 4.
#[tactic(auto, using(crate::proofs::writing::Puts::head_out))]
fn put_head(block: &mut Block, number: u16, e: Entry)
    requires at_most_longest { length e.matcher.now + length e.pattern.now ≤ 124 }
    requires some_dialect { (1 ≤ e.dialect) × (e.dialect ≤ 2) }
    ensures { block.new ≡ sets block.old 0 (bytes_of (number ∷ e.entry.version ∷ e.entry.badge ∷ (length e.entry.matcher.now + length e.entry.pattern.now) ∷ (length e.entry.matcher.now + 32768 * (e.entry.dialect - 1)) ∷ [])) }
{
    let m = e.matcher.len();
    let n = m + e.pattern.len();
    put_start(block, number, e.version);
    put_counts(block, e.badge, n as u16, fourth(m, e.dialect));
}

// A rule as the block of this number.
pub fn write_block(block: &mut Block, number: u16, e: Entry)
    requires at_most_longest { length e.matcher.now + length e.pattern.now ≤ 124 }
    requires some_dialect { (1 ≤ e.dialect) × (e.dialect ≤ 2) }
    ensures { block.new ≡ bytes_of (written number (rule_of e.entry)) }
{
    put_head(block, number, e);
    put_rule(block, e.matcher, e.pattern);
    seal(block);
}

// The block of this number withdrawn: it keeps its version.
#[tactic(auto, using(crate::proofs::writing::Puts::empty_out))]
pub fn empty_block(block: &mut Block, number: u16)
    ensures { block.new ≡ bytes_of (emptied number (word (words_of block.old) 1)) }
{
    let version = word_at(block, VERSION_AT);
    put_start(block, number, version);
    put_zeros(block, BADGE_AT, FROM_BADGE);
    seal(block);
}
