// The refusals 12 to 15 of one block by itself. Its words stand two bytes apart.
ghost use Rattle.std.specs.Prelude.{◌≡◌, [], ◌+◌, ◌-◌, ◌*◌, ◌≤◌, length, take, drop};
ghost use Rattle.rules.specs.Services.{rule_in};
ghost use Rattle.words.specs.Dialects.{dialect_by};
ghost use Rattle.book_rules.specs.Blocks.{joined, length_in, dialect_in, known, is_accepted, is_rule, live_formed, formed, badge_of, verdict};
ghost use Rattle.book_rules.specs.Bytes.{words_from};
ghost use Rattle.book_words.specs.Halves.{words_of};
ghost use Rattle.book_blocks.specs.Faults.{answer_of};

use crate::fault::Fault;
use crate::{
    BADGE_AT, DIALECT_BIT, FOURTH_AT, FROM_LENGTH, FROM_RULE, LENGTH_AT, NUMBER_AT, RULE_AT,
    VERSION_AT,
};
use book_words::{Block, SIGNED_BYTES, are_zero, is_checked, read_words, word_at};
use tests::rule_refused_in;
use words::dialect::{EVERY_PLACE, FIRST_PLACES};

// The most words of a rule, matcher and pattern together.
pub const LONGEST: usize = 124;

// The badge of a withdrawn block; no rule has it.
pub const NO_BADGE: u16 = 0;

// The versions that there are; the second has dialects.
pub const FIRST_VERSION: u16 = 1;

pub const DIALECT_VERSION: u16 = 2;

#[tactic(auto, unfolding(book_rules::specs::Blocks::known))]
pub fn is_known(version: u16) -> bool
    ensures { result ≡ known version }
{
    version == FIRST_VERSION || version == DIALECT_VERSION
}

// The matcher's length in word 4: version 2 has the dialect in its top bit.
#[tactic(auto, unfolding(book_rules::specs::Blocks::length_in))]
pub fn length_in(version: u16, w: u16) -> usize
    ensures { result ≡ length_in version w }
{
    let length = if version == DIALECT_VERSION {
        w % DIALECT_BIT
    } else {
        w
    };
    usize::from(length)
}

// The dialect in word 4: version 2 has it in the top bit.
#[tactic(auto, unfolding(book_rules::specs::Blocks::dialect_in))]
pub fn dialect_in(version: u16, w: u16) -> u32
    ensures { result ≡ dialect_in version w }
{
    if version == DIALECT_VERSION && DIALECT_BIT <= w {
        FIRST_PLACES
    } else {
        EVERY_PLACE
    }
}

// Review's 1 to 4; `firsts`: in dialect 2.
fn is_accepted(firsts: bool, matcher: &[i32], pattern: &[i32]) -> bool
    ensures { result ≡ is_accepted (rule_in (dialect_by firsts) matcher.now pattern.now) }
{
    rule_refused_in(firsts, matcher, pattern).is_ok()
}

// The same in the dialect that a block or an add names.
#[tactic(auto, unfolding(book_rules::specs::Blocks::is_rule, rules::specs::Dialects::dialect_of, words::specs::Dialects::dialect_by))]
pub fn is_rule(dialect: u32, matcher: &[i32], pattern: &[i32]) -> bool
    ensures { result ≡ is_rule dialect matcher.now pattern.now }
{
    match dialect {
        EVERY_PLACE => is_accepted(false, matcher, pattern),
        FIRST_PLACES => is_accepted(true, matcher, pattern),
        _ => false,
    }
}

// The same of n words, of which the matcher has m.
fn is_rule_in(dialect: u32, words: &[i32], m: usize, n: usize) -> bool
    requires matcher_in_rule { m ≤ n }
    requires rule_in_words { n ≤ length words.now }
    ensures { result ≡ is_rule dialect (take m words.now) (take (n - m) (drop m words.now)) }
{
    is_rule(dialect, &words[..m], &words[m..n])
}

// The same of the n signed words from a block's word 5 on.
fn is_rule_at(dialect: u32, block: &Block, m: usize, n: usize) -> bool
    requires matcher_in_rule { m ≤ n }
    requires at_most_longest { n ≤ 124 }
    ensures { result ≡ is_rule dialect (take m (joined n (words_from block.now 10 (2 * n)))) (drop m (joined n (words_from block.now 10 (2 * n)))) }
{
    let mut words = [0i32; LONGEST];
    read_words(block, RULE_AT, n, &mut words);
    is_rule_in(dialect, &words, m, n)
}

// The form of a live block: its lengths, its unused words, its rule.
#[tactic(auto, using(crate::proofs::form::Forms::live_rules))]
fn is_live_formed(block: &Block) -> bool
    ensures { result ≡ live_formed (words_of block.now) }
{
    let n = usize::from(word_at(block, LENGTH_AT));
    if LONGEST < n {
        return false;
    }
    let version = word_at(block, VERSION_AT);
    let fourth = word_at(block, FOURTH_AT);
    let m = length_in(version, fourth);
    if n < m {
        return false;
    }
    if !are_zero(block, RULE_AT + SIGNED_BYTES * n, FROM_RULE - 2 * n) {
        return false;
    }
    is_rule_at(dialect_in(version, fourth), block, m, n)
}

// 15 of a block by itself; a withdrawn one is zero up to its check.
#[tactic(auto, using(crate::proofs::Seen::word_seen, crate::proofs::Seen::withdrawn_seen), unfolding(book_rules::specs::Blocks::formed))]
fn is_formed(block: &Block) -> bool
    ensures { result ≡ formed (words_of block.now) }
{
    if word_at(block, BADGE_AT) == NO_BADGE {
        return are_zero(block, LENGTH_AT, FROM_LENGTH);
    }
    is_live_formed(block)
}

// 12 to 15 of a block by itself, whatever stands before it, as block k.
#[tactic(auto, using(crate::proofs::Seen::word_seen), unfolding(book_rules::specs::Blocks::verdict, book_rules::specs::Blocks::or_else, book_rules::specs::Blocks::unless, book_rules::specs::Blocks::taken, book_rules::specs::Sums::and_also))]
pub fn own_fault(block: &Block, k: usize) -> Result<(), Fault>
    ensures { answer_of result ≡ verdict k [] (words_of block.now) }
{
    if !is_checked(block) {
        return Err(Fault::Check);
    }
    if usize::from(word_at(block, NUMBER_AT)) != k {
        return Err(Fault::Number);
    }
    if !is_known(word_at(block, VERSION_AT)) {
        return Err(Fault::Version);
    }
    if !is_formed(block) {
        return Err(Fault::Form);
    }
    Ok(())
}

// The badge number of a block: 0 where it is withdrawn.
#[tactic(auto, using(crate::proofs::Seen::word_seen))]
pub fn badge_of(block: &Block) -> u16
    ensures { result ≡ badge_of (words_of block.now) }
{
    word_at(block, BADGE_AT)
}
