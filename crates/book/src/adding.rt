// A rule added.
ghost use Rattle.std.specs.Prelude.{◌≡◌, ◌*◌, ◌≤◌, length, map};
ghost use Rattle.book_rules.specs.Books.{dialect_for, proper, slot, add};
ghost use Rattle.book_rules.specs.Bytes.{book_of};
ghost use Rattle.book_words.specs.Halves.{words_of};
ghost use Rattle.book_blocks.specs.Faults.{answer_of};
ghost use Rattle.book_blocks.specs.Heads.{rule_of};
ghost use Rattle.book.specs.Testing.{found};
ghost use Rattle.book.specs.Changes.{ChangeTold, block_in, used_in, own_refusal, added_at};

use crate::lent::{first_blocks, put_block};
use crate::testing::{find, is_taken, test};
use crate::withdrawal::Changed;
use book_blocks::BLOCK;
use book_blocks::fault::Fault;
use book_blocks::form::{DIALECT_VERSION, LONGEST, NO_BADGE, is_known, is_rule};
use book_blocks::writing::{Entry, write_block};
use book_words::Block;
use words::dialect::{EVERY_PLACE, FIRST_PLACES};

// Blocks past number 65,535 cannot be numbered.
const NUMBERS: usize = 65536;

// The block that a new rule takes: the lowest withdrawn, else the next that is lent.
#[tactic(auto, using(crate::proofs::adding::Refusals::slot_rules))]
fn slot(book: &[u8], used: usize) -> Option<usize>
    requires { 512 * used ≤ length book.now }
    ensures { result ≡ found (slot (book_of book.now used)) }
{
    if let Some(k) = find(first_blocks(book, used), NO_BADGE) {
        return Some(k);
    }
    if used < book.len() / BLOCK && used < NUMBERS {
        Some(used)
    } else {
        None
    }
}

// Dialect 2 is kept from version 2 on.
#[tactic(auto, unfolding(book_rules::specs::Books::dialect_for))]
fn is_dialect(version: u16, dialect: u32) -> bool
    ensures { result ≡ dialect_for version dialect }
{
    match dialect {
        EVERY_PLACE => true,
        FIRST_PLACES => version == DIALECT_VERSION,
        _ => false,
    }
}

// 15 of an add: badge 0, the dialect, review's 1 to 4 in that dialect.
#[tactic(auto, unfolding(book_rules::specs::Books::proper, book_rules::specs::Sums::and_also))]
fn is_proper(e: Entry) -> bool
    ensures { result ≡ proper (rule_of e.entry) }
{
    if e.badge == NO_BADGE {
        return false;
    }
    if !is_dialect(e.version, e.dialect) {
        return false;
    }
    is_rule(e.dialect, e.matcher, e.pattern)
}

// 14 and 15 of an add, then 16 and 18.
#[tactic(auto, unfolding(crate::specs::Changes::own_refusal, book_rules::specs::Blocks::or_else, book_rules::specs::Blocks::unless, book_rules::specs::Blocks::counts))]
fn own_refusal(blocks: &[Block], e: Entry) -> Result<(), Fault>
    ensures { answer_of result ≡ own_refusal (rule_of e.entry) (map words_of blocks.now) }
{
    if !is_known(e.version) {
        return Err(Fault::Version);
    }
    if !is_proper(e) {
        return Err(Fault::Form);
    }
    if is_taken(blocks, e.badge) {
        return Err(Fault::Live);
    }
    if LONGEST < e.matcher.len() + e.pattern.len() {
        return Err(Fault::TooLong);
    }
    Ok(())
}

// A rule added: in the lowest withdrawn block, or else the book grows.
pub fn add(book: &mut [u8], used: usize, e: Entry) -> Result<Changed, Fault>
    ensures { ChangeTold (add (rule_of e.entry) (book_of book.old used)) (added_at (rule_of e.entry) (book_of book.old used)) (answer_of result) (block_in result) (used_in result used) book.old book.new }
{
    test(book, used)?;
    own_refusal(first_blocks(book, used), e)?;
    let block = slot(book, used).ok_or(Fault::NoBlock)?;
    let mut bytes = [0; BLOCK];
    write_block(&mut bytes, block as u16, e);
    put_block(book, block, &bytes);
    Ok(Changed {
        block,
        used: used.max(block + 1),
    })
}
