// Rules read: a live rule by its badge, and one block by itself.
ghost use Rattle.std.specs.Prelude.{◌≡◌, ◌≤◌, length, map};
ghost use Rattle.book_rules.specs.Blocks.{holds};
ghost use Rattle.book_rules.specs.Books.{place, read};
ghost use Rattle.book_rules.specs.Bytes.{book_of};
ghost use Rattle.book_words.specs.Halves.{words_of};
ghost use Rattle.book.specs.Testing.{found};
ghost use Rattle.book.specs.Lookup.{RuleTold, BlockTold};

use crate::lent::{block_of, first_blocks};
use crate::testing::{find, test};
use book_blocks::BLOCK;
use book_blocks::fault::Fault;
use book_blocks::form::{NO_BADGE, badge_of, own_fault};
use book_blocks::reading::{Head, read_block};
use book_words::Block;

// The block that holds a live badge; 0 is none's.
#[tactic(auto, using(crate::proofs::lookup::Rules::live_none, crate::proofs::lookup::Rules::live_some))]
pub fn live_at(blocks: &[Block], badge: u16) -> Option<usize>
    ensures { result ≡ found (place (holds badge) (map words_of blocks.now)) }
{
    if badge == NO_BADGE {
        return None;
    }
    find(blocks, badge)
}

// A live rule by its badge, its words to the start of a lent slice.
pub fn read(book: &[u8], used: usize, badge: u16, words: &mut [i32]) -> Result<Option<Head>, Fault>
    requires { 124 ≤ length words.old }
    ensures { RuleTold (read badge (book_of book.now used)) result words.old words.new }
{
    test(book, used)?;
    match live_at(first_blocks(book, used), badge) {
        Some(k) => Ok(Some(read_block(block_of(book, k), words))),
        None => Ok(None),
    }
}

// A live block.
#[derive(Drop)]
pub struct Shown {
    pub badge: u16,
    pub head: Head,
}

// A block by itself, whatever stands in the others, and none where it is withdrawn: a book that was tested is listed block by block.
pub fn show(book: &[u8], number: usize, words: &mut [i32]) -> Result<Option<Shown>, Fault>
    requires { 124 ≤ length words.old }
    ensures { BlockTold book.now number result words.old words.new }
{
    if book.len() / BLOCK <= number {
        return Err(Fault::Number);
    }
    let block = block_of(book, number);
    own_fault(block, number)?;
    let badge = badge_of(block);
    if badge == NO_BADGE {
        return Ok(None);
    }
    let head = read_block(block, words);
    Ok(Some(Shown { badge, head }))
}
