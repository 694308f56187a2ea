// The number of live rules.
ghost use Rattle.std.specs.Prelude.{◌≡◌, map};
ghost use Rattle.book_rules.specs.Books.{live, total};
ghost use Rattle.book_rules.specs.Bytes.{book_of};
ghost use Rattle.book_words.specs.Halves.{words_of};
ghost use Rattle.book_blocks.specs.Faults.{answer_of};
ghost use Rattle.book.specs.Totals.{total_told, number_in};

use crate::lent::first_blocks;
use crate::testing::test;
use book_blocks::fault::Fault;
use book_blocks::form::{NO_BADGE, badge_of};
use book_words::Block;

fn live(blocks: &[Block]) -> usize
    ensures { result ≡ live (map words_of blocks.now) }
{
    blocks
        .iter()
        .filter(|block| badge_of(block) != NO_BADGE)
        .count()
}

// The total, for every lent bytes and every number of blocks in use.
pub fn total(book: &[u8], used: usize) -> Result<usize, Fault>
    ensures { total_told (answer_of result) (number_in result) (book_of book.now used) ≡ total (book_of book.now used) }
{
    test(book, used)?;
    Ok(live(first_blocks(book, used)))
}
