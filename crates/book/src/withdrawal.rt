// A rule withdrawn.
ghost use Rattle.book_rules.specs.Books.{withdraw};
ghost use Rattle.book_rules.specs.Bytes.{book_of};
ghost use Rattle.book_blocks.specs.Faults.{answer_of};
ghost use Rattle.book.specs.Changes.{ChangeTold, block_in, used_in, withdrawn_at};

use crate::lent::{block_of, first_blocks, put_block};
use crate::lookup::live_at;
use crate::testing::test;
use book_blocks::fault::Fault;
use book_blocks::writing::empty_block;

// The block that was written, and the number of blocks in use then.
#[derive(Drop)]
pub struct Changed {
    pub block: usize,
    pub used: usize,
}

// A badge withdrawn: 23 where it is not live, else its block is empty and keeps its version.
pub fn withdraw(book: &mut [u8], used: usize, badge: u16) -> Result<Changed, Fault>
    ensures { ChangeTold (withdraw badge (book_of book.old used)) (withdrawn_at badge (book_of book.old used)) (answer_of result) (block_in result) (used_in result used) book.old book.new }
{
    test(book, used)?;
    let block = live_at(first_blocks(book, used), badge).ok_or(Fault::NotLive)?;
    let mut bytes = *block_of(book, block);
    empty_block(&mut bytes, block as u16);
    put_block(book, block, &bytes);
    Ok(Changed { block, used })
}
