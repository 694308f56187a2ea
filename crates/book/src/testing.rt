// The refusals 12 to 15 of a whole book, block by block, and the search for a badge.
ghost use Rattle.std.specs.Prelude.{◌≡◌, ◌+◌, ◌*◌, ◌≤◌, length, map};
ghost use Rattle.book_rules.specs.Blocks.{taken, verdict};
ghost use Rattle.book_rules.specs.Books.{place};
ghost use Rattle.book_rules.specs.Bytes.{block_at, book_of};
ghost use Rattle.book_words.specs.Halves.{words_of};
ghost use Rattle.book_blocks.specs.Faults.{answer_of};
ghost use Rattle.book.specs.Testing.{bears, found, before, answer_in, passed_in, Answered};

use crate::lent::{block_of, first_blocks};
use book_blocks::BLOCK;
use book_blocks::fault::Fault;
use book_blocks::form::{NO_BADGE, badge_of, own_fault};
use book_words::Block;

// The first block that bears a badge number; 0 is that of a withdrawn one.
pub fn find(blocks: &[Block], badge: u16) -> Option<usize>
    ensures { result ≡ found (place (bears badge) (map words_of blocks.now)) }
{
    blocks.iter().position(|block| badge_of(block) == badge)
}

// Whether a live rule of this badge stands in the blocks; 0 is none's.
#[tactic(auto, using(crate::proofs::testing::Finding::taken_none, crate::proofs::testing::Finding::taken_is))]
pub fn is_taken(blocks: &[Block], badge: u16) -> bool
    ensures { result ≡ taken badge (map words_of blocks.now) }
{
    if badge == NO_BADGE {
        return false;
    }
    find(blocks, badge).is_some()
}

// 12 to 15 of block k: a badge live twice is told at the second.
fn block_fault(book: &[u8], k: usize) -> Result<(), Fault>
    requires { 512 * k + 512 ≤ length book.now }
    ensures { answer_of result ≡ verdict k (before book.now k) (block_at book.now k) }
{
    let own = block_of(book, k);
    own_fault(own, k)?;
    if is_taken(first_blocks(book, k), badge_of(own)) {
        return Err(Fault::Form);
    }
    Ok(())
}

// The refusal of a whole book, and the number of the first block that is refused.
#[derive(Clone, Copy, Debug, PartialEq, Eq)]
pub struct Refused {
    pub fault: Fault,
    pub block: usize,
}

impl From<Refused> for Fault {
    ghost from_gives = { λ r f. f ≡ r.fault };

    fn from(refused: Refused) -> Fault {
        refused.fault
    }
}

// 12 to 15, block by block; then, where more are in use than are lent, 13.
pub fn test(book: &[u8], used: usize) -> Result<(), Refused>
    ensures { Answered (book_of book.now used) (answer_in result) (passed_in result used) }
{
    let blocks = book.len() / BLOCK;
    let n = used.min(blocks);
    for block in 0..n {
        if let Err(fault) = block_fault(book, block) {
            return Err(Refused { fault, block });
        }
    }
    if blocks < used {
        return Err(Refused {
            fault: Fault::Number,
            block: n,
        });
    }
    Ok(())
}
