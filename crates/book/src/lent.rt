// Lent bytes as blocks.
ghost use Rattle.std.specs.Prelude.{◌≡◌, ◌+◌, ◌*◌, ◌≤◌, length, map};
ghost use Rattle.std.proofs.lemmas.List.Edits.{sets};
ghost use Rattle.book_rules.specs.Bytes.{block_at, blocks_from};
ghost use Rattle.book_words.specs.Halves.{words_of};

use book_words::{BLOCK, Block};

// The first n blocks.
pub(crate) fn first_blocks(book: &[u8], n: usize) -> &[Block]
    requires { 512 * n ≤ length book.now }
    ensures { map words_of result.now ≡ blocks_from book.now 0 n }
{
    let (blocks, _) = book.as_chunks::<BLOCK>();
    &blocks[..n]
}

// Block k.
pub(crate) fn block_of(book: &[u8], k: usize) -> &Block
    requires { 512 * k + 512 ≤ length book.now }
    ensures { words_of result.now ≡ block_at book.now k }
{
    let (blocks, _) = book.as_chunks::<BLOCK>();
    &blocks[k]
}

// Block k written.
pub(crate) fn put_block(book: &mut [u8], k: usize, block: &Block)
    requires { 512 * k + 512 ≤ length book.old }
    ensures { book.new ≡ sets book.old (512 * k) block.now }
{
    let at = BLOCK * k;
    book[at..at + BLOCK].copy_from_slice(block);
}
