// The rule book at the border to C.
ghost use Rattle.std.specs.Prelude.{◌≡◌, []};
ghost use Rattle.book_rules.specs.Books.{add, withdraw, total};
ghost use Rattle.book_rules.specs.Bytes.{book_of};
ghost use Rattle.book_blocks.specs.Heads.{entry};
ghost use Rattle.host.specs.Border.{called};
ghost use Rattle.host.specs.Books.{book_called, changing, telling, check_called, read_called, block_called};

// Adds a rule: answer, 0, and the number of blocks in use then.
#[unsafe(no_mangle)]
pub extern "C" fn lozhbinor_book_add(
    book: &mut [u8],
    used: u32,
    version: u16,
    badge: u16,
    dialect: u32,
    matcher: &[i32],
    pattern: &[i32],
    numbers: &mut [u8],
) -> u32
    ensures { book_called result book.new numbers.new ≡ changing (add (entry version badge dialect matcher.now pattern.now) (book_of book.old used)) book.old numbers.old }
{
    host::books::lozhbinor_book_add(
        book, used, version, badge, dialect, matcher, pattern, numbers,
    )
}

// Withdraws a badge: answer, 0, and the number of blocks in use, which stays.
#[unsafe(no_mangle)]
pub extern "C" fn lozhbinor_book_withdraw(
    book: &mut [u8],
    used: u32,
    badge: u16,
    numbers: &mut [u8],
) -> u32
    ensures { book_called result book.new numbers.new ≡ changing (withdraw badge (book_of book.old used)) book.old numbers.old }
{
    host::books::lozhbinor_book_withdraw(book, used, badge, numbers)
}

// The number of live rules: answer, number, blocks in use.
#[unsafe(no_mangle)]
pub extern "C" fn lozhbinor_book_total(book: &[u8], used: u32, numbers: &mut [u8]) -> u32
    ensures { called result [] numbers.new ≡ telling (total (book_of book.now used)) numbers.old }
{
    host::books::lozhbinor_book_total(book, used, numbers)
}

// The refusal of the whole book: answer, the number of the first block that is refused, blocks in use.
#[unsafe(no_mangle)]
pub extern "C" fn lozhbinor_book_check(book: &[u8], used: u32, numbers: &mut [u8]) -> u32
    ensures { called result [] numbers.new ≡ check_called (book_of book.now used) numbers.old }
{
    host::books::lozhbinor_book_check(book, used, numbers)
}

// A live rule by its badge: answer, 1 if it is found, version, dialect, the matcher's length and the pattern's; its words to `words`.
#[unsafe(no_mangle)]
pub extern "C" fn lozhbinor_book_read(
    book: &[u8],
    used: u32,
    badge: u16,
    words: &mut [i32],
    numbers: &mut [u8],
) -> u32
    ensures { called result words.new numbers.new ≡ read_called badge (book_of book.now used) words.old numbers.old }
{
    host::books::lozhbinor_book_read(book, used, badge, words, numbers)
}

// One block by itself: answer, badge, version, dialect, the matcher's length and the pattern's. A book that was tested is listed so.
#[unsafe(no_mangle)]
pub extern "C" fn lozhbinor_book_block(
    book: &[u8],
    block: u32,
    words: &mut [i32],
    numbers: &mut [u8],
) -> u32
    ensures { called result words.new numbers.new ≡ block_called book.now block words.old numbers.old }
{
    host::books::lozhbinor_book_block(book, block, words, numbers)
}
