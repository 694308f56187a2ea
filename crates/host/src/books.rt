// Document 02, No. 7: the rule book at the border to C. A book is a slice of bytes and the number of blocks in use.
ghost use Rattle.std.specs.Prelude.{◌≡◌, ◌∷◌, []};
ghost use Rattle.book_rules.specs.Books.{add, withdraw, total};
ghost use Rattle.book_rules.specs.Bytes.{book_of};
ghost use Rattle.book_blocks.specs.Faults.{answer_of};
ghost use Rattle.book_blocks.specs.Heads.{entry};
ghost use Rattle.book.specs.Changes.{used_in};
ghost use Rattle.book.specs.Lookup.{badge_in, rule_in, shown_in};
ghost use Rattle.book.specs.Testing.{answer_in, passed_in};
ghost use Rattle.host.specs.Border.{called};
ghost use Rattle.host.specs.Books.{head_numbers, book_called, changing, telling, check_called, read_called, block_called};

use crate::SHORT;
use book::adding::add;
use book::lookup::{Shown, read, show};
use book::testing::{Refused, test};
use book::totals::total;
use book::withdrawal::{Changed, withdraw};
use book_blocks::fault::{Fault, answer};
use book_blocks::form::LONGEST;
use book_blocks::reading::Head;
use book_blocks::writing::Entry;
use host_numbers::put_numbers;

// The bytes of three numbers, and of six.
const BOOK_BYTES: usize = 24;

const RULE_BYTES: usize = 48;

// What is told of a change, in the order in which C reads it: answer, 0, and the number of blocks in use then.
fn change_numbers(told: Result<Changed, Fault>, used: u32) -> [u64; 3]
    ensures { result ≡ answer_of told ∷ 0 ∷ used_in told used ∷ [] }
{
    match told {
        Ok(changed) => [0, 0, changed.used as u64],
        Err(fault) => [u64::from(fault.number()), 0, u64::from(used)],
    }
}

// The refusal of a whole book, and the number of blocks that pass.
fn check_numbers(told: Result<(), Refused>, used: u32) -> (u32, u64)
    ensures answer { result.0 ≡ answer_in told }
    ensures passed { result.1 ≡ passed_in told used }
{
    match told {
        Ok(()) => (0, u64::from(used)),
        Err(refused) => (refused.fault.number(), refused.block as u64),
    }
}

// A rule's numbers, in the order in which C reads them; all 0 where there is none.
fn head_numbers(head: Option<Head>) -> [u64; 4]
    ensures { result ≡ head_numbers head }
{
    match head {
        Some(head) => [
            u64::from(head.version),
            u64::from(head.dialect),
            head.matcher as u64,
            head.pattern as u64,
        ],
        None => [0; 4],
    }
}

// A block's badge, 0 where there is no rule, and its rule.
fn badge_and_head(told: Result<Option<Shown>, Fault>) -> (u16, Option<Head>)
    ensures badge { result.0 ≡ badge_in (shown_in told) }
    ensures head { result.1 ≡ rule_in (shown_in told) }
{
    match told {
        Ok(Some(shown)) => (shown.badge, Some(shown.head)),
        _ => (0, None),
    }
}

// Adds a rule: answer, 0, and the number of blocks in use then.
#[tactic(auto, using(crate::proofs::books::Calls::add_number), unfolding(crate::specs::Books::changing, crate::specs::Books::changed, crate::specs::Books::book_numbers))]
#[unsafe(no_mangle)]
pub extern "C" fn lozhbinor_book_add(
    book: &mut [u8],
    used: u32,
    version: u16,
    badge: u16,
    dialect: u32,
    matcher: &[i32],
    pattern: &[i32],
    numbers: &mut [u8],
) -> u32
    ensures { book_called result book.new numbers.new ≡ changing (add (entry version badge dialect matcher.now pattern.now) (book_of book.old used)) book.old numbers.old }
{
    if numbers.len() < BOOK_BYTES {
        return SHORT;
    }
    let e = Entry {
        version,
        badge,
        dialect,
        matcher,
        pattern,
    };
    let added = add(book, used as usize, e);
    let answer = answer(&added);
    put_numbers(numbers, &change_numbers(added, used));
    answer
}

// Withdraws a badge: answer, 0, and the number of blocks in use, which stays.
#[tactic(auto, using(crate::proofs::books::Calls::withdraw_number), unfolding(crate::specs::Books::changing, crate::specs::Books::changed, crate::specs::Books::book_numbers))]
#[unsafe(no_mangle)]
pub extern "C" fn lozhbinor_book_withdraw(
    book: &mut [u8],
    used: u32,
    badge: u16,
    numbers: &mut [u8],
) -> u32
    ensures { book_called result book.new numbers.new ≡ changing (withdraw badge (book_of book.old used)) book.old numbers.old }
{
    if numbers.len() < BOOK_BYTES {
        return SHORT;
    }
    let withdrawn = withdraw(book, used as usize, badge);
    let answer = answer(&withdrawn);
    put_numbers(numbers, &change_numbers(withdrawn, used));
    answer
}

// The number of live rules: answer, number, blocks in use.
#[tactic(auto, using(crate::proofs::books::Calls::number_is), unfolding(crate::specs::Books::telling, crate::specs::Books::told, crate::specs::Books::book_numbers, book::specs::Totals::total_told, book_rules::specs::Bytes::book_of))]
#[unsafe(no_mangle)]
pub extern "C" fn lozhbinor_book_total(book: &[u8], used: u32, numbers: &mut [u8]) -> u32
    ensures { called result [] numbers.new ≡ telling (total (book_of book.now used)) numbers.old }
{
    if numbers.len() < BOOK_BYTES {
        return SHORT;
    }
    let told = total(book, used as usize);
    let answer = answer(&told);
    let number = told.unwrap_or(0) as u64;
    put_numbers(numbers, &[u64::from(answer), number, u64::from(used)]);
    answer
}

// The refusal of the whole book: answer, the number of the first block that is refused, blocks in use.
#[tactic(auto, unfolding(crate::specs::Books::check_called, crate::specs::Books::checked, book_rules::specs::Bytes::book_of))]
#[unsafe(no_mangle)]
pub extern "C" fn lozhbinor_book_check(book: &[u8], used: u32, numbers: &mut [u8]) -> u32
    ensures { called result [] numbers.new ≡ check_called (book_of book.now used) numbers.old }
{
    if numbers.len() < BOOK_BYTES {
        return SHORT;
    }
    let (answer, passed) = check_numbers(test(book, used as usize), used);
    put_numbers(numbers, &[u64::from(answer), passed, u64::from(used)]);
    answer
}

// A live rule by its badge: answer, 1 if it is found, version, dialect, the matcher's length and the pattern's; its words to `words`.
#[tactic(auto, unfolding(crate::specs::Books::read_called, crate::specs::Books::showing))]
#[unsafe(no_mangle)]
pub extern "C" fn lozhbinor_book_read(
    book: &[u8],
    used: u32,
    badge: u16,
    words: &mut [i32],
    numbers: &mut [u8],
) -> u32
    ensures { called result words.new numbers.new ≡ read_called badge (book_of book.now used) words.old numbers.old }
{
    if numbers.len() < RULE_BYTES {
        return SHORT;
    }
    if words.len() < LONGEST {
        return SHORT;
    }
    let told = read(book, used as usize, badge, words);
    let answer = answer(&told);
    let head = told.unwrap_or(None);
    let found = u64::from(head.is_some());
    let [version, dialect, matcher, pattern] = head_numbers(head);
    put_numbers(
        numbers,
        &[u64::from(answer), found, version, dialect, matcher, pattern],
    );
    answer
}

// One block by itself: answer, badge, version, dialect, the matcher's length and the pattern's. A book that was tested is listed so.
#[tactic(auto, unfolding(crate::specs::Books::block_called, crate::specs::Books::showing))]
#[unsafe(no_mangle)]
pub extern "C" fn lozhbinor_book_block(
    book: &[u8],
    block: u32,
    words: &mut [i32],
    numbers: &mut [u8],
) -> u32
    ensures { called result words.new numbers.new ≡ block_called book.now block words.old numbers.old }
{
    if numbers.len() < RULE_BYTES {
        return SHORT;
    }
    if words.len() < LONGEST {
        return SHORT;
    }
    let told = show(book, block as usize, words);
    let answer = answer(&told);
    let (badge, head) = badge_and_head(told);
    let [version, dialect, matcher, pattern] = head_numbers(head);
    put_numbers(
        numbers,
        &[
            u64::from(answer),
            u64::from(badge),
            version,
            dialect,
            matcher,
            pattern,
        ],
    );
    answer
}
