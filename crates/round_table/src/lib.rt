// Document 02, No. 10: the waiting states, in a table of words that the game lends. A list of states that follow from one state is kept as its first state and
// the choices left, at a fixed size: entries of three words, a place and the two halves of its marks.
#![tactic(auto, using(crate::proofs::Laws::own_rules), unfolding(crate::specs::Entries::halves, crate::specs::Entries::word_at))]

pub mod slots;

ghost use Rattle.std.specs.Prelude.{◌≡◌, ◌+◌, ◌*◌, ◌<◌, ◌≤◌, length, set};
ghost use Rattle.std.specs.Int.{w32};
ghost use Rattle.std.proofs.Common.{to_z};
ghost use Rattle.round_table.specs.Entries.{halves, word_at, entry_at, put_entry, Small, Copied};

use tables::slot::Held;

// The entries of a list of states: three of its first state and the open frame, then one for each binding and each slot.
pub const ENTRIES: usize = 275;

// The words of a state in the table, as docs/ and the header have it.
pub const STATE_WORDS: usize = 825;

// Marks from their two halves.
fn joined(low: u32, high: u32) -> u64
    ensures { result ≡ halves low high }
{
    u64::from(low) + 4294967296 * u64::from(high)
}

// The bits of a word of the table.
fn word_at(table: &[i32], i: usize) -> u32
    requires { i < length table.now }
    ensures { result ≡ word_at table.now i }
{
    table[i].cast_unsigned()
}

// A word of the table is written, from its bits.
fn put_word(table: &mut [i32], i: usize, u: u32)
    requires { i < length table.old }
    ensures { table.new ≡ set table.old i (to_z w32 u) }
{
    table[i] = u.cast_signed();
}

// The entry at an index.
pub fn entry_at(table: &[i32], i: usize) -> Held
    requires { 3 * i + 2 < length table.now }
    ensures value { result ≡ entry_at table.now i }
    ensures small { Small result }
{
    let k = 3 * i;
    Held {
        at: word_at(table, k) as usize,
        marks: joined(word_at(table, k + 1), word_at(table, k + 2)),
    }
}

// An entry is written; of its place the low 32 bits.
pub fn put_entry(table: &mut [i32], i: usize, h: Held)
    requires { 3 * i + 2 < length table.old }
    ensures { table.new ≡ put_entry table.old i h }
{
    let k = 3 * i;
    put_word(table, k, (h.at % 4294967296) as u32);
    put_word(table, k + 1, (h.marks % 4294967296) as u32);
    put_word(table, k + 2, (h.marks / 4294967296 % 4294967296) as u32);
}

// n entries from one on are copied to earlier ones.
#[tactic(auto, using(crate::proofs::Laws::own_rules))]
pub fn copy(table: &mut [i32], from: usize, to: usize, n: usize)
    requires below { to + n ≤ from }
    requires table_long { 3 * (from + n) ≤ length table.old }
    ensures { Copied table.old table.new from to n }
{
    for k in 0..n {
        let h = entry_at(table, from + k);
        put_entry(table, to + k, h);
    }
}
