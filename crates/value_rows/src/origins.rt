// Document 02, No. 9, row form 2: of each variable the index of its value's tag, then its marks as two words' bits, low half first.
ghost use Rattle.std.specs.Prelude.{◌≡◌, ◌∷◌, [], ◌+◌, ◌/◌, ◌%◌, ◌^◌, ◌<◌, ◌≤◌, length, pos};
ghost use Rattle.rules.specs.Rows.{bits};
ghost use Rattle.value_places.specs.Held.{put};

use crate::put_words;

// The low half of marks as a word.
#[tactic(auto, unfolding(rules::specs::Rows::bits))]
fn low_word(m: u64) -> i32
    ensures { result ≡ bits (m % 2 ^ 32) }
{
    ((m % 4294967296) as u32).cast_signed()
}

// The high half.
#[tactic(auto, unfolding(rules::specs::Rows::bits))]
fn high_word(m: u64) -> i32
    ensures { result ≡ bits (m / 2 ^ 32) }
{
    ((m / 4294967296) as u32).cast_signed()
}

// An index as a word.
fn index_word(at: usize) -> i32
    requires { at < 1024 }
    ensures { result ≡ pos at }
{
    at as i32
}

// The origin of the value that is held at an index by marks, written into the room from an index on.
#[tactic(auto, unfolding(rules::specs::Rows::bits, value_places::specs::Held::put))]
pub fn put_origin(at: usize, m: u64, room: &mut [i32], from: usize) -> usize
    requires index { at < 1024 }
    requires room { from + 3 ≤ length room.old }
    ensures { (result ≡ from + 3) × (room.new ≡ put room.old from (pos at ∷ bits (m % 2 ^ 32) ∷ bits (m / 2 ^ 32) ∷ [])) }
{
    let index = index_word(at);
    let low = low_word(m);
    let high = high_word(m);
    put_words(room, from, &[index, low, high])
}
