// The words of room that suffice for a rule: at most review's rows are written, each with a value for each variable, and no value has more words than the target, or in form 2 than three.
#![tactic(auto)]

ghost use Rattle.std.specs.Prelude.{◌≡◌, ◌*◌, ◌^◌, ◌<◌, ◌≤◌};
ghost use Rattle.room_rules.specs.Rooms.{variables_in, width_of, room_by, room};
ghost use Rattle.services.specs.Picks.{form_in};
ghost use Rattle.service_room.specs.Told.{roomed};

use services::picks::RowForm;
use services::review::review;
use test_variables::count_variables;

// Review's answer and place, and the words: numbers, as the contract of `room` fixes them.
#[derive(Drop)]
pub struct Roomed {
    pub answer: u32,
    pub place: usize,
    pub words: u64,
}

// A target has at most so many words, and a value in form 2 so many.
const TARGET_WORDS: u64 = 1024;

const ORIGIN_WORDS: u64 = 3;

// How many variables a pattern has: a row has a value for each. A pattern at fault has none.
#[tactic(auto, using(crate::proofs::Laws::own_rules))]
pub fn variables_in(pattern: &[i32]) -> u32
    ensures { result ≡ variables_in pattern.now }
{
    count_variables(pattern).unwrap_or(0)
}

// The most words of a value.
#[tactic(auto, unfolding(room_rules::specs::Rooms::width_of))]
fn width(form: RowForm, longest: u32) -> u64
    ensures { result ≡ width_of (form_in form) longest }
{
    match form {
        RowForm::Values => u64::from(longest).min(TARGET_WORDS),
        RowForm::Origins => ORIGIN_WORDS,
    }
}

#[tactic(auto, using(crate::proofs::Laws::own_rules))]
fn words_for(rows: u64, variables: u64, words: u64) -> u64
    requires rows_few { rows < 2 ^ 32 }
    requires variables_few { variables ≤ 16 }
    requires words_few { words ≤ 1024 }
    ensures { result ≡ rows * variables * words }
{
    rows * variables * words
}

// The words for rows whose values have at most `width` words each.
#[tactic(auto, using(crate::proofs::Laws::own_rules))]
fn sized(width: u64, matcher: &[i32], pattern: &[i32], cap: i32) -> Roomed
    requires { width ≤ 1024 }
    ensures { roomed result ≡ room_by width matcher.now pattern.now cap }
{
    let r = review(matcher, pattern, cap);
    let n = u64::from(variables_in(pattern));
    Roomed {
        answer: r.answer,
        place: r.place,
        words: words_for(r.rows, n, width),
    }
}

// In a row form, for targets of at most `longest` words whose collections have at most `cap` elements.
#[tactic(auto, using(crate::proofs::Laws::own_rules))]
pub fn room(form: u32, matcher: &[i32], pattern: &[i32], cap: i32, longest: u32) -> Roomed
    ensures { roomed result ≡ room form matcher.now pattern.now cap longest }
{
    match RowForm::try_from(form) {
        Ok(form) => sized(width(form, longest), matcher, pattern, cap),
        Err(refused) => Roomed {
            answer: refused.answer(),
            place: refused.place(),
            words: 0,
        },
    }
}
