// The service review: the worst count of steps of a rule, for a largest collection.
ghost use Rattle.std.specs.Prelude.{◌≡◌};
ghost use Rattle.rules.specs.Services.{rule_in, rule_of, review_rule, review, review_of, review_picked};
ghost use Rattle.tables.specs.Line.{columns_of};
ghost use Rattle.room_rules.specs.Rooms.{rows_reviewed};
ghost use Rattle.services.specs.Picks.{dialect_in};
ghost use Rattle.services.specs.Reviews.{Sound, counted_by, rows_by, rows_picked, reviewed, reviewed_by};

use crate::picks::Dialect;
use crate::refusal::Refused;
use program::compile;
use program_parts::{Matcher, Pattern};
use review_count::always::always_true;
use review_count::count::{Cap, Tally, tallied};
use tables::line::{Lines, no_lines};
use tests::rule_refused_in;
use words::tag_of;

// Document 01's three numbers, which the contract of `review` fixes, and the product of the factors, which bounds the rows; 0 in a refusal.
#[derive(Drop)]
pub struct Reviewed {
    pub answer: u32,
    pub place: usize,
    pub count: u64,
    pub rows: u64,
}

// The largest cap.
const MOST: u32 = 64;

impl From<Result<Tally, Refused>> for Reviewed {
    ghost from_gives = { λ outcome answer. answer ≡ reviewed_by outcome };

    #[tactic(auto, unfolding(crate::specs::Reviews::reviewed_by))]
    fn from(outcome: Result<Tally, Refused>) -> Reviewed {
        match outcome {
            Ok(tally) => Reviewed {
                answer: 0,
                place: 0,
                count: tally.count,
                rows: tally.product,
            },
            Err(refused) => Reviewed {
                answer: refused.answer(),
                place: refused.place(),
                count: 0,
                rows: 0,
            },
        }
    }
}

// Tests 9 and 10, over the lines of a rule's program.
fn counted(lines: &Lines, cap: i32) -> Result<Tally, Refused>
    ensures result_value { reviewed (reviewed_by result) ≡ counted_by cap (columns_of lines.now).op }
    ensures rows_value { (reviewed_by result).rows ≡ rows_by cap (columns_of lines.now).op }
{
    let most = tag_of(cap);
    if MOST < most {
        return Err(Refused::Cap);
    }
    let cap = Cap {
        most: u64::from(most),
    };
    tallied(lines, cap).ok_or(Refused::TooBig)
}

// Test 11, and then 9 and 10, for a rule that was accepted.
fn of_rule(matcher: &[i32], pattern: &[i32], cap: i32) -> Result<Tally, Refused>
    requires { Sound (rule_of matcher.now pattern.now) }
    ensures result_value { reviewed (reviewed_by result) ≡ review_rule cap (rule_of matcher.now pattern.now) }
    ensures rows_value { (reviewed_by result).rows ≡ rows_reviewed cap (rule_of matcher.now pattern.now) }
{
    let mut lines = no_lines();
    let matcher = Matcher { words: matcher };
    let pattern = Pattern { words: pattern };
    compile(matcher, pattern, &mut lines);
    if always_true(&lines) {
        return Err(Refused::AlwaysTrue);
    }
    counted(&lines, cap)
}

// Review in a dialect.
fn review_in(dialect: Dialect, matcher: &[i32], pattern: &[i32], cap: i32) -> Result<Tally, Refused>
    ensures result_value { reviewed (reviewed_by result) ≡ review_of (dialect_in dialect) matcher.now pattern.now cap }
    ensures rows_value { (reviewed_by result).rows ≡ rows_reviewed cap (rule_in (dialect_in dialect) matcher.now pattern.now) }
{
    rule_refused_in(dialect.takes_firsts(), matcher, pattern)?;
    of_rule(matcher, pattern, cap)
}

// An unknown dialect is refused before any other look.
fn review_picked(dialect: u32, matcher: &[i32], pattern: &[i32], cap: i32) -> Result<Tally, Refused>
    ensures result_value { reviewed (reviewed_by result) ≡ review_picked dialect matcher.now pattern.now cap }
    ensures rows_value { (reviewed_by result).rows ≡ rows_picked dialect matcher.now pattern.now cap }
{
    let dialect = Dialect::try_from(dialect)?;
    review_in(dialect, matcher, pattern, cap)
}

// Review, for every input, in dialect 1.
pub fn review(matcher: &[i32], pattern: &[i32], cap: i32) -> Reviewed
    ensures result_value { reviewed result ≡ review matcher.now pattern.now cap }
    ensures rows_value { result.rows ≡ rows_reviewed cap (rule_of matcher.now pattern.now) }
{
    Reviewed::from(review_in(Dialect::EveryPlace, matcher, pattern, cap))
}

// Review in the dialect that the caller picks.
pub fn review_with(dialect: u32, matcher: &[i32], pattern: &[i32], cap: i32) -> Reviewed
    ensures result_value { reviewed result ≡ review_picked dialect matcher.now pattern.now cap }
    ensures rows_value { result.rows ≡ rows_picked dialect matcher.now pattern.now cap }
{
    Reviewed::from(review_picked(dialect, matcher, pattern, cap))
}
