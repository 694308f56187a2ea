// Asks review about the rule on standard input and says the answer in words: line 1 is the matcher, line 2 the pattern, line 4 begins with the cap.
#![tactic(auto)]

use services::refusal::{CAP, TOO_BIG};
use services::review::{Reviewed, review};
use std::io;
use tests::{MATCHER, MISFIT, PATTERN, VARIABLE};
use text_ask::LINE_WORDS;
use text_ask::question::read_question;

// The answer to a rule that is counted.
const DONE: u32 = 0;

// What an answer of review means.
fn say_answer(rt: &impl Print, cap: u32, r: Reviewed) -> io::Result<()> {
    match r.answer {
        DONE => println!(rt; "cap {cap}: at most {} steps", r.count),
        MATCHER => println!(rt;
            "refused, answer 1: line 1 is not one whole matcher; see its place {}",
            r.place
        ),
        PATTERN => println!(rt;
            "refused, answer 2: line 2 is not one whole pattern; see its place {}",
            r.place
        ),
        VARIABLE => println!(rt;
            "refused, answer 3: a variable out of order, or inside an or or a not; see line 2, place {}",
            r.place
        ),
        MISFIT => println!(rt;
            "refused, answer 4: the pattern does not fit the matcher; see line 2, place {}",
            r.place
        ),
        CAP => println!(rt; "cap {cap}: refused, answer 9: a cap is a number from 0 to 64"),
        TOO_BIG => println!(rt; "cap {cap}: refused, answer 10: more than 4294967295 steps"),
        _ => println!(rt;
            "refused, answer 11: the rule is always true, every player has this badge"
        ),
    }
}

// What can't be written is let go.
fn main(rt: HostRuntime) {
    let mut m = [0; LINE_WORDS];
    let mut p = [0; LINE_WORDS];
    let mut t = [0; LINE_WORDS];
    let _ = match read_question(&mut rt.stdin(), &mut m, &mut p, &mut t) {
        None => println!(rt; "unreadable"),
        Some(asked) => {
            let cap = asked.budget;
            let reviewed = review(&m[..asked.matcher], &p[..asked.pattern], cap.cast_signed());
            say_answer(&rt, cap, reviewed)
        }
    };
}
