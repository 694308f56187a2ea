// Writes the rule and the units of the game on standard input in Egison's notation: line 1 is the matcher, line 2 the pattern, line 3 the units, if any.
#![tactic(auto)]

use notation_write::write_rule;
use std::io;
use streams::Onward;
use test_target::test_target;
use tests::{Refusal, rule_refused};
use text_ask::LINE_WORDS;
use text_ask::question::read_question;

// The bytes of a page: the longest text of a rule and its units is shorter.
const PAGE: usize = 32768;

// The words of a game.
#[derive(Clone, Copy)]
struct Game<'a> {
    matcher: &'a [i32],
    pattern: &'a [i32],
    units: &'a [i32],
}

impl Game<'_> {
    // No units at all are no fault.
    fn judged(self) -> Result<(), Refusal> {
        rule_refused(self.matcher, self.pattern)?;
        if !self.units.is_empty() {
            test_target(self.units).map_err(Refusal::Target)?;
        }
        Ok(())
    }

    // Its notation, or what is told in its stead.
    fn explain(self, rt: &impl Print) -> io::Result<()> {
        if let Err(refusal) = self.judged() {
            return println!(rt;
                "refused, answer {}, place {}",
                refusal.answer(),
                refusal.place()
            );
        }
        let mut page = [0; PAGE];
        let n = write_rule(self.matcher, self.pattern, self.units, &mut page).min(PAGE);
        rt.write_all(&page[..n])?;
        println!(rt; "")
    }
}

// What can't be written is let go, and what comes after it is tried.
fn main(rt: HostRuntime) {
    let mut m = [0; LINE_WORDS];
    let mut p = [0; LINE_WORDS];
    let mut t = [0; LINE_WORDS];
    let _ = match read_question(&mut rt.stdin(), &mut m, &mut p, &mut t) {
        None => println!(rt; "unreadable"),
        Some(asked) => {
            let game = Game {
                matcher: &m[..asked.matcher],
                pattern: &p[..asked.pattern],
                units: &t[..asked.target],
            };
            game.explain(&Onward { to: &rt })
        }
    };
}
