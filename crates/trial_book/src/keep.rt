// What is asked of a book, done with its bytes in memory and then in the file.
use crate::disc::Book;
use crate::line::{print_rule, tell};
use book::adding::add;
use book::lookup::{read, show};
use book::testing::test;
use book::totals::total;
use book::withdrawal::withdraw;
use book_blocks::fault::Fault;
use book_blocks::form::LONGEST;
use book_blocks::reading::Head;
use book_blocks::writing::Entry;
use tests::rule_refused_in;
use words::dialect::FIRST_PLACES;

#[derive(Clone, Copy, PartialEq, Eq)]
pub enum Command {
    List,
    Add,
    Withdraw,
    Check,
    Show,
}

impl From<usize> for Command {
    fn from(number: usize) -> Command {
        match number {
            0 => Command::List,
            1 => Command::Add,
            2 => Command::Withdraw,
            3 => Command::Check,
            _ => Command::Show,
        }
    }
}

impl Command {
    pub(crate) fn is_change(self) -> bool {
        matches!(self, Command::Add | Command::Withdraw)
    }
}

// What is asked: a command, and the rule or the badge that it is about.
#[derive(Clone, Copy)]
pub struct Request<'a> {
    pub command: Command,
    pub entry: Entry<'a>,
}

// What a block says of its rule, whose words stand together, the matcher's first.
fn print_head(rt: &impl Print, badge: u16, head: Head, words: &[i32]) {
    let (matcher, behind) = words.split_at(head.matcher.min(words.len()));
    let (pattern, _) = behind.split_at(head.pattern.min(behind.len()));
    let entry = Entry {
        version: head.version,
        badge,
        dialect: head.dialect,
        matcher,
        pattern,
    };
    print_rule(rt, entry);
}

fn refuse(rt: &impl Print, fault: Fault) {
    tell(rt, "refused", u64::from(fault.number()), 0);
}

// A refusal of an add: with 15, review's answer and place where the rule is at fault in its dialect.
fn refuse_add(rt: &impl Print, fault: Fault, e: Entry) {
    if fault == Fault::Form {
        let firsts = e.dialect == FIRST_PLACES;
        if let Err(refusal) = rule_refused_in(firsts, e.matcher, e.pattern) {
            tell(
                rt,
                "rule",
                u64::from(refusal.answer()),
                refusal.place() as u64,
            );
            return;
        }
    }
    refuse(rt, fault);
}

impl Book<'_> {
    // The rule of a block, unless it is withdrawn.
    fn print_block(&self, rt: &impl Print, k: usize) {
        let mut words = [0i32; LONGEST];
        if let Ok(Some(shown)) = show(self.bytes, k, &mut words) {
            print_head(rt, shown.badge, shown.head, &words);
        }
    }

    fn list(&self, rt: &impl Print) {
        tell(rt, "done", 0, 0);
        for k in 0..self.used() {
            self.print_block(rt, k);
        }
    }

    fn show_badge(&self, rt: &impl Print, badge: u16) {
        let mut words = [0i32; LONGEST];
        match read(self.bytes, self.used(), badge, &mut words) {
            Ok(Some(head)) => {
                tell(rt, "done", 0, 0);
                print_head(rt, badge, head, &words);
            }
            _ => tell(rt, "none", 0, 0),
        }
    }

    fn check(&self, rt: &impl Print) {
        let number = total(self.bytes, self.used()).unwrap_or(0);
        tell(rt, "good", number as u64, self.used() as u64);
    }

    // The block that was changed goes to the file.
    fn keep(&self, rt: &impl Print, block: usize) {
        let word = if self.store(block) {
            "done"
        } else {
            "unwritten"
        };
        tell(rt, word, block as u64, 0);
    }

    fn add(&mut self, rt: &impl Print, e: Entry) {
        let used = self.used();
        match add(self.bytes, used, e) {
            Ok(changed) => self.keep(rt, changed.block),
            Err(fault) => refuse_add(rt, fault, e),
        }
    }

    fn withdraw(&mut self, rt: &impl Print, badge: u16) {
        let used = self.used();
        match withdraw(self.bytes, used, badge) {
            Ok(changed) => self.keep(rt, changed.block),
            Err(fault) => refuse(rt, fault),
        }
    }

    // What is asked of a book that was tested.
    fn obey(&mut self, rt: &impl Print, asked: Request) {
        let badge = asked.entry.badge;
        match asked.command {
            Command::List => self.list(rt),
            Command::Add => self.add(rt, asked.entry),
            Command::Withdraw => self.withdraw(rt, badge),
            Command::Check => self.check(rt),
            Command::Show => self.show_badge(rt, badge),
        }
    }

    // A book that is at fault is left alone, whatever is asked.
    pub(crate) fn answer(&mut self, rt: &impl Print, asked: Request) {
        let used = self.used();
        let behind = self.behind();
        match test(self.bytes, used) {
            Err(refused) => {
                let number = refused.fault.number();
                tell(rt, "block", u64::from(number), refused.block as u64);
            }
            Ok(()) if behind != 0 => tell(rt, "part", used as u64, behind as u64),
            Ok(()) => self.obey(rt, asked),
        }
    }
}
