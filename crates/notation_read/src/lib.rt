// A rule in Egison's notation, read: its words, or the line, the column and the cause of what cannot be read.
#![tactic(auto)]

ghost use Rattle.std.specs.Prelude.{◌≡◌, ◌≤◌, ◌<◌, ◌^◌, ◌+◌, length};
ghost use Rattle.notation_rules.specs.Places.{line, column};
ghost use Rattle.notation_read.specs.Read.{span_of, name_of, found, bound_by, bound_later, binding_of, using_of, resolved, no_names, adding, ran_to, stopped, ran, number_of, numbered, unreadable, told, reading};

use notation_scan::{BINDS, END, Token, USES, part, scan};
use notation_step::{Automaton, FRAMES, Stand, WRONG};

// What the text does that cannot be read.
#[derive(Clone, Copy, Debug, PartialEq, Eq)]
pub enum Cause {
    UnknownSign = 1,
    Misplaced = 2,
    CutShort = 3,
    BracketOpen = 4,
    UnknownName = 5,
    BoundTwice = 6,
    UsedBefore = 7,
    OutOfRange = 8,
    OverLimit = 9,
}

impl Cause {
    // The cause of a number that the automaton tells.
    #[tactic(auto, unfolding(crate::specs::Read::numbered))]
    fn numbered(number: u32) -> Cause
        ensures { result ≡ numbered number }
    {
        match number {
            1 => Cause::UnknownSign,
            2 => Cause::Misplaced,
            3 => Cause::CutShort,
            4 => Cause::BracketOpen,
            5 => Cause::UnknownName,
            6 => Cause::BoundTwice,
            7 => Cause::UsedBefore,
            8 => Cause::OutOfRange,
            _ => Cause::OverLimit,
        }
    }
}

const VARIABLES: usize = 16;

// Where a name stands in the text.
#[derive(Clone, Copy)]
pub struct Span {
    pub from: usize,
    pub to: usize,
}

const NOWHERE: Span = Span { from: 0, to: 0 };

// The names that are bound so far, each with the number of its variable: a table and a count, since the library has no heap.
#[derive(Clone, Copy)]
pub struct Names {
    pub spans: [Span; 16],
    pub count: usize,
}

// A token's number, and what it counts: a name counts as its variable. The kind is a number, since the table `actions` of notation_step's specs has a column
// for each, and one that is refused has its cause's number more.
#[derive(Clone, Copy)]
pub struct Named {
    pub kind: u32,
    pub value: u64,
}

impl Named {
    // A token that is refused.
    #[tactic(auto, unfolding(crate::specs::Read::number_of))]
    fn refused(cause: Cause) -> Named
        ensures { result ≡ record { kind = 24 + number_of cause; value = 0 } }
    {
        Named {
            kind: WRONG + cause as u32,
            value: 0,
        }
    }
}

impl Names {
    #[tactic(auto, unfolding(crate::specs::Read::no_names))]
    fn none() -> Names
        ensures { result ≡ no_names }
    {
        Names {
            spans: [NOWHERE; 16],
            count: 0,
        }
    }

    #[tactic(auto, unfolding(crate::specs::Read::span_of))]
    fn span(&self, k: usize) -> Span
        ensures { result ≡ span_of self.now.spans k }
    {
        if k < VARIABLES {
            self.spans[k]
        } else {
            NOWHERE
        }
    }

    #[tactic(auto, unfolding(crate::specs::Read::name_of))]
    fn name<'a>(&self, text: &'a [u8], k: usize) -> &'a [u8]
        ensures { result.now ≡ name_of text.now self.now.spans k }
    {
        let span = self.span(k);
        part(text, span.from, span.to)
    }

    // The variable that has this name.
    #[tactic(auto, using(notation_scan::proofs::Laws::same_is, crate::proofs::Laws::find_next), unfolding(crate::specs::Read::found))]
    fn find(&self, text: &[u8], w: &[u8]) -> Option<usize>
        ensures { result ≡ found text.now self.now.spans self.now.count w.now }
    {
        for k in (0..self.count).rev() {
            if self.name(text, k) == w {
                return Some(k);
            }
        }
        None
    }

    // `$` and a name: the next variable, if the name is new and there is room.
    #[tactic(auto, unfolding(crate::specs::Read::binding_of, crate::specs::Read::binding_by, crate::specs::Read::number_of))]
    fn binding(&self, text: &[u8], t: Token) -> Named
        ensures { result ≡ binding_of text.now t self.now }
    {
        match self.find(text, part(text, t.name, t.to)) {
            Some(_) => Named::refused(Cause::BoundTwice),
            None if self.count < VARIABLES => Named {
                kind: BINDS,
                value: self.count as u64,
            },
            None => Named::refused(Cause::OverLimit),
        }
    }

    // A name by itself: the variable that has it.
    #[tactic(auto, unfolding(crate::specs::Read::using_of, crate::specs::Read::using_by, crate::specs::Read::number_of))]
    fn using(&self, text: &[u8], t: Token) -> Named
        ensures { result ≡ using_of text.now t self.now }
    {
        let w = part(text, t.from, t.to);
        match self.find(text, w) {
            Some(k) => Named {
                kind: USES,
                value: k as u64,
            },
            None if bound_later(text, t.to, w) => Named::refused(Cause::UsedBefore),
            None => Named::refused(Cause::UnknownName),
        }
    }

    #[tactic(auto, unfolding(crate::specs::Read::resolved))]
    fn resolve(&self, text: &[u8], t: Token) -> Named
        ensures { result ≡ resolved text.now t self.now }
    {
        match t.kind {
            BINDS => self.binding(text, t),
            USES => self.using(text, t),
            kind => Named {
                kind,
                value: t.value,
            },
        }
    }

    // One variable more, where a token binds it.
    #[tactic(auto, unfolding(crate::specs::Read::adding))]
    fn add(&mut self, kind: u32, t: Token)
        ensures { self.new ≡ adding self.old kind t }
    {
        if kind == BINDS && self.count < VARIABLES {
            self.spans[self.count] = Span {
                from: t.name,
                to: t.to,
            };
            self.count += 1;
        }
    }
}

// Whether a token binds a name.
#[tactic(auto, using(notation_scan::proofs::Laws::same_is), unfolding(crate::specs::Read::bound_by))]
fn bound_by(text: &[u8], t: Token, w: &[u8]) -> bool
    ensures { result ≡ bound_by text.now w.now t }
{
    t.kind == BINDS && part(text, t.name, t.to) == w
}

// Whether a name is bound from an index on. A text has no more tokens than characters.
#[tactic(auto, using(crate::proofs::Laws::later_next), unfolding(crate::specs::Read::bound_later))]
fn bound_later(text: &[u8], from: usize, w: &[u8]) -> bool
    ensures { result ≡ bound_later text.now w.now (length text.now) from }
{
    let mut at = from;
    for turn in 0..text.len() {
        let t = scan(text, at);
        if t.kind == END {
            return false;
        }
        if bound_by(text, t, w) {
            return true;
        }
        at = t.to;
    }
    false
}

// Where the words of a rule that was read lie: those of its units, if it has any, stand first, those of its matcher and of its pattern begin here, and
// these end.
#[derive(Clone, Copy, Debug, PartialEq, Eq)]
pub struct Parts {
    pub matcher: usize,
    pub pattern: usize,
    pub end: usize,
}

// Why a text is refused, and at which character.
#[derive(Clone, Copy)]
pub struct Fault {
    pub cause: Cause,
    pub at: usize,
}

// A text that ends here: its parts, or why it may not, where there is a cause.
#[tactic(auto, unfolding(crate::specs::Read::ran_to))]
fn ran_to(s: Stand, cause: u32, at: usize) -> Result<Parts, Fault>
    ensures { result ≡ ran_to s cause at }
{
    if cause != 0 {
        return Err(Fault {
            cause: Cause::numbered(cause),
            at,
        });
    }
    Ok(Parts {
        matcher: s.matcher,
        pattern: s.pattern,
        end: s.len,
    })
}

// Reads a text token by token; the words go to the slice as far as it reaches.
fn run(text: &[u8], words: &mut [i32]) -> Result<Parts, Fault>
    requires { length text.now ≤ 16384 }
    ensures { stopped result words.new ≡ ran text.now words.old }
{
    let mut automaton = Automaton::new();
    let mut names = Names::none();
    let mut at: usize = 0;
    for turn in 0..text.len() {
        let t = scan(text, at);
        if t.kind == END {
            break;
        }
        let n = names.resolve(text, t);
        names.add(n.kind, t);
        automaton.step(words, n.kind, n.value);
        let cause = automaton.stand.cause;
        if cause != 0 {
            return Err(Fault {
                cause: Cause::numbered(cause),
                at: t.from,
            });
        }
        at = t.to;
    }
    ran_to(automaton.stand, automaton.finish(), text.len())
}

// Why a text is not a rule: it has more characters than may wait at once, or the one at a line and a column, each from 1, is at fault.
#[derive(Clone, Copy, Debug, PartialEq, Eq)]
pub enum Refusal {
    TooLong,
    Unreadable {
        cause: Cause,
        line: usize,
        column: usize,
    },
}

// The line and the column of a character, each from 1.
#[tactic(auto, using(crate::proofs::Laws::place_rules))]
fn place_of(text: &[u8], at: usize) -> (usize, usize)
    ensures line { result.0 ≡ line text.now at }
    ensures column { result.1 ≡ column text.now at }
{
    let mut line = 1;
    let mut column = 1;
    let before = &text[..at.min(text.len())];
    for c in before {
        if *c == b'\n' {
            line += 1;
            column = 1;
        } else {
            column += 1;
        }
    }
    (line, column)
}

#[tactic(auto, unfolding(crate::specs::Read::unreadable))]
fn unreadable(text: &[u8], fault: Fault) -> Refusal
    ensures { result ≡ unreadable text.now fault }
{
    let (line, column) = place_of(text, fault.at);
    Refusal::Unreadable {
        cause: fault.cause,
        line,
        column,
    }
}

// Reads a rule's text. The words of its units, if it has any, of its matcher and of its pattern go to the slice, as far as it reaches, one behind the
// other. A refusal writes nothing.
#[tactic(auto, using(crate::proofs::Laws::rule_long, crate::proofs::Laws::rule_refused, crate::proofs::Laws::rule_read))]
pub fn read_rule(text: &[u8], words: &mut [i32]) -> Result<Parts, Refusal>
    ensures { told result words.new ≡ reading text.now words.old }
{
    if FRAMES < text.len() {
        return Err(Refusal::TooLong);
    }
    match run(text, &mut [0i32; 1]) {
        Err(fault) => Err(unreadable(text, fault)),
        Ok(parts) => {
            let _ = run(text, words);
            Ok(parts)
        }
    }
}
