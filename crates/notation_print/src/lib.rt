// A rule's tokens as characters, put one behind the other on a lent page. A page that is full takes no more.
#![tactic(auto)]

ghost use Rattle.std.specs.Prelude.{◌≡◌, ◌+◌, ◌<◌, [], ◌∷◌, cond, ltb};
ghost use Rattle.notation_rules.specs.Letters.{decimal};
ghost use Rattle.notation_print.specs.Inks.{mark_of, name_of, joins as Inks·joins, after as Inks·after, spelt, spaced_on, sheet, draw};
ghost use Rattle.notation_print.specs.Kinds.{number_of, asked};
ghost use Rattle.notation_print.specs.Pens.{page_of, sheet_of, Stays, Writes};

// A token: a mark or a sign; or, with a value, a binding and a use, which come with the variable, and a number with itself.
#[derive(Clone, Copy, PartialEq, Eq)]
pub enum Kind {
    Underscore,
    Hash,
    Bang,
    Plus,
    Minus,
    Comma,
    Opening,
    Closing,
    Left,
    Right,
    Something,
    Integer,
    List,
    Multiset,
    MatchAll,
    As,
    With,
    Cons,
    Join,
    And,
    Or,
    Binds,
    Uses,
    Number,
}

// What the last token asks of the next: to stand at it, a space, a space (and it was a name), or a space but before a number.
#[derive(Clone, Copy, PartialEq, Eq)]
pub enum Asks {
    AtOnce,
    Apart,
    Named,
    Negative,
}

// By the numbers of `asked`; another asks for a space, as most tokens do.
impl From<u32> for Asks {
    ghost from_gives = { λ number asks. asked asks ≡ cond (ltb number 4) number 1 };

    #[tactic(auto, unfolding(crate::specs::Kinds::asked))]
    fn from(number: u32) -> Asks {
        match number {
            0 => Asks::AtOnce,
            2 => Asks::Named,
            3 => Asks::Negative,
            _ => Asks::Apart,
        }
    }
}

// The characters of the marks in the order of their numbers, then of the signs.
const MARKS: [&[u8]; 21] = [
    b"_",
    b"#",
    b"!",
    b"+",
    b"-",
    b",",
    b"(",
    b")",
    b"[",
    b"]",
    b"somethin", // `spelt` puts its last letter behind it
    b"integer",
    b"list",
    b"multiset",
    b"matchAll",
    b"as",
    b"with",
    b"::",
    b"++",
    b"&",
    b"|",
];

// The characters of a mark or a sign; `something` has one more.
#[tactic(auto, using(crate::proofs::Laws::mark_at), unfolding(crate::specs::Inks::mark_of, crate::specs::Kinds::number_of))]
fn mark_of(kind: Kind) -> &'static [u8]
    ensures { result.now ≡ mark_of (number_of kind) }
{
    MARKS[kind as usize % MARKS.len()]
}

// A variable's letter.
#[tactic(auto, unfolding(crate::specs::Inks::name_of))]
fn name(v: u32) -> u8
    ensures { result ≡ name_of v }
{
    b'a' + ((v % 26 + 23) % 26) as u8
}

// Whether a token stands at the last one without a space.
#[tactic(auto, unfolding(crate::specs::Inks::joins, crate::specs::Kinds::asked, crate::specs::Kinds::number_of))]
fn joins(last: Asks, kind: Kind) -> bool
    ensures { result ≡ Inks·joins (asked last) (number_of kind) }
{
    if last == Asks::AtOnce || matches!(kind, Kind::Comma | Kind::Closing | Kind::Right) {
        return true;
    }
    last == Asks::Negative && kind == Kind::Number
}

// What a token asks of the next.
#[tactic(auto, unfolding(crate::specs::Inks::after, crate::specs::Kinds::asked, crate::specs::Kinds::number_of))]
fn after(last: Asks, kind: Kind) -> Asks
    ensures { asked result ≡ Inks·after (asked last) (number_of kind) }
{
    match kind {
        Kind::Hash | Kind::Bang | Kind::Opening | Kind::Left => Asks::AtOnce,
        Kind::Uses => Asks::Named,
        Kind::Minus if last != Asks::Named => Asks::Negative,
        _ => Asks::Apart,
    }
}

// A pen on a lent page: where its next character goes, and what its last token asks.
#[derive(Drop)]
pub struct Pen<'a> {
    pub page: &'a mut [u8],
    pub at: usize,
    pub last: Asks,
}

impl<'a> Pen<'a> {
    // At the start of a page.
    #[tactic(auto, unfolding(crate::specs::Kinds::asked))]
    pub fn new(page: &'a mut [u8]) -> Pen<'a>
        ensures same_page { result.page.ghost_name ≡ page.entry.ghost_name }
        ensures at_start { sheet_of result ≡ sheet page.old 0 0 }
    {
        Pen {
            page,
            at: 0,
            last: Asks::AtOnce,
        }
    }

    // One character.
    #[tactic(auto, unfolding(crate::specs::Pages::page, crate::specs::Pages::letter, crate::specs::Pages::letters))]
    fn letter(&mut self, c: u8)
        ensures { Writes self.old self.new (c ∷ []) }
    {
        if self.at < self.page.len() {
            self.page[self.at] = c;
            self.at += 1;
        }
    }

    fn letters(&mut self, cs: &[u8])
        ensures { Writes self.old self.new cs.now }
    {
        for c in cs {
            self.letter(*c);
        }
    }

    // A number's digits.
    #[tactic(auto, using(crate::proofs::Laws::digits_rules))]
    fn digits(&mut self, n: u64)
        ensures { Writes self.old self.new (decimal n []) }
    {
        if n < 10 {
            self.letter(b'0' + n as u8);
        } else {
            self.digits(n / 10);
            self.letter(b'0' + (n % 10) as u8);
        }
    }

    // A token's characters.
    #[tactic(auto, unfolding(crate::specs::Inks::spelt, crate::specs::Kinds::number_of, crate::specs::Pages::letters))]
    fn spell(&mut self, kind: Kind, value: u32)
        ensures { Writes self.old self.new (spelt (number_of kind) value) }
    {
        match kind {
            Kind::Number => self.digits(u64::from(value)),
            Kind::Uses => self.letter(name(value)),
            Kind::Binds => {
                self.letter(b'$');
                self.letter(name(value));
            }
            Kind::Something => {
                self.letters(mark_of(kind));
                self.letter(b'g');
            }
            _ => self.letters(mark_of(kind)),
        }
    }

    // The space before a token, where there is one.
    #[tactic(auto, unfolding(crate::specs::Inks::spaced_on, crate::specs::Pages::letters))]
    fn space(&mut self, kind: Kind)
        ensures same_page { Stays self.old self.new }
        ensures same_last { self.new.last ≡ self.old.last }
        ensures spaced { page_of self.new ≡ spaced_on (page_of self.old) (asked self.old.last) (number_of kind) }
    {
        if !joins(self.last, kind) {
            self.letter(b' ');
        }
    }

    // A token, behind what stands on the page.
    #[tactic(auto, unfolding(crate::specs::Inks::sheet, crate::specs::Inks::draw))]
    pub fn put(&mut self, kind: Kind, value: u32)
        ensures same_page { Stays self.old self.new }
        ensures drawn { sheet_of self.new ≡ draw (sheet_of self.old) (number_of kind) value }
    {
        self.space(kind);
        self.spell(kind, value);
        self.last = after(self.last, kind);
    }
}
