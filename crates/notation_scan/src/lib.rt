// The tokens of a text in Egison's notation, one by one, each with its place: the longest token that begins here, with free white space and
// comments. What a character is, and what it does to a token that was begun, stands in two tables.
#![tactic(auto)]

ghost use Rattle.std.specs.Prelude.{◌≡◌, position};
ghost use Rattle.std.proofs.Math.Seq.{slice};
ghost use Rattle.notation_rules.specs.Letters.{same_word};
ghost use Rattle.notation_scan.specs.Scanned.{char_of, next_of, begin_of, final_of, more_of, words, reserved_of, word_kind, name_kind, advanced, whole_at, finished, token, nothing, scanned};

// The tokens' numbers where they are not those of the printed marks and signs (0 to 20). What cannot be read has the number of its cause more.
// No enum: the tables of specs/Scanned and notation_same's `token_of`, of which the theorem `tokens_same` speaks, count by these numbers.
pub const BINDS: u32 = 21;

pub const USES: u32 = 22;

pub const NUMBER: u32 = 23;

pub const END: u32 = 24;

const NO_SIGN: u32 = 25;

const NO_NUMBER: u32 = 32;

// The largest number of a text, behind a minus.
const LARGEST: u64 = 2147483648;

// A token: its number, what it counts where it is a number, and where it begins, where its name begins behind a `$`, and where it ends.
#[derive(Clone, Copy)]
pub struct Token {
    pub kind: u32,
    pub value: u64,
    pub from: usize,
    pub name: usize,
    pub to: usize,
}

// What was begun: one of the states below, the token of its first character, the number so far, where it begins, and its second character.
// No enum of states: the tables `nexts` and `finals` of specs/Scanned and notation_same's `State` count by these numbers.
#[derive(Clone, Copy)]
pub struct Begun {
    pub state: u32,
    pub kind: u32,
    pub value: u64,
    pub from: usize,
    pub name: usize,
}

const BLANK: u32 = 0;

const COMMENT: u32 = 1;

const DIGITS: u32 = 2;

const WORD: u32 = 4;

const NAME: u32 = 6;

const FULL: u32 = 10;

// In an entry of CHARS what a character is stands below this, and the token that it makes above.
const SPLIT: u32 = 16;

// What a character can be, and the states.
const CLASSES: u32 = 10;

const STATES: u32 = 11;

// A character: 0 white space, 1 the end of a line, 2 `$`, 3 `_`, 4 a digit, 5 a letter, 6 `+`, 7 `:`, 8 `-`, 9 another; and 16 times the token that
// it makes, twice where it is `+` or `:`. Packed as `chars` of specs/Scanned has them, of which notation_same's `Told` speaks.
const CHARS: [u32; 256] = [
    409, 409, 409, 409, 409, 409, 409, 409, 409, 400, 401, 409, 409, 400, 409, 409, 409, 409, 409,
    409, 409, 409, 409, 409, 409, 409, 409, 409, 409, 409, 409, 409, 400, 41, 409, 25, 402, 409,
    313, 409, 105, 121, 409, 294, 89, 408, 409, 409, 404, 404, 404, 404, 404, 404, 404, 404, 404,
    404, 279, 409, 409, 409, 409, 409, 409, 405, 405, 405, 405, 405, 405, 405, 405, 405, 405, 405,
    405, 405, 405, 405, 405, 405, 405, 405, 405, 405, 405, 405, 405, 405, 405, 137, 409, 153, 409,
    3, 409, 405, 405, 405, 405, 405, 405, 405, 405, 405, 405, 405, 405, 405, 405, 405, 405, 405,
    405, 405, 405, 405, 405, 405, 405, 405, 405, 409, 329, 409, 409, 409, 409, 409, 409, 409, 409,
    409, 409, 409, 409, 409, 409, 409, 409, 409, 409, 409, 409, 409, 409, 409, 409, 409, 409, 409,
    409, 409, 409, 409, 409, 409, 409, 409, 409, 409, 409, 409, 409, 409, 409, 409, 409, 409, 409,
    409, 409, 409, 409, 409, 409, 409, 409, 409, 409, 409, 409, 409, 409, 409, 409, 409, 409, 409,
    409, 409, 409, 409, 409, 409, 409, 409, 409, 409, 409, 409, 409, 409, 409, 409, 409, 409, 409,
    409, 409, 409, 409, 409, 409, 409, 409, 409, 409, 409, 409, 409, 409, 409, 409, 409, 409, 409,
    409, 409, 409, 409, 409, 409, 409, 409, 409, 409, 409, 409, 409, 409, 409, 409, 409, 409, 409,
    409, 409, 409, 409, 409, 409, 409, 409, 409,
];

// What was begun with one more character, ten to a state: nothing, a comment, digits, (none), a word, `$`, `$` and a name, `+`, `:`, `-`, a token that
// is whole. 15 is no state: the character begins something new.
const NEXT: [u32; 110] = [
    15, 15, 15, 15, 15, 15, 15, 15, 15, 15, 1, 15, 1, 1, 1, 1, 1, 1, 1, 1, 15, 15, 15, 15, 2, 15,
    15, 15, 15, 15, 15, 15, 15, 15, 15, 15, 15, 15, 15, 15, 15, 15, 15, 4, 4, 4, 15, 15, 15, 15,
    15, 15, 15, 15, 15, 6, 15, 15, 15, 15, 15, 15, 15, 6, 6, 6, 15, 15, 15, 15, 15, 15, 15, 15, 15,
    15, 10, 15, 15, 15, 15, 15, 15, 15, 15, 15, 15, 10, 15, 15, 15, 15, 15, 15, 15, 15, 15, 15, 1,
    15, 15, 15, 15, 15, 15, 15, 15, 15, 15, 15,
];

const STOP: u32 = 15;

// What a character begins.
const BEGIN: [u32; 10] = [0, 0, 5, 10, 2, 4, 7, 8, 9, 10];

// What was begun as a token.
const FINAL: [u32; 11] = [24, 24, 23, 24, 22, 25, 21, 3, 25, 4, 24];

#[tactic(auto, unfolding(crate::specs::Scanned::char_of))]
fn char_of(c: u8) -> u32
    ensures { result ≡ char_of c }
{
    CHARS[usize::from(c)]
}

#[tactic(auto, unfolding(crate::specs::Scanned::next_of))]
fn next_of(state: u32, c: u32) -> u32
    ensures { result ≡ next_of state c }
{
    NEXT[((state % STATES * CLASSES + c % SPLIT % CLASSES) % (STATES * CLASSES)) as usize]
}

#[tactic(auto, unfolding(crate::specs::Scanned::begin_of))]
fn begin_of(c: u32) -> u32
    ensures { result ≡ begin_of c }
{
    BEGIN[(c % SPLIT % CLASSES) as usize]
}

#[tactic(auto, unfolding(crate::specs::Scanned::final_of))]
fn final_of(state: u32) -> u32
    ensures { result ≡ final_of state }
{
    FINAL[(state % STATES) as usize]
}

// A number with one more digit; one that is too large stays so.
#[tactic(auto, unfolding(crate::specs::Scanned::more_of))]
fn more(value: u64, c: u8) -> u64
    ensures { result ≡ more_of value c }
{
    if LARGEST < value {
        return value;
    }
    value * 10 + u64::from(c % b'0')
}

// A part of a text; nothing where it has none.
pub fn part(s: &[u8], a: usize, e: usize) -> &[u8]
    ensures { result.now ≡ slice a e s.now }
{
    s.get(a..e.min(s.len())).unwrap_or(&[])
}

// The words of the notation, in the order of their marks.
const WORDS: [&[u8]; 7] = [
    b"something",
    b"integer",
    b"list",
    b"multiset",
    b"matchAll",
    b"as",
    b"with",
];

// The mark of the first of them.
const SOMETHING: u32 = 10;

// The place of a word among these.
#[tactic(auto, unfolding(notation_rules::specs::Letters::spell_mark))]
fn place_of(w: &[u8]) -> Option<usize>
    ensures { result ≡ position (λ x. same_word x w.now) words }
{
    WORDS.iter().position(|word| *word == w)
}

// The mark that a word is, where it is no name.
#[tactic(auto, unfolding(crate::specs::Scanned::reserved_of))]
fn reserved(w: &[u8]) -> Option<u32>
    ensures { result ≡ reserved_of w.now }
{
    let place = place_of(w)?;
    Some(SOMETHING + place as u32)
}

// A word's token.
#[tactic(auto, unfolding(crate::specs::Scanned::word_kind))]
fn word_kind(w: &[u8]) -> u32
    ensures { result ≡ word_kind w.now }
{
    reserved(w).unwrap_or(USES)
}

// The token of `$` and a name, which is no word of the notation.
#[tactic(auto, unfolding(crate::specs::Scanned::name_kind))]
fn name_kind(w: &[u8]) -> u32
    ensures { result ≡ name_kind w.now }
{
    if reserved(w).is_none() {
        BINDS
    } else {
        NO_SIGN
    }
}

impl Begun {
    // Nothing, from an index on.
    #[tactic(auto, unfolding(crate::specs::Scanned::nothing))]
    fn nothing(at: usize) -> Begun
        ensures { result ≡ nothing at }
    {
        Begun {
            state: BLANK,
            kind: END,
            value: 0,
            from: at,
            name: at,
        }
    }

    // The number of the token that ends here.
    #[tactic(auto, unfolding(crate::specs::Scanned::finished))]
    fn finish(self, text: &[u8], to: usize) -> u32
        ensures { result ≡ finished text.now self to }
    {
        match self.state {
            FULL => self.kind,
            DIGITS => if LARGEST < self.value {
                NO_NUMBER
            } else {
                NUMBER
            },
            WORD => word_kind(part(text, self.from, to)),
            NAME => name_kind(part(text, self.name, to)),
            state => final_of(state),
        }
    }

    // The token that ends here.
    #[tactic(auto, unfolding(crate::specs::Scanned::token))]
    fn token(self, text: &[u8], to: usize) -> Token
        ensures { result ≡ token text.now self to }
    {
        Token {
            kind: self.finish(text, to),
            value: self.value,
            from: self.from,
            name: self.name,
            to,
        }
    }

    // Whether this is a token that ends before this character.
    #[tactic(auto, unfolding(crate::specs::Scanned::whole_at))]
    fn is_whole(self, c: u8) -> bool
        ensures { result ≡ whole_at self c }
    {
        COMMENT < self.state && next_of(self.state, char_of(c)) == STOP
    }

    // What is begun with this character: it goes on, or it is anew. The character stands at i, and the next at e.
    #[tactic(auto, unfolding(crate::specs::Scanned::advanced))]
    fn advance(self, c: u8, i: usize, e: usize) -> Begun
        ensures { result ≡ advanced self c i e }
    {
        let k = char_of(c);
        let n = next_of(self.state, k);
        if n == STOP {
            return Begun {
                state: begin_of(k),
                kind: k / SPLIT,
                value: more(0, c),
                from: i,
                name: e,
            };
        }
        Begun {
            state: n,
            value: more(self.value, c),
            ..self
        }
    }
}

// The first token from an index on, or the end of the text.
#[tactic(auto, using(crate::proofs::Laws::scan_rules))]
pub fn scan(text: &[u8], at: usize) -> Token
    ensures { result ≡ scanned text.now at }
{
    let end = at.max(text.len());
    let mut begun = Begun::nothing(at);
    for i in at..end {
        let c = text[i];
        if begun.is_whole(c) {
            return begun.token(text, i);
        }
        begun = begun.advance(c, i, i + 1);
    }
    begun.token(text, end)
}
