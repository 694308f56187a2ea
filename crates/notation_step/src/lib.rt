// The automaton that reads a rule's tokens: where it stands, what waits for its end, and the words so far. A tag is put before the words of its first
// part once its sign or its bracket's end is read. What each place does with each token stands in one table.
#![tactic(auto)]

ghost use Rattle.std.specs.Prelude.{◌≡◌, ◌<◌, ◌≤◌, ◌^◌, ◌+◌, ◌-◌, ◌/◌, ◌%◌, replicate, option_map, Some};
ghost use Rattle.std.specs.Int.{w32};
ghost use Rattle.std.proofs.Common.{to_z};
ghost use Rattle.notation_step.specs.Stepped.{nothing, first, inserted, puts, one_lower, one_higher, mode_of, zero_of, putting, pushing, bits_of, waiting_at, put_at, reach_of, shade_of, row_of, action_of, settled, deed_of, refused, start_of, piled, view, appending, too_large, signing, heading, bare_by, next_place, tag_bits, tag_word, mode_bits, crowded_by, closing, comma_stand, comma_stack, sectioned, taking, stepped, end_of};

use std::mem;

// Where the automaton stands: the place; how many wait; the words so far, and where those of what was read last begin; where the matcher's and the
// pattern's begin; and why the text is refused, 0 where it is not. Places and causes are numbers, and how many wait stands here, since the tables `rows` and
// `ends` of the specs count so, and `At`, `Follows` and `Finished` of notation_grammar, on which the theorem `simulates` rests, speak of these fields.
#[derive(Clone, Copy)]
pub struct Stand {
    pub place: u32,
    pub top: usize,
    pub len: usize,
    pub start: usize,
    pub matcher: usize,
    pub pattern: usize,
    pub cause: u32,
}

impl Stand {
    // The same, refused.
    #[tactic(auto, unfolding(crate::specs::Stepped::refused))]
    fn refused(self, cause: u32) -> Stand
        ensures { result ≡ refused self cause }
    {
        Stand { cause, ..self }
    }

    // Where the words of what is read begin: a tag begins them.
    #[tactic(auto, unfolding(crate::specs::Stepped::start_of, crate::specs::Stepped::one_higher))]
    fn start_of(self, tag: Option<u32>) -> usize
        ensures { result ≡ start_of self (one_higher tag) }
    {
        if tag.is_none() { self.start } else { self.len }
    }

    // The matcher or the pattern begins.
    #[tactic(auto, unfolding(crate::specs::Stepped::sectioned))]
    fn section(self, a: Action) -> Stand
        ensures { result ≡ sectioned self a.0 }
    {
        Stand {
            place: a.next_place(),
            matcher: self.pattern,
            pattern: self.len,
            cause: 0,
            ..self
        }
    }
}

// At most so many wait at once, in a text of as many characters.
pub const FRAMES: usize = 16384;

// What waits: how tight it is (0 a round bracket, 1 to 4 signs, 5 `list` and `multiset`, 8 a square bracket: numbers, since the table `actions` of the specs
// holds them); where its words begin; how many of its parts are read.
#[derive(Clone, Copy)]
pub struct Waiting {
    pub tight: usize,
    pub start: usize,
    pub parts: usize,
}

impl Waiting {
    // Whether a bracket's end has no words: that of a round bracket around one part.
    #[tactic(auto, unfolding(crate::specs::Stepped::bare_by))]
    fn is_bare(self) -> bool
        ensures { result ≡ bare_by self.tight self.parts }
    {
        self.tight == ROUND && self.parts == 0
    }

    // Whether a comma is one too many: a round bracket has at most four parts.
    #[tactic(auto, unfolding(crate::specs::Stepped::crowded_by))]
    fn is_crowded(self) -> bool
        ensures { result ≡ crowded_by self.tight self.parts }
    {
        self.tight == ROUND && 3 <= self.parts
    }
}

const NOTHING: Waiting = Waiting {
    tight: 0,
    start: 0,
    parts: 0,
};

pub type Stack = [Waiting; 16384];

// The automaton: what waits, in fixed memory since the library has no heap, and where it stands.
#[derive(Drop)]
pub struct Automaton {
    pub stack: Stack,
    pub stand: Stand,
}

const ROUND: usize = 0;

const SQUARE: usize = 8;

// The places. Three more rows of the table are places inside a bracket: 2 after a `[`, 5 and 6, 10, 21 after a part.
pub const START: u32 = 0;

const MATCHER_READ: u32 = 9;

const PATTERN_READ: u32 = 20;

// Before the first token.
const FIRST: Stand = Stand {
    place: START,
    top: 0,
    len: 0,
    start: 0,
    matcher: 0,
    pattern: 0,
    cause: 0,
};

// What a place does with a token, 24 to a row, by the bits that Action reads.
const ACTIONS: [u32; 528] = [
    0, 0, 0, 0, 0, 0, 0, 0, 0, 0, 0, 0, 0, 0, 9, 62, 0, 0, 0, 0, 0, 0, 0, 0, 0, 0, 0, 0, 25, 0,
    32777, 0, 294921, 0, 0, 0, 0, 0, 0, 0, 0, 0, 0, 0, 0, 0, 0, 4385, 0, 0, 0, 0, 25, 0, 32777, 0,
    294921, 549, 0, 0, 0, 0, 0, 0, 0, 0, 0, 0, 0, 0, 0, 4385, 0, 0, 0, 0, 0, 0, 0, 0, 0, 0, 0, 0,
    0, 0, 0, 0, 0, 0, 0, 0, 0, 0, 0, 8481, 0, 0, 0, 0, 0, 0, 0, 0, 0, 0, 0, 0, 0, 0, 0, 62, 0, 0,
    0, 0, 0, 0, 0, 0, 0, 0, 0, 0, 0, 12, 0, 0, 0, 547, 0, 0, 0, 0, 0, 0, 0, 0, 0, 0, 0, 0, 0, 0, 0,
    0, 0, 0, 0, 12, 0, 803, 0, 0, 0, 0, 0, 0, 0, 0, 0, 0, 0, 0, 0, 0, 0, 0, 0, 0, 0, 0, 0, 0,
    32825, 0, 0, 0, 329, 585, 197441, 197697, 0, 0, 0, 0, 0, 0, 0, 0, 0, 0, 0, 0, 0, 0, 0, 0,
    32825, 0, 0, 0, 329, 585, 0, 0, 0, 0, 0, 0, 0, 0, 0, 0, 0, 0, 0, 0, 0, 0, 0, 0, 0, 0, 0, 0, 0,
    0, 0, 0, 0, 0, 94, 0, 0, 0, 0, 0, 0, 0, 0, 0, 0, 0, 0, 60, 0, 1355, 0, 0, 0, 0, 0, 0, 0, 0, 0,
    0, 0, 0, 0, 0, 0, 0, 417, 105, 166745, 0, 0, 0, 32857, 0, 97, 0, 0, 0, 0, 0, 0, 0, 0, 0, 0, 0,
    0, 12961, 0, 0, 0, 0, 0, 0, 0, 0, 0, 0, 0, 1441, 0, 0, 0, 0, 0, 0, 0, 0, 0, 0, 0, 0, 0, 0, 0,
    0, 0, 0, 113, 0, 121, 0, 0, 0, 0, 0, 0, 0, 0, 0, 0, 0, 0, 0, 0, 0, 29857, 5025, 0, 0, 0, 0, 0,
    0, 0, 0, 0, 0, 0, 0, 0, 0, 0, 0, 0, 0, 0, 0, 0, 0, 0, 9121, 0, 0, 0, 0, 0, 0, 0, 0, 0, 0, 0, 0,
    0, 0, 0, 0, 0, 0, 0, 0, 0, 0, 13441, 0, 0, 0, 0, 137, 145, 0, 0, 0, 0, 0, 0, 0, 0, 0, 0, 0, 0,
    0, 0, 0, 0, 0, 0, 0, 0, 0, 0, 0, 0, 0, 0, 0, 0, 0, 0, 0, 0, 0, 0, 0, 0, 0, 0, 0, 0, 0, 0, 4249,
    0, 0, 0, 0, 0, 0, 0, 0, 0, 0, 0, 0, 0, 0, 0, 0, 0, 0, 0, 0, 0, 0, 0, 8345, 0, 0, 0, 0, 0, 0, 0,
    161, 0, 0, 0, 0, 0, 0, 0, 0, 0, 0, 0, 0, 0, 0, 0, 0, 0, 0, 0, 0, 0, 0, 0, 0, 0, 0, 0, 0, 0, 0,
    0, 0, 0, 132698, 132954, 100698, 68186, 0, 0, 0, 0, 0, 0, 0, 0, 92, 0, 2211, 0, 0, 0, 0, 0, 0,
    0, 0, 0, 132698, 132954, 100698, 68186, 0, 0, 0,
];

// The row of a place, by what waits last: something else or nothing, a round bracket, a square one with parts, one without.
const ROWS: [u32; 88] = [
    0, 0, 0, 0, 1, 1, 1, 2, 2, 2, 2, 2, 3, 3, 3, 3, 4, 6, 5, 5, 5, 5, 5, 5, 6, 6, 6, 6, 7, 7, 7, 7,
    8, 8, 8, 8, 9, 10, 9, 9, 10, 10, 10, 10, 11, 11, 11, 11, 12, 12, 12, 12, 13, 13, 13, 13, 14,
    14, 14, 14, 15, 15, 15, 15, 16, 16, 16, 16, 17, 17, 17, 17, 18, 18, 18, 18, 19, 19, 19, 19, 20,
    21, 20, 20, 21, 21, 21, 21,
];

// How far a sign reaches back: over all that is tighter.
const CONS_REACH: usize = 3;

const JOIN_REACH: usize = 3;

const AND_REACH: usize = 2;

const OR_REACH: usize = 1;

// How far a token reaches back after a matcher or a pattern.
const REACH: [usize; 24] = [
    0, 0, 0, 0, 0, 0, 0, 0, 0, 0, 0, 0, 0, 0, 0, 0, 0, CONS_REACH, JOIN_REACH, AND_REACH, OR_REACH,
    0, 0, 0,
];

// Why a text may not end at a place, with no bracket waiting.
const ENDS: [u32; 22] = [
    3, 3, 3, 3, 3, 3, 3, 3, 3, 3, 3, 3, 4, 3, 3, 4, 4, 4, 4, 4, 0, 3,
];

const MISPLACED: u32 = 2;

const BRACKET_OPEN: u32 = 4;

const OUT_OF_RANGE: u32 = 8;

const OVER_LIMIT: u32 = 9;

// What cannot be read has this number and its cause's.
pub const WRONG: u32 = 24;

const LARGEST: u64 = 2147483648;

// What a token does at a place.
#[derive(Clone, Copy)]
enum Deed {
    Append,
    Sign,
    Close,
    Comma,
    Empty,
    Section,
}

// The number that follows: plain, behind a minus, or a variable's.
#[derive(Clone, Copy)]
enum Numeral {
    Plain,
    Negative,
    Variable,
}

// What a place does with a token, in the bits of the table's entry: a number, since `actions` of the specs holds it so and lemmas of notation_grammar, as
// `acted`, speak of the entries.
#[derive(Clone, Copy)]
struct Action(u32);

impl Action {
    // What the token does; None: it cannot stand here.
    #[tactic(auto, unfolding(crate::specs::Stepped::deed_of))]
    fn deed(self) -> Option<Deed>
        ensures { result ≡ deed_of (self.0 % 8) }
    {
        match self.0 % 8 {
            1 => Some(Deed::Append),
            2 => Some(Deed::Sign),
            3 => Some(Deed::Close),
            4 => Some(Deed::Comma),
            5 => Some(Deed::Empty),
            6 => Some(Deed::Section),
            _ => None,
        }
    }

    fn next_place(self) -> u32
        ensures { result ≡ next_place self.0 }
    {
        self.0 / 8 % 32
    }

    // The tag that begins the words, where there is one.
    #[tactic(auto, unfolding(crate::specs::Stepped::one_lower))]
    fn tag(self) -> Option<u32>
        ensures { result ≡ one_lower (tag_bits self.0) }
    {
        (self.0 / 256 % 16).checked_sub(1)
    }

    // The tag of a sign, or of a bracket that ends.
    fn own_tag(self) -> u32
        ensures { result ≡ tag_word self.0 }
    {
        (self.0 / 256 + 15) % 16
    }

    // The number that follows the tag, where one does.
    #[tactic(auto, unfolding(crate::specs::Stepped::mode_of))]
    fn numeral(self) -> Option<Numeral>
        ensures { mode_of result ≡ mode_bits self.0 }
    {
        match self.0 / 4096 % 4 {
            1 => Some(Numeral::Plain),
            2 => Some(Numeral::Negative),
            3 => Some(Numeral::Variable),
            _ => None,
        }
    }

    // The 0 behind it, where one follows.
    #[tactic(auto, unfolding(crate::specs::Stepped::zero_of))]
    fn zero(self) -> Option<u32>
        ensures { result ≡ zero_of self.0 }
    {
        if self.0 / 16384 % 2 == 1 {
            Some(0)
        } else {
            None
        }
    }

    // How tight what waits then is, where something does.
    #[tactic(auto, unfolding(crate::specs::Stepped::one_lower))]
    fn waits(self) -> Option<usize>
        ensures { result ≡ one_lower (self.0 / 32768 % 16) }
    {
        let tight = (self.0 / 32768 % 16).checked_sub(1)?;
        Some(tight as usize)
    }
}

// Puts the word of these bits before the words from an index on, of so many. What does not fit is lost.
#[tactic(auto, using(crate::proofs::Laws::insert_rules))]
fn insert(words: &mut [i32], len: usize, at: usize, u: u32)
    ensures { words.new ≡ inserted words.old len at (to_z w32 u) }
{
    let mut carried = u.cast_signed();
    for j in at..words.len() {
        if len < j {
            return;
        }
        carried = mem::replace(&mut words[j], carried);
    }
}

// A word behind the others, where there is one.
#[tactic(auto, unfolding(crate::specs::Stepped::putting))]
fn put_some(words: &mut [i32], len: usize, word: Option<u32>) -> usize
    requires { len < 2 ^ 40 }
    ensures put { puts words.new result ≡ putting words.old len word }
    ensures at_most_one { result ≤ len + 1 }
{
    let Some(u) = word else { return len };
    insert(words, len, len, u);
    len + 1
}

// The bits of a number's word.
#[tactic(auto, unfolding(crate::specs::Stepped::bits_of, crate::specs::Stepped::mode_of))]
fn bits_of(numeral: Numeral, value: u64) -> u32
    ensures { result ≡ bits_of (mode_of (Some numeral)) value }
{
    match numeral {
        Numeral::Negative => ((4294967296 - value % 4294967296) % 4294967296) as u32,
        _ => (value % 4294967296) as u32,
    }
}

// A number's word, where there is one.
fn word_of(numeral: Option<Numeral>, value: u64) -> Option<u32>
    ensures { result ≡ option_map (λ n. bits_of (mode_of (Some n)) value) numeral }
{
    Some(bits_of(numeral?, value))
}

// The j-th that waits.
#[tactic(auto, unfolding(crate::specs::Stepped::waiting_at))]
fn waiting_at(stack: &Stack, j: usize) -> Waiting
    ensures { result ≡ waiting_at stack.now j }
{
    if j < FRAMES { stack[j] } else { NOTHING }
}

#[tactic(auto, unfolding(crate::specs::Stepped::put_at))]
fn put(stack: &mut Stack, j: usize, x: Waiting)
    ensures { stack.new ≡ put_at stack.old j x }
{
    if j < FRAMES {
        stack[j] = x;
    }
}

// How far a token reaches back from a place: nowhere but after a matcher or a pattern.
#[tactic(auto, unfolding(crate::specs::Stepped::reach_of))]
fn reach_of(place: u32, kind: u32) -> usize
    ensures { result ≡ reach_of place kind }
{
    match place {
        MATCHER_READ => 0,
        PATTERN_READ => REACH[(kind % 24) as usize],
        _ => 9,
    }
}

// What waits last, as the rows tell it apart.
#[tactic(auto, unfolding(crate::specs::Stepped::shade_of))]
fn shade_of(stack: &Stack, top: usize) -> u32
    ensures { result ≡ shade_of stack.now top }
{
    if top == 0 {
        return 0;
    }
    let last = waiting_at(stack, top - 1);
    match last.tight {
        ROUND => 1,
        SQUARE if last.parts == 0 => 3,
        SQUARE => 2,
        _ => 0,
    }
}

#[tactic(auto, unfolding(crate::specs::Stepped::row_of))]
fn row_of(place: u32, shade: u32) -> u32
    ensures { result ≡ row_of place shade }
{
    ROWS[((place % 22 * 4 + shade % 4) % 88) as usize]
}

#[tactic(auto, unfolding(crate::specs::Stepped::action_of))]
fn action_of(row: u32, kind: u32) -> Action
    ensures { result.0 ≡ action_of row kind }
{
    Action(ACTIONS[((row % 22 * 24 + kind % 24) % 528) as usize])
}

// Something more waits, where there is something.
#[tactic(auto, unfolding(crate::specs::Stepped::pushing))]
fn push(stack: &mut Stack, top: usize, tight: Option<usize>, start: usize) -> usize
    requires { top < 2 ^ 40 }
    ensures { piled stack.new result ≡ pushing stack.old top tight start }
{
    let Some(tight) = tight else { return top };
    let more = Waiting {
        tight,
        start,
        parts: 0,
    };
    put(stack, top, more);
    top + 1
}

// Whether a number is out of range, plain or behind a minus.
#[tactic(auto, unfolding(crate::specs::Stepped::too_large, crate::specs::Stepped::mode_of))]
fn too_large(numeral: Option<Numeral>, value: u64) -> bool
    ensures { result ≡ too_large (mode_of numeral) value }
{
    match numeral {
        Some(Numeral::Plain) => LARGEST <= value,
        Some(Numeral::Negative) => LARGEST < value,
        _ => false,
    }
}

// A tag and the number of its parts before the words from an index on, where there are any.
#[tactic(auto, unfolding(crate::specs::Stepped::heading))]
fn put_head(words: &mut [i32], len: usize, start: usize, bare: bool, tag: u32, parts: u32) -> usize
    requires { len < 2 ^ 32 }
    ensures { puts words.new result ≡ heading words.old len start bare tag parts }
{
    if bare {
        return len;
    }
    insert(words, len, start, parts);
    insert(words, len + 1, start, tag);
    len + 2
}

// A token is taken up: what waits, the words so far, and where the automaton stands. A token adds at most three words and one that waits, so the counts
// behind it fit.
#[derive(Drop)]
struct Turn<'a> {
    stack: &'a mut Stack,
    words: &'a mut [i32],
    stand: Stand,
    ghost few_words: { stand.len < 2 ^ 32 },
    ghost few_waiting: { stand.top < 2 ^ 32 },
}

impl Turn<'_> {
    // Words behind the others, and something that waits.
    #[tactic(auto, unfolding(crate::specs::Stepped::appending, crate::specs::Stepped::appended, crate::specs::Stepped::puts, crate::specs::Stepped::piled, crate::specs::Stepped::view))]
    fn append(&mut self, a: Action, value: u64) -> Stand
        ensures same_stack { self.new.stack.ghost_name ≡ self.old.stack.ghost_name }
        ensures same_words { self.new.words.ghost_name ≡ self.old.words.ghost_name }
        ensures appended { view result self.new.stack.now self.new.words.now ≡ appending self.old.stack.now self.old.words.now self.old.stand a.0 value }
    {
        let s = self.stand;
        let tag = a.tag();
        let numeral = a.numeral();
        if too_large(numeral, value) {
            return s.refused(OUT_OF_RANGE);
        }
        let tagged = put_some(self.words, s.len, tag);
        let numbered = put_some(self.words, tagged, word_of(numeral, value));
        let len = put_some(self.words, numbered, a.zero());
        let top = push(self.stack, s.top, a.waits(), s.len);
        Stand {
            place: a.next_place(),
            top,
            len,
            start: s.start_of(tag),
            cause: 0,
            ..s
        }
    }

    // A sign: its tag goes before its first part, and it waits for the second.
    #[tactic(auto, using(crate::proofs::Laws::push_tight), unfolding(crate::specs::Stepped::signing, crate::specs::Stepped::piled, crate::specs::Stepped::view))]
    fn sign(&mut self, a: Action) -> Stand
        ensures same_stack { self.new.stack.ghost_name ≡ self.old.stack.ghost_name }
        ensures same_words { self.new.words.ghost_name ≡ self.old.words.ghost_name }
        ensures signed { view result self.new.stack.now self.new.words.now ≡ signing self.old.stack.now self.old.words.now self.old.stand a.0 }
    {
        let s = self.stand;
        insert(self.words, s.len, s.start, a.own_tag());
        let top = push(self.stack, s.top, a.waits(), s.start);
        Stand {
            place: a.next_place(),
            top,
            len: s.len + 1,
            cause: 0,
            ..s
        }
    }

    // A bracket ends, with one part more or none.
    #[tactic(auto, unfolding(crate::specs::Stepped::closing, crate::specs::Stepped::bits_of, crate::specs::Stepped::puts, crate::specs::Stepped::view))]
    fn close(&mut self, a: Action, more: u32) -> Stand
        requires { more ≤ 1 }
        ensures same_stack { self.new.stack.ghost_name ≡ self.old.stack.ghost_name }
        ensures same_words { self.new.words.ghost_name ≡ self.old.words.ghost_name }
        ensures closed { view result self.new.stack.now self.new.words.now ≡ closing self.old.stack.now self.old.words.now self.old.stand a.0 more }
    {
        let s = self.stand;
        let j = s.top.saturating_sub(1);
        let last = waiting_at(self.stack, j);
        let bare = last.is_bare();
        let parts = (last.parts % 1048576) as u32 + more;
        let len = put_head(self.words, s.len, last.start, bare, a.own_tag(), parts);
        Stand {
            place: a.next_place(),
            top: j,
            len,
            start: last.start,
            cause: 0,
            ..s
        }
    }

    // A part more is read.
    #[tactic(auto, unfolding(crate::specs::Stepped::comma_stand, crate::specs::Stepped::comma_stack, crate::specs::Stepped::crowded, crate::specs::Stepped::view))]
    fn comma(&mut self, a: Action) -> Stand
        ensures same_stack { self.new.stack.ghost_name ≡ self.old.stack.ghost_name }
        ensures same_words { self.new.words.ghost_name ≡ self.old.words.ghost_name }
        ensures continued { view result self.new.stack.now self.new.words.now ≡ view (comma_stand self.old.stack.now self.old.stand a.0) (comma_stack self.old.stack.now self.old.stand) self.old.words.now }
    {
        let s = self.stand;
        let j = s.top.saturating_sub(1);
        let last = waiting_at(self.stack, j);
        if last.is_crowded() {
            return s.refused(OVER_LIMIT);
        }
        let longer = Waiting {
            parts: last.parts % 1048576 + 1,
            ..last
        };
        put(self.stack, j, longer);
        Stand {
            place: a.next_place(),
            cause: 0,
            ..s
        }
    }

    // What the table says.
    #[tactic(auto, unfolding(crate::specs::Stepped::taking, crate::specs::Stepped::deed_of))]
    fn take(&mut self, a: Action, value: u64) -> Stand
        ensures same_stack { self.new.stack.ghost_name ≡ self.old.stack.ghost_name }
        ensures same_words { self.new.words.ghost_name ≡ self.old.words.ghost_name }
        ensures taken { view result self.new.stack.now self.new.words.now ≡ taking self.old.stack.now self.old.words.now self.old.stand a.0 value }
    {
        match a.deed() {
            Some(Deed::Append) => self.append(a, value),
            Some(Deed::Sign) => self.sign(a),
            Some(Deed::Close) => self.close(a, 1),
            Some(Deed::Comma) => self.comma(a),
            Some(Deed::Empty) => self.close(a, 0),
            Some(Deed::Section) => self.stand.section(a),
            None => self.stand.refused(MISPLACED),
        }
    }
}

impl Automaton {
    // Nothing is read, and nothing waits.
    #[tactic(auto, unfolding(crate::specs::Stepped::first, crate::specs::Stepped::view))]
    pub fn new() -> Automaton
        ensures stand { result.stand ≡ first }
        ensures stack { result.stack ≡ replicate 16384 nothing }
    {
        Automaton {
            stack: [NOTHING; FRAMES],
            stand: FIRST,
        }
    }

    // All that is tighter ends here.
    #[tactic(auto, unfolding(crate::specs::Stepped::settled, crate::specs::Stepped::settling, crate::specs::Stepped::placed))]
    fn settled(&self, reach: usize) -> Stand
        ensures settled { result ≡ settled self.now.stack self.now.stand reach }
        ensures same_words { result.len ≡ self.now.stand.len }
        ensures no_more_waiting { result.top ≤ self.now.stand.top }
    {
        let mut start = self.stand.start;
        for j in (0..self.stand.top).rev() {
            let last = waiting_at(&self.stack, j);
            if last.tight % 8 <= reach {
                return Stand {
                    top: j + 1,
                    start,
                    ..self.stand
                };
            }
            start = last.start;
        }
        Stand {
            top: 0,
            start,
            ..self.stand
        }
    }

    // A token is taken up.
    #[tactic(auto, unfolding(crate::specs::Stepped::stepped, crate::specs::Stepped::action_at))]
    pub fn step(&mut self, words: &mut [i32], kind: u32, value: u64)
        requires few_words { self.old.stand.len < 2 ^ 32 }
        requires few_waiting { self.old.stand.top < 2 ^ 32 }
        ensures { view self.new.stand self.new.stack words.new ≡ stepped self.old.stack words.old self.old.stand kind value }
    {
        if WRONG <= kind {
            self.stand = self.stand.refused(kind - WRONG);
            return;
        }
        let stand = self.settled(reach_of(self.stand.place, kind));
        let row = row_of(stand.place, shade_of(&self.stack, stand.top));
        let mut turn = Turn {
            stack: &mut self.stack,
            words,
            stand,
        };
        self.stand = turn.take(action_of(row, kind), value);
    }

    // Why the text may not end here; 0 where it may.
    #[tactic(auto, unfolding(crate::specs::Stepped::end_of))]
    pub fn finish(&self) -> u32
        ensures { result ≡ end_of self.now.stack self.now.stand }
    {
        if 0 < self.settled(0).top {
            return BRACKET_OPEN;
        }
        ENDS[(self.stand.place % 22) as usize]
    }
}
