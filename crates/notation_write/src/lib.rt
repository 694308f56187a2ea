// A matcher, a pattern or a target, written in Egison's notation from its words. What each tag is written as stands in one table.
#![tactic(auto)]

ghost use Rattle.std.specs.Prelude.{◌≡◌, ◌<◌};
ghost use Rattle.notation_print.specs.Pages.{page};
ghost use Rattle.notation_print.specs.Inks.{sheet};
ghost use Rattle.notation_print.specs.Kinds.{number_of};
ghost use Rattle.notation_write.specs.Written.{bits_at, node_of, ahead as Written·ahead, head_of, count_of, draws, Puts, optional, signed, plus, valued, leaf as Written·leaf, bracket, front, behind, written, units_inks, rule_inks};

use notation_print::{Kind, Pen};
use words::tag_at;

// What the parts of a pattern, a matcher and a target are written as: eight times the form, and the level.
// No enum: the contract of `write` speaks of every number.
pub const PATTERN: u32 = 1;

pub const MATCHER: u32 = 9;

pub const TARGET: u32 = 17;

// The levels of a form, and of all three.
const LEVELS: u32 = 8;

const KINDS: u32 = 3 * LEVELS;

// The tags of a form, and the rows of the table.
const TAGS: u32 = 11;

const ROWS: u32 = 3 * TAGS;

// The words between a tag and its parts.
#[derive(Clone, Copy)]
pub enum Operands {
    Nothing,
    OneNumber,
    OneVariable,
    VariableAndNumber,
}

// What a tag is written as: its level (in brackets where a tighter one is asked), the token it begins with, its operands, how many parts it has (as its
// next word says, where there is no number), what the first part and the others are written as, the token between two and the token at the end.
#[derive(Clone, Copy)]
pub struct Node {
    pub level: u32,
    pub begins: Option<Kind>,
    pub operands: Operands,
    pub parts: Option<u32>,
    pub first: u32,
    pub others: u32,
    pub between: Option<Kind>,
    pub ends: Option<Kind>,
}

// A tag that there is not: the others differ from it.
const NO_TAG: Node = Node {
    level: 7,
    begins: None,
    operands: Operands::Nothing,
    parts: Some(0),
    first: 0,
    others: 0,
    between: None,
    ends: None,
};

// What each tag of a pattern, a matcher and a target is written as, eleven each.
static NODES: [Node; 33] = [
    // `_`
    Node {
        begins: Some(Kind::Underscore),
        ..NO_TAG
    },
    // `$x`
    Node {
        operands: Operands::OneVariable,
        ..NO_TAG
    },
    // `#c`
    Node {
        begins: Some(Kind::Hash),
        operands: Operands::OneNumber,
        ..NO_TAG
    },
    // `#x`, `#(x + c)`
    Node {
        begins: Some(Kind::Hash),
        operands: Operands::VariableAndNumber,
        ..NO_TAG
    },
    // `[]`
    Node {
        begins: Some(Kind::Left),
        ends: Some(Kind::Right),
        ..NO_TAG
    },
    // `::`
    Node {
        level: 3,
        parts: Some(2),
        first: 4,
        others: 3,
        between: Some(Kind::Cons),
        ..NO_TAG
    },
    // `++`
    Node {
        level: 3,
        parts: Some(2),
        first: 4,
        others: 3,
        between: Some(Kind::Join),
        ..NO_TAG
    },
    // a tuple
    Node {
        begins: Some(Kind::Opening),
        parts: None,
        first: PATTERN,
        others: PATTERN,
        between: Some(Kind::Comma),
        ends: Some(Kind::Closing),
        ..NO_TAG
    },
    // `&`
    Node {
        level: 2,
        parts: Some(2),
        first: 3,
        others: 2,
        between: Some(Kind::And),
        ..NO_TAG
    },
    // `|`
    Node {
        level: 1,
        parts: Some(2),
        first: 2,
        others: 1,
        between: Some(Kind::Or),
        ..NO_TAG
    },
    // `!`
    Node {
        begins: Some(Kind::Bang),
        parts: Some(1),
        first: 4,
        others: 4,
        ..NO_TAG
    },
    // `something`
    Node {
        begins: Some(Kind::Something),
        ..NO_TAG
    },
    // `integer`
    Node {
        begins: Some(Kind::Integer),
        ..NO_TAG
    },
    // `list M`
    Node {
        level: 1,
        begins: Some(Kind::List),
        parts: Some(1),
        first: MATCHER + 1,
        others: MATCHER + 1,
        ..NO_TAG
    },
    // `multiset M`
    Node {
        level: 1,
        begins: Some(Kind::Multiset),
        parts: Some(1),
        first: MATCHER + 1,
        others: MATCHER + 1,
        ..NO_TAG
    },
    // a tuple
    Node {
        begins: Some(Kind::Opening),
        parts: None,
        first: MATCHER,
        others: MATCHER,
        between: Some(Kind::Comma),
        ends: Some(Kind::Closing),
        ..NO_TAG
    },
    NO_TAG,
    NO_TAG,
    NO_TAG,
    NO_TAG,
    NO_TAG,
    NO_TAG,
    // an integer
    Node {
        operands: Operands::OneNumber,
        ..NO_TAG
    },
    // a collection
    Node {
        begins: Some(Kind::Left),
        parts: None,
        first: TARGET,
        others: TARGET,
        between: Some(Kind::Comma),
        ends: Some(Kind::Right),
        ..NO_TAG
    },
    // a tuple
    Node {
        begins: Some(Kind::Opening),
        parts: None,
        first: TARGET,
        others: TARGET,
        between: Some(Kind::Comma),
        ends: Some(Kind::Closing),
        ..NO_TAG
    },
    NO_TAG,
    NO_TAG,
    NO_TAG,
    NO_TAG,
    NO_TAG,
    NO_TAG,
    NO_TAG,
    NO_TAG,
];

// How many tags stand one inside the other at most: in 256 words of a pattern, in a matcher and in a target with the last one in each.
const PATTERN_DEPTH: u32 = 256;

const MATCHER_DEPTH: u32 = 5;

const TARGET_DEPTH: u32 = 9;

// The bits of the largest number.
const LARGEST: u32 = i32::MAX as u32;

// As many parts as the next word says, modulo COUNTS.
const COUNTS: u32 = 256;

fn node_of(what: u32, tag: u32) -> &'static Node
    ensures { result.now ≡ node_of what tag }
{
    &NODES[((what % KINDS / LEVELS * TAGS + tag % TAGS) % ROWS) as usize]
}

// An index n words further on, or the same past the end.
#[tactic(auto, unfolding(crate::specs::Written::ahead))]
fn ahead(ws: &[i32], at: usize, n: usize) -> usize
    requires { n < 4 }
    ensures { result ≡ Written·ahead ws.now at n }
{
    if at < ws.len() { at + n } else { at }
}

// The bits of the word n words further on; 0 where there is none.
#[tactic(auto, unfolding(crate::specs::Written::bits_at))]
fn bits_at(ws: &[i32], at: usize, n: usize) -> u32
    requires { n < 4 }
    ensures { result ≡ bits_at ws.now at n }
{
    let i = ahead(ws, at, n);
    if i < ws.len() {
        ws[i].cast_unsigned()
    } else {
        0
    }
}

impl Node {
    // How many words stand before the parts.
    #[tactic(auto, unfolding(crate::specs::Written::head_of))]
    fn head(&self) -> usize
        ensures value { result ≡ head_of self.now.operands self.now.parts }
        ensures few { result < 4 }
    {
        match (self.operands, self.parts) {
            (Operands::Nothing, Some(_)) => 1,
            (Operands::VariableAndNumber, Some(_)) => 3,
            _ => 2,
        }
    }

    // How many parts there are.
    #[tactic(auto, unfolding(crate::specs::Written::count_of))]
    fn count(&self, ws: &[i32], at: usize) -> u32
        ensures { result ≡ count_of ws.now at self.now.parts }
    {
        match self.parts {
            Some(count) => count,
            None => bits_at(ws, at, 1) % COUNTS,
        }
    }
}

// A token, where there is one.
#[tactic(auto, unfolding(crate::specs::Written::optional, crate::specs::Written::draws))]
fn put_token(pen: &mut Pen, kind: Option<Kind>)
    ensures { Puts pen.old pen.new (optional kind) }
{
    if let Some(kind) = kind {
        pen.put(kind, 0);
    }
}

// A number with its sign, from its bits.
#[tactic(auto, unfolding(crate::specs::Written::signed, crate::specs::Written::draws, notation_print::specs::Kinds::number_of))]
fn put_signed(pen: &mut Pen, u: u32)
    ensures { Puts pen.old pen.new (signed u) }
{
    if u <= LARGEST {
        pen.put(Kind::Number, u);
    } else {
        pen.put(Kind::Minus, 0);
        pen.put(Kind::Number, u.wrapping_neg());
    }
}

// A plus before a number that has no minus.
#[tactic(auto, unfolding(crate::specs::Written::plus, crate::specs::Written::draws, notation_print::specs::Kinds::number_of))]
fn put_plus(pen: &mut Pen, u: u32)
    ensures { Puts pen.old pen.new (plus u) }
{
    if u <= LARGEST {
        pen.put(Kind::Plus, 0);
    }
}

// A variable's value, plus a number where that is not 0.
#[tactic(auto, using(crate::proofs::Laws::append_rules), unfolding(crate::specs::Written::valued, crate::specs::Written::draws, notation_print::specs::Kinds::number_of))]
fn put_value(pen: &mut Pen, v: u32, u: u32)
    ensures { Puts pen.old pen.new (valued v u) }
{
    if u == 0 {
        pen.put(Kind::Uses, v);
    } else {
        pen.put(Kind::Opening, 0);
        pen.put(Kind::Uses, v);
        put_plus(pen, u);
        put_signed(pen, u);
        pen.put(Kind::Closing, 0);
    }
}

// A tag's operands.
#[tactic(auto, unfolding(crate::specs::Written::leaf, crate::specs::Written::draws, notation_print::specs::Kinds::number_of))]
fn put_leaf(ws: &[i32], at: usize, operands: Operands, pen: &mut Pen)
    ensures { Puts pen.old pen.new (Written·leaf ws.now at operands) }
{
    match operands {
        Operands::Nothing => {}
        Operands::OneNumber => put_signed(pen, bits_at(ws, at, 1)),
        Operands::OneVariable => pen.put(Kind::Binds, bits_at(ws, at, 1)),
        Operands::VariableAndNumber => put_value(pen, bits_at(ws, at, 1), bits_at(ws, at, 2)),
    }
}

// A bracket, where the tag's level is looser than the one that is asked.
#[tactic(auto, unfolding(crate::specs::Written::bracket, crate::specs::Written::draws))]
fn put_bracket(pen: &mut Pen, own: u32, what: u32, kind: Kind)
    ensures { Puts pen.old pen.new (bracket own what (number_of kind)) }
{
    if own < what % LEVELS {
        pen.put(kind, 0);
    }
}

// What stands before the parts.
#[tactic(auto, using(crate::proofs::Laws::append_rules), unfolding(crate::specs::Written::front, notation_print::specs::Kinds::number_of))]
fn put_front(ws: &[i32], at: usize, what: u32, node: &Node, pen: &mut Pen)
    ensures { Puts pen.old pen.new (front ws.now at what node.now) }
{
    put_bracket(pen, node.level, what, Kind::Opening);
    put_token(pen, node.begins);
    put_leaf(ws, at, node.operands, pen);
}

// What stands behind them.
#[tactic(auto, using(crate::proofs::Laws::append_rules), unfolding(crate::specs::Written::behind, notation_print::specs::Kinds::number_of))]
fn put_back(what: u32, node: &Node, pen: &mut Pen)
    ensures { Puts pen.old pen.new (behind what node.now) }
{
    put_token(pen, node.ends);
    put_bracket(pen, node.level, what, Kind::Closing);
}

// What stands at an index, written, and the index behind it; so many may stand one inside the other.
#[tactic(auto, using(crate::proofs::Laws::written_nothing, crate::proofs::Laws::written_nowhere, crate::proofs::Laws::parts_none_end, crate::proofs::Laws::written_ends))]
pub fn write(ws: &[i32], at: usize, what: u32, depth: u32, pen: &mut Pen) -> usize
    ensures drawn { Puts pen.old pen.new (written ws.now depth at what).inks }
    ensures end { result ≡ (written ws.now depth at what).end }
{
    if depth == 0 {
        return at;
    }
    let node = node_of(what, tag_at(ws, at));
    put_front(ws, at, what, node, pen);
    let mut next = ahead(ws, at, node.head());
    let mut part = node.first;
    let mut between = None;
    for _ in 0..node.count(ws, at) {
        put_token(pen, between);
        next = write(ws, next, part, depth - 1, pen);
        part = node.others;
        between = node.between;
    }
    put_back(what, node, pen);
    next
}

// `matchAll` and the units, where there are any.
#[tactic(auto, unfolding(crate::specs::Written::units_inks, crate::specs::Written::draws, notation_print::specs::Kinds::number_of))]
fn put_units(ts: &[i32], pen: &mut Pen)
    ensures { Puts pen.old pen.new (units_inks ts.now) }
{
    if !ts.is_empty() {
        pen.put(Kind::MatchAll, 0);
        write(ts, 0, TARGET, TARGET_DEPTH, pen);
    }
}

// A rule from its words, and its units where there are any.
#[tactic(auto, using(crate::proofs::Laws::rule_put), unfolding(notation_print::specs::Kinds::number_of))]
fn put_rule(ms: &[i32], ps: &[i32], ts: &[i32], pen: &mut Pen)
    ensures { Puts pen.old pen.new (rule_inks ms.now ps.now ts.now) }
{
    put_units(ts, pen);
    pen.put(Kind::As, 0);
    write(ms, 0, MATCHER, MATCHER_DEPTH, pen);
    pen.put(Kind::With, 0);
    write(ps, 0, PATTERN, PATTERN_DEPTH, pen);
}

// A rule, and its units where there are any, written from the page's start. What is given back is the text's length, or the page's where that is less.
#[tactic(auto, using(crate::proofs::Laws::on_page))]
pub fn write_rule(ms: &[i32], ps: &[i32], ts: &[i32], out: &mut [u8]) -> usize
    ensures { page out.new result ≡ (draws (sheet out.old 0 0) (rule_inks ms.now ps.now ts.now)).on }
{
    let mut pen = Pen::new(out);
    put_rule(ms, ps, ts, &mut pen);
    pen.at
}
