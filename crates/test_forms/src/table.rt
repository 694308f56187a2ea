// The tag table of section 2 as one decision over tag numbers and the matcher's tag.
ghost use Rattle.std.specs.Prelude.{◌≡◌};
ghost use Rattle.test_forms.specs.Table.{row_of};

use super::between;
use words::{matcher, pattern};

// What follows a pattern's tag, and whether a matcher takes the tag: so many operands and then so many parts; or a width and so many parts.
#[derive(Clone, Copy)]
pub enum Row {
    Known {
        operands: u32,
        parts: u32,
        taken: bool,
    },
    Wide {
        taken: bool,
    },
}

// The row of a pattern's tag under a matcher's tag; none for a number that is no tag: those are a range, a form that the customers ask for by name.
pub fn row_of(m: u32, t: u32) -> Option<Row>
    ensures { result ≡ row_of m t }
{
    let (operands, parts, low, high) = match t {
        pattern::WILDCARD => (0, 0, matcher::SOMETHING, matcher::TUPLE),
        pattern::VARIABLE => (1, 0, matcher::SOMETHING, matcher::TUPLE),
        pattern::CONSTANT => (1, 0, matcher::INTEGER, matcher::INTEGER),
        pattern::VALUE => (2, 0, matcher::INTEGER, matcher::TUPLE),
        pattern::NIL => (0, 0, matcher::LIST, matcher::MULTISET),
        pattern::CONS => (0, 2, matcher::LIST, matcher::MULTISET),
        pattern::JOIN => (0, 2, matcher::LIST, matcher::LIST),
        pattern::TUPLE => {
            let taken = between(matcher::TUPLE, m, matcher::TUPLE);
            return Some(Row::Wide { taken });
        }
        pattern::AND => (0, 2, matcher::SOMETHING, matcher::TUPLE),
        pattern::OR => (0, 2, matcher::SOMETHING, matcher::TUPLE),
        pattern::NOT => (0, 1, matcher::SOMETHING, matcher::TUPLE),
        11..=4294967295 => return None,
    };
    let taken = between(low, m, high);
    Some(Row::Known {
        operands,
        parts,
        taken,
    })
}
