// Matchers of the same shape, for tag 3: list and multiset count alike, something does not occur.
#![tactic(auto, using(std::proofs::lemmas::Bool::Decides::nat_tests), unfolding(crate::specs::Shapes::width_fits, crate::specs::Shapes::tag_fits, crate::specs::Shapes::word_fits))]

ghost use Rattle.std.specs.Prelude.{◌≡◌};
ghost use Rattle.test_fit.specs.Shapes.{width_fits, tag_fits, word_fits, shapes};

use matchers::matcher_end;
use test_forms::{LARGEST_WIDTH, LEAST_WIDTH, between};
use words::{matcher, tag_at};

// Whether two tuples have the same width.
pub fn width_fits(k: u32, n: u32) -> bool
    ensures { result ≡ width_fits k n }
{
    k == n && between(LEAST_WIDTH, k, LARGEST_WIDTH)
}

// Whether two tags are of the same shape, and not something.
fn tag_fits(x: u32, y: u32) -> bool
    ensures { result ≡ tag_fits x y }
{
    if between(matcher::LIST, x, matcher::MULTISET) {
        between(matcher::LIST, y, matcher::MULTISET)
    } else {
        x == y && between(matcher::INTEGER, x, matcher::TUPLE)
    }
}

// Two words of matchers: the widths of tuples, or tags.
fn word_fits(width: bool, x: u32, y: u32) -> bool
    ensures { result ≡ word_fits width x y }
{
    if width {
        width_fits(x, y)
    } else {
        tag_fits(x, y)
    }
}

// Whether something does not occur in the matcher i, and the matcher j is of the same shape. After a tuple's tag comes its width.
pub fn same_shape(ms: &[i32], i: usize, j: usize) -> bool
    ensures { result ≡ shapes ms.now i j }
{
    let mut width = false;
    for k in 0..matcher_end(ms, i) - i {
        let x = tag_at(ms, i + k);
        if !word_fits(width, x, tag_at(ms, j + k)) {
            return false;
        }
        width = !width && x == matcher::TUPLE;
    }
    true
}
