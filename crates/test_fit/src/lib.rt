// Test 4: a pattern fits a matcher. A matcher is kept as the index of its tag in the matcher's words.
#![tactic(auto)]

pub mod shapes;
mod waiting;

ghost use Rattle.std.specs.Prelude.{◌≡◌, ◌+◌, ◌≤◌, ◌<◌, ◌^◌, length};
ghost use Rattle.words.specs.Words.{tag_at};
ghost use Rattle.test_fit.specs.Fitting.{first_of, value_fits_tag, tuple_at, here_at, apart_at, unlike, here_in_at, fit_of};

use shapes::{same_shape, width_fits};
use test_forms::PATTERN_WORDS;
use test_forms::table::{Row, row_of};
use waiting::Waiting;
use words::{matcher, pattern, tag_at};

// What a tag of the pattern asks under a matcher that it fits: its operands are skipped; or a variable is bound besides; or one part follows, under the
// tag's own matcher; or two parts follow, the first under this matcher and the second under the tag's own; or so many parts follow, the first under this
// matcher, the others under those after it.
#[derive(Clone, Copy)]
pub enum Here {
    Leaf(u32),
    Bind(u32),
    One,
    Parts(usize),
    Wide(usize, usize),
}

// A matcher, by the index of its tag in the words of the whole one.
#[derive(Clone, Copy)]
struct MatcherAt<'a> {
    words: &'a [i32],
    index: usize,
}

#[tactic(auto, using(std::proofs::lemmas::Bool::Decides::nat_tests, crate::proofs::Tags::next_2, crate::proofs::Tags::apart_fits), unfolding(crate::specs::Fitting::first_of, crate::specs::Fitting::tuple_at, crate::specs::Fitting::value_fits_tag, crate::specs::Fitting::apart_at, crate::specs::Fitting::unlike, crate::specs::Fitting::here_in_at, crate::specs::Fitting::here_in, crate::specs::Fitting::here_at))]
impl MatcherAt<'_> {
    fn tag(self) -> u32
        ensures { result ≡ tag_at self.entry.words.now self.entry.index }
    {
        tag_at(self.words, self.index)
    }

    // The matcher that the first part of the tag t stands under: the element's for a cons.
    fn first_part(self, t: u32) -> usize
        requires { self.index + 1 < 2 ^ 64 }
        ensures { result ≡ first_of t self.entry.index }
    {
        if t == pattern::CONS {
            self.index + 1
        } else {
            self.index
        }
    }

    // A tuple of n parts.
    fn tuple(self, n: u32) -> Option<Here>
        requires { self.index + 1 < 2 ^ 64 }
        ensures { result ≡ tuple_at self.entry.words.now self.entry.index n }
    {
        if width_fits(tag_at(self.words, self.index + 1), n) {
            Some(Here::Wide(self.index + 2, n as usize))
        } else {
            None
        }
    }

    // Whether a value of the variable v, plus c, may stand here, where the variables to the left stand under the matchers `under`.
    fn value_fits(self, under: &[usize], v: u32, c: u32) -> bool
        ensures { result ≡ value_fits_tag self.entry.words.now self.entry.index under.now v c }
    {
        let Some(&j) = under.get(v as usize) else {
            return false;
        };
        same_shape(self.words, self.index, j) && (self.tag() == matcher::INTEGER || c == 0)
    }

    // What the tag at an index of the pattern asks here; none where it does not fit.
    fn here_at(self, ps: &[i32], at: usize, under: &[usize]) -> Option<Here>
        requires within { at < length ps.now }
        requires few { length under.now ≤ 128 }
        ensures { result ≡ here_at self.entry.words.now self.entry.index ps.now at under.now }
    {
        let t = tag_at(ps, at);
        match row_of(self.tag(), t)? {
            Row::Known {
                operands,
                parts,
                taken,
            } => {
                if !taken {
                    return None;
                }
                match t {
                    pattern::VARIABLE => Some(Here::Bind(operands)),
                    pattern::VALUE => {
                        let fits = self.value_fits(under, tag_at(ps, at + 1), tag_at(ps, at + 2));
                        fits.then_some(Here::Leaf(operands))
                    }
                    _ => match parts {
                        0 => Some(Here::Leaf(operands)),
                        1 => Some(Here::One),
                        _ => Some(Here::Parts(self.first_part(t))),
                    },
                }
            }
            Row::Wide { taken } => {
                if taken {
                    self.tuple(tag_at(ps, at + 1))
                } else {
                    None
                }
            }
        }
    }

    // Whether its elements can be told apart: in a multiset's, something does not occur.
    fn told_apart(self) -> bool
        ensures { result ≡ apart_at self.entry.words.now self.entry.index }
    {
        self.tag() != matcher::MULTISET || same_shape(self.words, self.index + 1, self.index + 1)
    }

    // Whether the tag t is a cons that the dialect does not take here; `firsts`: dialect 2.
    fn unlike(self, firsts: bool, t: u32) -> bool
        ensures { result ≡ unlike firsts self.entry.words.now self.entry.index t }
    {
        t == pattern::CONS && firsts && !self.told_apart()
    }

    // The same as `here_at` in a dialect.
    fn here_in(self, firsts: bool, ps: &[i32], at: usize, under: &[usize]) -> Option<Here>
        requires within { at < length ps.now }
        requires few { length under.now ≤ 128 }
        ensures { result ≡ here_in_at firsts self.entry.words.now self.entry.index ps.now at under.now }
    {
        if self.unlike(firsts, tag_at(ps, at)) {
            return None;
        }
        self.here_at(ps, at, under)
    }
}

// Whether the words of a pattern fit the words of a matcher in a dialect, left to right, or the place of the first tag that does not; `firsts`: dialect 2.
pub fn walk(firsts: bool, ms: &[i32], ps: &[i32]) -> Result<(), usize>
    ensures { result ≡ fit_of firsts ms.now ps.now }
{
    if PATTERN_WORDS < ps.len() {
        return Err(PATTERN_WORDS);
    }
    let mut w = Waiting::new();
    for at in 0..ps.len() {
        if 0 < w.skip {
            w.skip -= 1;
            continue;
        }
        let i = w.pop().ok_or(at)?;
        let here = MatcherAt {
            words: ms,
            index: i,
        };
        let asks = here.here_in(firsts, ps, at, &w.under[..w.bound]).ok_or(at)?;
        w.follow(here, asks);
    }
    Ok(())
}
