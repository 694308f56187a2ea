// What the walk of test 4 holds: the matchers of the patterns still to come, and what the variables so far stand under.
#![tactic(auto, using(std::proofs::lemmas::Bool::Decides::nat_tests), unfolding(crate::specs::Following::start, crate::specs::Following::top, crate::specs::Following::popped, crate::specs::Following::one_more, crate::specs::Following::members_more, crate::specs::Following::follows, crate::specs::Following::Room))]

ghost use Rattle.std.specs.Prelude.{◌≡◌, ◌+◌, ◌≤◌, ◌<◌, length};
ghost use Rattle.test_fit.specs.Following.{start, top, popped, one_more, members_more, follows, Room};

use super::{Here, MatcherAt};
use matchers::matcher_end;

// Of 256 words, no more patterns wait than this, and no more tags 1 stand than this.
const WAITING: usize = 386;

const VARIABLE_TAGS: usize = 128;

// Arrays with a length beside each, since the library allocates nothing.
// The first `matchers` entries of `stack`, the last on top; the first `bound` entries of `under`, by the variables' numbers; so many operands are skipped.
#[derive(Drop)]
pub(crate) struct Waiting {
    pub(crate) stack: [usize; WAITING],
    pub(crate) matchers: usize,
    pub(crate) under: [usize; VARIABLE_TAGS],
    pub(crate) bound: usize,
    pub(crate) skip: u32,
}

impl Waiting {
    // The matcher 0, under which the whole pattern stands.
    pub(crate) fn new() -> Self
        ensures { result ≡ start }
    {
        Waiting {
            stack: [0; WAITING],
            matchers: 1,
            under: [0; VARIABLE_TAGS],
            bound: 0,
            skip: 0,
        }
    }

    pub(crate) fn pop(&mut self) -> Option<usize>
        requires { self.old.matchers ≤ length self.old.stack }
        ensures top { result ≡ top self.old }
        ensures rest { self.new ≡ popped self.old }
    {
        if self.matchers == 0 {
            return None;
        }
        self.matchers -= 1;
        Some(self.stack[self.matchers])
    }

    fn push(&mut self, i: usize)
        requires { (self.old.matchers < 386) × (length self.old.stack ≡ 386) }
        ensures { self.new ≡ one_more i self.old }
    {
        self.stack[self.matchers] = i;
        self.matchers += 1;
    }

    // k matchers, one after the other, the first at the index i; it comes on top.
    fn push_members(&mut self, ms: &[i32], i: usize, k: usize)
        requires { (self.old.matchers + k ≤ 386) × (length self.old.stack ≡ 386) }
        ensures { self.new ≡ members_more ms.now i k self.old }
    {
        let mut e = i;
        for left in (0..k).rev() {
            self.stack[self.matchers + left] = e;
            e = matcher_end(ms, e);
        }
        self.matchers += k;
    }

    // What a tag asks that stands under this matcher: matchers onto the stack, or one more variable.
    pub(crate) fn follow(&mut self, under: MatcherAt, asks: Here)
        requires room { Room asks self.old }
        requires lengths { (length self.old.stack ≡ 386) × (length self.old.under ≡ 128) }
        ensures { self.new ≡ follows under.entry.words.now asks under.entry.index self.old }
    {
        match asks {
            Here::Leaf(operands) => self.skip = operands,
            Here::Bind(operands) => {
                self.under[self.bound] = under.index;
                self.bound += 1;
                self.skip = operands;
            }
            Here::One => self.push(under.index),
            Here::Parts(first) => {
                self.push(under.index);
                self.push(first);
            }
            Here::Wide(first, k) => {
                self.push_members(under.words, first, k);
                self.skip = 1;
            }
        }
    }
}
