// Document 01, "A collection has at most 64 elements": what is left of a collection is 64 marks.
ghost use Rattle.std.specs.Prelude.{◌≡◌, ◌+◌, ◌-◌, ◌^◌, ◌<◌, ◌≤◌};
ghost use Rattle.std.specs.Int.Count.{ones, count_trailing_zeros};
ghost use Rattle.words.specs.Marks.{clear, TakesLowest, Longer};

// The lowest place marked; 64 where none is.
pub fn lowest(m: u64) -> u32
    ensures { result ≡ count_trailing_zeros 64 m }
{
    u64::trailing_zeros(m)
}

// How many places are marked.
pub fn count(m: u64) -> u32
    ensures { result ≡ ones m }
{
    u64::count_ones(m)
}

// A mark at one place.
#[tactic(auto, using(crate::proofs::marks::Asked::own_rules))]
pub fn one(k: u32) -> u64
    requires { k < 64 }
    ensures { result ≡ 2 ^ k }
{
    1u64 << k
}

// The marks of a whole collection of n elements.
#[tactic(auto, using(crate::proofs::marks::Asked::own_rules))]
pub fn full(n: u32) -> u64
    requires { n ≤ 64 }
    ensures { result ≡ 2 ^ n - 1 }
{
    if n < 64 { (1u64 << n) - 1 } else { u64::MAX }
}

// The marks without place k, marked or not.
#[tactic(auto, using(crate::proofs::marks::Asked::own_rules))]
pub fn without(m: u64, k: u32) -> u64
    requires { k < 64 }
    ensures { result ≡ clear k m }
{
    m & !one(k)
}

// The marks without the lowest.
#[tactic(auto, using(crate::proofs::marks::Asked::own_rules))]
pub fn rest(m: u64) -> u64
    requires { 0 < m }
    ensures { result ≡ clear (count_trailing_zeros 64 m) m }
{
    m & (m - 1)
}

// The places that are marked, the lowest first.
#[derive(Drop)]
pub struct Positions {
    left: u64,
}

impl Positions {
    // The places marked in m.
    pub fn of(m: u64) -> Positions
        ensures { result.left ≡ m }
    {
        Positions { left: m }
    }
}

impl Iterator for Positions {
    ghost use Rattle.std.specs.Iterator.{at_most};

    type Item = u32;

    ghost next_gives = { λ old r new. TakesLowest old.left r new.left };

    ghost remaining = { λ s. at_most (ones s.left) };

    #[tactic(auto, using(crate::proofs::marks::Places::ones_low))]
    fn next(&mut self) -> Option<u32> {
        if self.left == 0 {
            return None;
        }
        let k = lowest(self.left);
        self.left = rest(self.left);
        Some(k)
    }
}

// The marks of a join in two: a front, and a back above it.
#[derive(Drop)]
pub struct Parts {
    pub front: u64,
    pub back: u64,
}

impl Parts {
    // The next longer front.
    #[tactic(auto, using(crate::proofs::marks::Asked::longer_rules))]
    pub fn longer(self) -> Parts
        requires { (0 < self.back) × (self.front + self.back < 2 ^ 64) }
        ensures { Longer self.front self.back result.front result.back }
    {
        let b = self.back;
        let r = rest(b);
        Parts {
            front: self.front + (b - r),
            back: r,
        }
    }
}
