// How many states a lent table may hold, and how much of a state the rule uses.
ghost use Rattle.std.specs.Prelude.{◌≡◌, ℕ, ◌<◌, ◌≤◌, get_or};
ghost use Rattle.round_rules.specs.Rounds.{limit_of, states_in};
ghost use Rattle.tables.specs.Line.{columns_of};
ghost use Rattle.round_run.specs.Sizes.{Numbered};

use round_table::STATE_WORDS;
use tables::line::{Lines, arg_at};
use words::ENTRIES;

// "More than 256 waiting states" are too many for any table.
const WAITING_LIMIT: usize = 256;

// The states that a table of so many words may hold.
pub fn most_states(words: usize) -> usize
    ensures { result ≡ limit_of (states_in 825 words) }
{
    let n = words / STATE_WORDS;
    if WAITING_LIMIT < n {
        return WAITING_LIMIT;
    }
    n
}

// The first number of a slot that is no variable's.
const VARIABLES: usize = 16;

// A number of slots that is enough for one more line.
fn wider(u: usize, a: usize) -> usize
    requires { (u ≤ 272) × (a < 272) }
    ensures { (u ≤ result) × ((a < result) × (result ≤ 272)) }
{
    if u <= a {
        return a + 1;
    }
    u
}

// One more than the largest number of a slot among the lines, and no less than the variables.
pub fn slots_used(lines: &Lines) -> usize
    requires { (i : ℕ) → get_or (columns_of lines.now).arg i 0 < 272 }
    ensures { Numbered (columns_of lines.now).arg 650 result }
{
    let mut u: usize = VARIABLES;
    for pc in 0..ENTRIES {
        let a = arg_at(lines, pc);
        u = wider(u, a);
    }
    u
}
