// The remainders are moved to stand behind the new lists.
ghost use Rattle.std.specs.Prelude.{◌+◌, ◌*◌, ◌≤◌, length};
ghost use Rattle.round_sweep.specs.Pulls.{Pulled};

use round_lists::HEAD;
use round_table::{ENTRIES, copy};

// From the lists behind `many` on, `left` of them, to those behind `fresh`; of each the entries that the rule uses.
#[tactic(auto, using(crate::proofs::Pulls::own_rules))]
pub fn pull(table: &mut [i32], many: usize, fresh: usize, left: usize, used: usize)
    requires fresh { fresh ≤ many }
    requires few_slots { used ≤ 272 }
    requires table_long { 825 * (many + left) ≤ length table.old }
    ensures { Pulled table.old table.new many fresh left used }
{
    if fresh == many {
        return;
    }
    for k in 0..left {
        copy(
            table,
            (many + k) * ENTRIES,
            (fresh + k) * ENTRIES,
            HEAD + used,
        );
    }
}
