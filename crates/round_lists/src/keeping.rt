// What stands in the slots and the bindings is kept in the table, up to the numbers that the rule uses.
ghost use Rattle.std.specs.Prelude.{◌≡◌, ◌+◌, ◌*◌, ◌<◌, ◌≤◌, length};
ghost use Rattle.tables.specs.Line.{columns_of};
ghost use Rattle.tables.specs.Slot.{view_of};
ghost use Rattle.round_table.specs.Entries.{Saved};
ghost use Rattle.round_lists.specs.Lists.{waits_as, binds_as, Headed, Topped, Framed, Stored};

use crate::{FIRST, HEAD, Used};
use round_table::slots::waiting_at;
use round_table::{ENTRIES, put_entry};
use search_step::State;
use tables::line::Lines;
use tables::slot::{Held, Slots, frame_at};
use value_rows::Binding;

// The values that wait.
#[tactic(auto, using(crate::proofs::Laws::own_rules))]
fn keep_slots(table: &mut [i32], base: usize, used: Used, slots: &Slots)
    requires table_long { 3 * (base + 275) ≤ length table.old }
    ensures { Saved table.old table.new base 16 used.slots (waits_as slots.now) }
{
    for j in FIRST..used.slots {
        put_entry(table, base + HEAD + j, waiting_at(slots, j));
    }
}

// The bindings.
#[tactic(auto, using(crate::proofs::Laws::own_rules))]
fn keep_binds(table: &mut [i32], base: usize, n: usize, b: [Binding; 16])
    requires few_variables { n ≤ 16 }
    requires table_long { 3 * (base + 275) ≤ length table.old }
    ensures { Saved table.old table.new base 0 n (binds_as b) }
{
    for v in 0..n {
        let y = b[v];
        let h = Held {
            at: y.at,
            marks: y.marks,
        };
        put_entry(table, base + HEAD + v, h);
    }
}

// The first state, and the choices left in the open frame.
#[tactic(auto, using(crate::proofs::Laws::own_rules))]
fn keep_head(table: &mut [i32], base: usize, x: State, whole: u64, left: u64)
    requires { 3 * (base + 275) ≤ length table.old }
    ensures { Headed table.old table.new base x whole left }
{
    put_entry(
        table,
        base,
        Held {
            at: x.at,
            marks: x.marks,
        },
    );
    put_entry(
        table,
        base + 1,
        Held {
            at: x.top,
            marks: whole,
        },
    );
    put_entry(
        table,
        base + 2,
        Held {
            at: x.pc,
            marks: left,
        },
    );
}

// The head of the list whose first state stands.
#[tactic(auto, using(crate::proofs::Laws::own_rules))]
fn keep_first(table: &mut [i32], base: usize, x: State, lines: &Lines, slots: &Slots)
    requires framed { Framed (columns_of lines.now).arg slots.now x.top }
    requires table_long { 3 * (base + 275) ≤ length table.old }
    ensures { Topped table.old table.new base x (view_of (columns_of lines.now).arg slots.now) }
{
    let top = x.top;
    if top == 0 {
        keep_head(table, base, x, 0, 0);
        return;
    }
    let f = frame_at(slots, lines, top - 1);
    keep_head(table, base, x, f.whole, f.left);
}

// The list of states whose first stands, the r-th of the table.
#[tactic(auto, using(crate::proofs::Laws::own_rules))]
pub fn keep(
    x: State,
    b: [Binding; 16],
    r: usize,
    n: usize,
    used: Used,
    lines: &Lines,
    slots: &Slots,
    table: &mut [i32],
)
    requires framed { Framed (columns_of lines.now).arg slots.now x.top }
    requires few_variables { n ≤ 16 }
    requires table_long { 825 * r + 825 ≤ length table.old }
    ensures { Stored table.old table.new r n used.slots x (view_of (columns_of lines.now).arg slots.now) slots.now b }
{
    let base = r * ENTRIES;
    keep_first(table, base, x, lines, slots);
    keep_binds(table, base, n, b);
    keep_slots(table, base, used, slots);
}
