// A list of states is taken out of the table: its values wait in their slots again, its bindings are bound.
ghost use Rattle.std.specs.Prelude.{◌≡◌, ◌+◌, ◌-◌, ◌*◌, ◌<◌, ◌≤◌, length};
ghost use Rattle.tables.specs.Line.{columns_of};
ghost use Rattle.tables.specs.Slot.{view_of, Slotted, Alone};
ghost use Rattle.round_table.specs.Entries.{entry_at};
ghost use Rattle.round_lists.specs.Taken.{Waited, Shut, Rebound, TakenOut, reopened};

use crate::{FIRST, HEAD, Used};
use round_table::slots::{put_alone, put_waiting};
use round_table::{ENTRIES, entry_at};
use tables::line::Lines;
use tables::slot::{Frame, Slots, held_at, put_frame};
use value_rows::Binding;

// The values wait in their slots.
#[tactic(auto, using(crate::proofs::Outs::own_rules))]
fn take_slots(table: &[i32], base: usize, used: Used, slots: &mut Slots)
    requires table_long { 3 * (base + 275) ≤ length table.now }
    ensures { Waited table.now base used.slots slots.old slots.new }
{
    for j in FIRST..used.slots {
        put_waiting(slots, j, entry_at(table, base + HEAD + j));
    }
}

// No frame is below any.
#[tactic(auto, using(crate::proofs::Outs::own_rules))]
fn shut_slots(used: Used, slots: &mut Slots)
    ensures { Shut used.slots slots.old slots.new }
{
    for j in 0..used.slots {
        put_alone(slots, j);
    }
}

// The bindings.
#[tactic(auto, using(crate::proofs::Outs::own_rules))]
fn take_binds(table: &[i32], base: usize, n: usize, given: [Binding; 16]) -> [Binding; 16]
    requires few_variables { n ≤ 16 }
    requires table_long { 3 * (base + 275) ≤ length table.now }
    ensures { Rebound table.now base n given result }
{
    let mut b = given;
    for v in 0..n {
        let h = entry_at(table, base + HEAD + v);
        b[v] = Binding {
            at: h.at,
            marks: h.marks,
        };
    }
    b
}

// The r-th list of the table; its bindings.
#[tactic(auto, using(crate::proofs::Outs::own_rules))]
pub fn take_out(
    table: &[i32],
    r: usize,
    n: usize,
    used: Used,
    given: [Binding; 16],
    slots: &mut Slots,
) -> [Binding; 16]
    requires few_variables { n ≤ 16 }
    requires table_long { 825 * r + 825 ≤ length table.now }
    ensures { TakenOut table.now r n used.slots slots.old slots.new given result }
{
    let base = r * ENTRIES;
    shut_slots(used, slots);
    take_slots(table, base, used, slots);
    take_binds(table, base, n, given)
}

// Its frame at a line is open again.
#[tactic(auto, using(crate::proofs::Outs::own_rules))]
pub fn reopen(table: &[i32], r: usize, pc: usize, lines: &Lines, slots: &mut Slots)
    requires slotted { Slotted (columns_of lines.now).arg slots.old pc }
    requires alone { Alone (columns_of lines.now).arg pc }
    requires table_long { 825 * r + 825 ≤ length table.now }
    ensures { view_of (columns_of lines.now).arg slots.new ≡ reopened pc (entry_at table.now (275 * r + 1)) (entry_at table.now (275 * r + 2)) (view_of (columns_of lines.now).arg slots.old) }
{
    let base = r * ENTRIES;
    let one = entry_at(table, base + 1);
    let two = entry_at(table, base + 2);
    let h = held_at(slots, lines, pc);
    let f = Frame {
        at: h.at,
        whole: one.marks,
        left: two.marks,
    };
    put_frame(slots, lines, pc, f, 0);
}
