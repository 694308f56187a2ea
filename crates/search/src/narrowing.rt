// Document 02, No. 13: in dialect 2 a cons under a multiset chooses from the first place of each value that differs. What is asked of the frame goes by its
// place alone, in a function that is called twice: then the search's own loop is what it is without it.
ghost use Rattle.std.specs.Prelude.{◌≡◌, ◌-◌, ◌<◌, get_or};
ghost use Rattle.words.specs.Dialects.{dialect_by};
ghost use Rattle.tables.specs.Line.{columns_of};
ghost use Rattle.tables.specs.Slot.{view_of};
ghost use Rattle.value_firsts.specs.Firsts.{Fresh};
ghost use Rattle.search.specs.Narrow.{narrowed, fresh_at, Above, Replaced, Opened};
ghost use Rattle.search.specs.Valid.{Given};

use crate::Terms;
use search_step::State;
use tables::line::{Lines, mat_at};
use tables::place::Places;
use tables::slot::{Slots, frame_at, put_left};
use value_firsts::{Span, firsts_above};
use value_places::places::Units;

// The lower 32 of 64 marks are the remainder by this.
const HALF: u64 = 4294967296;

// What is known of the target itself is of use where it is divided by the rule's own matcher.
#[tactic(auto, using(crate::proofs::Freshened::fresh_at_rules))]
fn fresh_at(i: usize, at: usize, fresh: u64) -> u64
    ensures { result ≡ fresh_at i at fresh }
{
    if i == 0 {
        if at == 0 {
            return fresh;
        }
    }
    0
}

// Of what the last open frame has left, the marks of a span give way to the first places among them, by the matcher after the multiset's tag.
fn narrow_above(
    top: usize,
    span: Span,
    mt: &[i32],
    units: Units,
    places: &Places,
    lines: &Lines,
    slots: &mut Slots,
)
    requires given { Given units.words.now places.now }
    requires above { Above mt.now (columns_of lines.now).mat (columns_of lines.now).arg units.words.now slots.old top span.marks span.stop }
    requires fresh { Fresh mt.now 1 units.words.now 0 span.fresh }
    ensures { Replaced mt.now (get_or (columns_of lines.now).mat (top - 1) 0) units.entry.words.now (top - 1) span.marks span.stop (view_of (columns_of lines.now).arg slots.old) (view_of (columns_of lines.now).arg slots.new) }
{
    let j = top - 1;
    let i = mat_at(lines, j);
    if mt.len() <= i {
        return;
    }
    let f = frame_at(slots, lines, j);
    let known = Span {
        marks: span.marks,
        stop: span.stop,
        fresh: fresh_at(i, f.at, span.fresh),
    };
    let c = firsts_above(mt, i + 1, units, places, f.at, known);
    put_left(slots, lines, j, f.left - (span.marks - span.stop) + c);
}

// The frame that a cons under a multiset has just opened, where it has a choice, is left with the first places.
pub fn narrow(
    terms: Terms,
    x: State,
    mt: &[i32],
    units: Units,
    places: &Places,
    lines: &Lines,
    slots: &mut Slots,
)
    requires given { Given units.words.now places.now }
    requires opened { (0 < x.marks → Opened (columns_of lines.now).arg units.words.now slots.old x) }
    requires fresh { Fresh mt.now 1 units.words.now 0 terms.fresh }
    ensures { view_of (columns_of lines.now).arg slots.new ≡ narrowed (dialect_by terms.firsts) mt.now (get_or (columns_of lines.now).mat (x.top - 1) 0) units.entry.words.now x (view_of (columns_of lines.now).arg slots.old) }
{
    if !terms.firsts {
        return;
    }
    let m = x.marks;
    if m == 0 {
        return;
    }
    let low = m % HALF;
    let lower = Span {
        marks: low,
        stop: 0,
        fresh: terms.fresh,
    };
    let upper = Span {
        marks: m,
        stop: low,
        fresh: terms.fresh,
    };
    narrow_above(x.top, lower, mt, units, places, lines, slots);
    narrow_above(x.top, upper, mt, units, places, lines, slots);
}
