// The trial program's text: from its input to what it prints.
#![tactic(auto)]

ghost use Rattle.std.specs.Prelude.{◌≡◌, ◌≤◌, length};
ghost use Rattle.rules.specs.Services.{match};
ghost use Rattle.text.specs.Printed.{variables_of, report, empty_report};
ghost use Rattle.text_print.specs.Meaning.{Text};
ghost use Rattle.text.specs.Meaning.{Answer};

use service_room::variables_in;
use services::matching::match_units;
use text_ask::question::read_input;
use text_ask::{LINE_WORDS, ROOM_WORDS};
use text_print::report::{Numbers, put_report, put_unreadable};
use text_print::rows::Rest;

// The bytes that every text fits into.
pub const TEXT_BYTES: usize = 98304;

// One question to match, printed.
#[tactic(auto, using(crate::proofs::Answering::answered_rules))]
fn answered(m: &[i32], p: &[i32], t: &[i32], budget: u32, room: &mut [i32], out: &mut [u8]) -> Rest
    requires room_len_bound { length room.old ≤ 4096 }
    requires in_bounds { 98304 ≤ length out.old }
    ensures text { Text out.old out.new result (report (variables_of p.now) (match m.now p.now t.now budget room.old)) }
    ensures lines_value { result.lines ≡ empty_report (variables_of p.now) (match m.now p.now t.now budget room.old) }
{
    let r = match_units(m, p, t, budget, room);
    let numbers = Numbers {
        answer: u64::from(r.answer),
        place: r.place as u64,
        rows: r.rows,
        steps: r.steps,
        words: r.words as u64,
        cause: u64::from(r.cause),
    };
    put_report(out, numbers, &room[..r.words], variables_in(p))
}

// What the trial program prints for an input; nothing where there are too few bytes for it.
pub fn answer(input: &[u8], out: &mut [u8]) -> Option<Rest>
    ensures { Answer input.now out.old out.new result }
{
    if out.len() < TEXT_BYTES {
        return None;
    }
    let mut m = [0; LINE_WORDS];
    let mut p = [0; LINE_WORDS];
    let mut t = [0; LINE_WORDS];
    let Some(asked) = read_input(input, &mut m, &mut p, &mut t) else {
        return Some(put_unreadable(out));
    };
    let mut room = [0; ROOM_WORDS];
    Some(answered(
        &m[..asked.matcher],
        &p[..asked.pattern],
        &t[..asked.target],
        asked.budget,
        &mut room[..asked.room],
        out,
    ))
}
