// The second pass: where the next state stands, from the last line to the first.
#![tactic(auto, using(crate::proofs::link::Loops::linking_rules, crate::proofs::link::Loops::keeping_rules))]

ghost use Rattle.std.specs.Prelude.{◌≡◌, suc, ◌+◌, ◌-◌, ◌<◌, ◌≤◌, cond, eqb, get_or, replicate};
ghost use Rattle.words.specs.Words.{entries};
ghost use Rattle.tables.specs.Line.{columns_of};
ghost use Rattle.program_rules.specs.Lines.{binding};
ghost use Rattle.program_rules.specs.Link.{keeps, takes, ops_in, bindings_in, linked_in};
ghost use Rattle.program_rules.specs.Pile.{pile, lower, place_by, to_at, land_at, piled};

use tables::instruction::{BIND, NOT, NOT_END, OR, OR_END, OR_OTHER};
use tables::line::{Lines, op_at, put_to};
use words::ENTRIES;

// A place for each line at most, and the entry 0, which is none's.
const KEPT: usize = ENTRIES + 1;

// Whether a line keeps a place for the line that begins what it ends. This and the next differ in the instructions that they name, and in nothing else.
pub fn keeps_place(o: u16) -> bool
    ensures { result ≡ keeps o }
{
    match o {
        NOT_END => true,
        OR_OTHER => true,
        OR_END => true,
        _ => false,
    }
}

// Whether a line takes the last place kept.
pub fn takes_place(o: u16) -> bool
    ensures { result ≡ takes o }
{
    match o {
        OR => true,
        NOT => true,
        OR_OTHER => true,
        _ => false,
    }
}

// The line's own place: the last one kept, x, where it takes it.
#[tactic(auto, using(crate::proofs::link::Pass::to_rules))]
pub fn to_by(o: u16, land: u16, x: u16) -> u16
    ensures { result ≡ to_at o land x }
{
    if takes_place(o) { x } else { land }
}

// The place that is kept.
#[tactic(auto, using(crate::proofs::link::Pass::place_rules))]
pub fn place_by(o: u16, pc: usize, land: u16) -> u16
    requires { pc < entries }
    ensures { result ≡ place_by o pc land }
{
    if o == OR_OTHER { (pc + 1) as u16 } else { land }
}

// Where a state stands that comes to this line, x being the last place kept.
#[tactic(auto, using(crate::proofs::link::Pass::place_rules), unfolding(program_rules::specs::Pile::land_at))]
pub fn land_by(o: u16, pc: usize, land: u16, x: u16) -> u16
    requires { pc < entries }
    ensures { result ≡ land_at o pc land x }
{
    match o {
        OR_OTHER => x,
        OR_END => land,
        _ => pc as u16,
    }
}

// How many places are kept when this line has taken its own.
#[tactic(auto, using(crate::proofs::link::Pass::lower_rules))]
pub fn lowered(o: u16, depth: usize) -> usize
    ensures { result ≡ lower o depth }
{
    if takes_place(o) {
        depth.saturating_sub(1)
    } else {
        depth
    }
}

// The places kept, up to a depth; the entry 0 is none's.
#[derive(Drop)]
struct Kept {
    places: [u16; KEPT],
    depth: usize,
}

impl Kept {
    fn none() -> Kept
        ensures { result ≡ record { places = replicate 651 0; depth = 0 } }
    {
        Kept {
            places: [0; KEPT],
            depth: 0,
        }
    }

    // The last place kept.
    fn last(&self) -> u16
        requires { self.now.depth < 651 }
        ensures { result ≡ get_or self.now.places self.now.depth 0 }
    {
        self.places[self.depth]
    }

    // The places kept after this line.
    #[tactic(auto, using(crate::proofs::link::Pass::keep_rules))]
    fn keep(&mut self, o: u16, pc: usize, land: u16)
        requires at { pc < entries }
        requires deep { self.old.depth < entries }
        ensures { pile self.new.places self.new.depth ≡ piled o pc land (pile self.old.places self.old.depth) }
    {
        let d = lowered(o, self.depth);
        if keeps_place(o) {
            self.places[d + 1] = place_by(o, pc, land);
            self.depth = d + 1;
        } else {
            self.depth = d;
        }
    }
}

// How many variables there are with this one.
#[tactic(auto, using(crate::proofs::link::Pass::count_rules))]
pub fn counted(n: usize, o: u16) -> usize
    requires { n < 1000 }
    ensures { result ≡ n + binding o }
{
    if o == BIND { n + 1 } else { n }
}

// For each line before `end` the place where the next state stands, with an array for the places kept, of which there is none at `end`; and how many
// variables there are, `vars` of them from `end` on.
#[tactic(auto, using(crate::proofs::link::Loops::keeping_rules))]
fn link_kept(end: usize, vars: usize, lines: &mut Lines) -> usize
    requires { vars + end ≤ entries }
    ensures value { result ≡ vars + bindings_in (ops_in (columns_of lines.old).op 0 end) }
    ensures lines { columns_of lines.new ≡ linked_in end (columns_of lines.old) }
{
    let mut kept = Kept::none();
    let mut n = vars;
    let mut land = end as u16;
    for pc in (0..end).rev() {
        let o = op_at(lines, pc);
        if o < OR {
            put_to(lines, pc, land);
            land = pc as u16;
            n = counted(n, o);
        } else {
            let x = kept.last();
            put_to(lines, pc, to_by(o, land, x));
            kept.keep(o, pc, land);
            land = land_by(o, pc, land, x);
        }
    }
    n
}

// For each line up to the last the place where the next state stands, and how many variables there are. As long as no line keeps or takes a place there
// is no array to clear; in a rule without or and not none does.
#[tactic(auto, using(crate::proofs::link::Loops::linking_rules))]
pub fn link(last: usize, lines: &mut Lines) -> usize
    requires { last < entries }
    ensures value { result ≡ bindings_in (ops_in (columns_of lines.old).op 0 (suc last)) }
    ensures lines { columns_of lines.new ≡ linked_in (suc last) (columns_of lines.old) }
{
    let mut n: usize = 0;
    for pc in (0..last + 1).rev() {
        let o = op_at(lines, pc);
        if OR <= o {
            return link_kept(pc + 1, n, lines);
        }
        put_to(lines, pc, (pc + 1) as u16);
        n = counted(n, o);
    }
    n
}
