// What an input asks, and its limits.
ghost use Rattle.std.specs.Prelude.{◌≤◌};

// The budget and the room.
#[derive(Drop)]
pub(crate) struct Bounds {
    pub(crate) budget: u32,
    pub(crate) room: usize,
    ghost room_in_bounds: { room ≤ 4096 },
}

// How many words matcher, pattern and target have; the budget and the room.
#[derive(Drop)]
pub struct Asked {
    pub matcher: usize,
    pub pattern: usize,
    pub target: usize,
    pub budget: u32,
    pub room: usize,
    ghost matcher_in_table: { matcher ≤ 2000 },
    ghost pattern_in_table: { pattern ≤ 2000 },
    ghost target_in_table: { target ≤ 2000 },
    ghost room_in_bounds: { room ≤ 4096 },
}
