// What stops a run before it is done.
ghost use Rattle.std.specs.Prelude.{◌≡◌, Option};
ghost use Rattle.search.specs.Stops.{number_of, stop_of};

use search_step::{ENDED, FULL};

#[derive(Clone, Copy, Debug, PartialEq, Eq)]
pub enum Stop {
    Budget,
    Room,
    Table,
}

// The number of the answer in document 01: a run that nothing stops is done.
pub fn number_of(stop: Option<Stop>) -> u32
    ensures { result ≡ number_of stop }
{
    match stop {
        None => 0,
        Some(Stop::Budget) => 7,
        Some(Stop::Room) => 8,
        Some(Stop::Table) => 21,
    }
}

// What has stopped a run that stands so.
#[tactic(auto, using(crate::proofs::Stops::stop_rules))]
pub fn stop_of(live: u64) -> Option<Stop>
    ensures { result ≡ stop_of live }
{
    match live {
        FULL => Some(Stop::Room),
        ENDED => None,
        _ => Some(Stop::Budget),
    }
}
