// The gate of one of several runs.
ghost use Rattle.std.specs.Prelude.{◌≡◌};

use rdb_drive::{Act, Gate, Point};
use rdb_types::Session;

/// A gate that has no session die but the first so many.
#[derive(Drop)]
pub struct Among<'a, G> {
    sessions: u32,
    gate: &'a G,
}

impl<'a, G: Gate> Among<'a, G> {
    /// The gate, for so many sessions.
    pub fn of(sessions: u32, gate: &'a G) -> Among<'a, G>
        ensures sessions { result.sessions ≡ sessions }
        ensures gate { result.gate.now ≡ gate.now }
    {
        Among { sessions, gate }
    }
}

impl<'a, G: Gate> Gate for Among<'a, G> {
    ghost use Rattle.workload_runs.specs.Among.{first_of};

    ghost mortals = { λ a. first_of a.sessions (G.mortals a.gate.now) };

    fn pass(&self, s: Session, step: u64, point: Point) -> Act {
        if 1 <= s.number && s.number <= self.sessions {
            self.gate.pass(s, step, point)
        } else {
            Act::Go
        }
    }
}
