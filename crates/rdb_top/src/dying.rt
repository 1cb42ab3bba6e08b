//! The gate of a run, which has the session die that `--DIE` names.
ghost use Rattle.std.specs.Prelude.{◌≡◌};

use command_words::{Death, DeathPoint};
use rdb_drive::{Act, Gate, Point};
use rdb_types::Session;

/// A gate, and who is to die besides.
#[derive(Drop)]
pub struct Dying<'a, G> {
    death: Option<Death>,
    gate: &'a G,
}

impl<'a, G: Gate> Dying<'a, G> {
    /// The gate, with this death.
    pub fn of(death: Option<Death>, gate: &'a G) -> Dying<'a, G>
        ensures death { result.death ≡ death }
        ensures gate { result.gate.now ≡ gate.now }
    {
        Dying { death, gate }
    }
}

// Whether this step, or what it is, is where the session is to die.
fn is_there(at: DeathPoint, step: u64, point: Point) -> bool {
    match at {
        DeathPoint::Step(number) => step == number,
        DeathPoint::Barrier => point == Point::Barrier,
    }
}

impl<'a, G: Gate> Gate for Dying<'a, G> {
    ghost use Rattle.std.specs.Prelude.{◌++◌};
    ghost use Rattle.rdb_top.specs.Deaths.{sessions_dying};

    ghost mortals = { λ d. sessions_dying d.death ++ G.mortals d.gate.now };

    fn pass(&self, s: Session, step: u64, point: Point) -> Act {
        match self.death {
            Some(death) if death.session == s.number && is_there(death.at, step, point) => Act::Die,
            _ => self.gate.pass(s, step, point),
        }
    }
}
