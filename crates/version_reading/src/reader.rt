// What a reader keeps from its start.
ghost use Rattle.std.specs.Prelude.{◌≡◌, ◌==◌, map};
ghost use Rattle.std.specs.List.{list_any};
ghost use Rattle.rdb_types.specs.declared.keys.Tsn.{Tsn};
ghost use Rattle.line_versions.specs.Versions.{Start, sees};

use rdb_types::Tsn;
use std::marker::Model;

/// What a read-only transaction keeps from its start: the next transaction number, and the numbers of the read-write transactions that were going on.
#[derive(Drop)]
pub struct Reader {
    next: Tsn,
    active: Vec<Tsn>,
}

impl Model for Reader {
    ghost use Rattle.std.specs.Prelude.{map};
    ghost use Rattle.line_versions.specs.Versions.{Start};

    ghost Value = { Start };

    ghost view = { λ r. record { next = r.next.number; active = map (λ t. t.number) r.active.items } };
}

impl Reader {
    /// A reader that begins.
    pub fn new(next: Tsn, active: Vec<Tsn>) -> Reader
        ensures { result ≡ record { next = next.number; active = map (λ t. t.number) active.items } }
    {
        Reader { next, active }
    }

    /// Whether the transaction of that number had ended when the reader began. The time grows as the transactions that were going on.
    pub fn sees(&self, tsn: Tsn) -> bool
        ensures { result ≡ sees self.now tsn.number }
    {
        tsn.number < self.next.number && !is_active(&self.active, tsn)
    }
}

fn is_active(active: &[Tsn], tsn: Tsn) -> bool
    ensures { result ≡ list_any (λ (t : Tsn). t.number == tsn.number) active.now }
{
    active.iter().any(|one| one.number == tsn.number)
}
