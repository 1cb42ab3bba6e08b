// Who backs up.
ghost use Rattle.std.specs.Prelude.{◌≡◌, ◌≤◌, ℕ, Some, None};
ghost use Rattle.line_store.specs.Sights.{copier_behind};
ghost use Rattle.memory_store.specs.Copiers.{copier_in};

use rdb_types::Session;
use std::marker::Model;

/// Who began the backup of a number last. Backups are numbered from 1 to 9, so the first place stays empty.
#[derive(Drop)]
pub(crate) struct Copiers {
    by: [Option<Session>; 10],
}

impl Model for Copiers {
    ghost use Rattle.std.specs.Prelude.{◌≡◌, List, Option, length};
    ghost use Rattle.rdb_types.specs.declared.session.Session.{Session as Number};

    ghost Value = { List (Option Number) };

    ghost view = { λ c. c.by };

    ghost invariant = { λ c. length c.by ≡ 10 };
}

impl Copiers {
    pub(crate) fn new() -> Copiers
        ensures { (n : ℕ) → copier_in result n ≡ None }
    {
        Copiers { by: [None; 10] }
    }

    /// The session begins the backup of this number.
    pub(crate) fn begin(&mut self, number: u32, s: Session)
        requires { number ≤ 9 }
        ensures { (n : ℕ) → copier_in self.new n ≡ copier_behind s.number (Some number) (copier_in self.old) n }
    {
        self.by[number as usize] = Some(s);
    }
}
