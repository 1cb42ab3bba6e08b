// Calls that change where a session stands, and nothing on the disk.
ghost use Rattle.std.specs.Prelude.{◌≡◌, []};
ghost use Rattle.line_store.specs.Seats.{IsMember, IsPrepared, outside, beginning, writing, committing};
ghost use Rattle.line_store.specs.Calls.{Moves};
ghost use Rattle.line_store.specs.Sights.{GivesBack, BeginsCommit, StandsAlone};
ghost use Rattle.disk_store.specs.Seats.{stand_at};
ghost use Rattle.disk_store.specs.Shown.{DoesOn, sight_of};

use crate::{Ceiling, Held, MemberStage};
use rdb_outside::Disk;
use rdb_types::Session;

/// A session begins a read-write transaction.
pub fn begin<D: Disk>(_disk: &D, held: &mut Held, s: Session)
    requires member { IsMember s.number }
    requires outside { stand_at held.old.members s.number ≡ outside }
    ensures does { DoesOn s.number beginning (Moves s.number beginning) (D.view _disk.now) held.old (D.view _disk.now) held.new }
    ensures tables { held.new.tables ≡ held.old.tables }
{
    held.set_stage(s, MemberStage::Beginning(Ceiling::Asking));
}

/// What was set aside for a session's commit is given back.
pub fn give_back<D: Disk>(_disk: &D, held: &mut Held, s: Session)
    requires member { IsMember s.number }
    requires prepared { IsPrepared (stand_at held.old.members s.number) }
    ensures does { DoesOn s.number (writing []) (GivesBack s.number) (D.view _disk.now) held.old (D.view _disk.now) held.new }
    ensures tables { held.new.tables ≡ held.old.tables }
{
    held.set_stage(s, MemberStage::Writing);
}

/// A session that is prepared begins to commit.
pub fn commit<D: Disk>(_disk: &D, held: &mut Held, s: Session)
    requires member { IsMember s.number }
    requires prepared { IsPrepared (stand_at held.old.members s.number) }
    requires alone { StandsAlone s.number (sight_of (D.view _disk.now) held.old) }
    ensures does { DoesOn s.number (committing []) (BeginsCommit s.number) (D.view _disk.now) held.old (D.view _disk.now) held.new }
    ensures tables { held.new.tables ≡ held.old.tables }
{
    held.begin_commit(s);
}
