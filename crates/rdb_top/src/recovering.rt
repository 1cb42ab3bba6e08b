//! RMU/RECOVER, by its words.
ghost use Rattle.std.specs.Prelude.{◌≡◌, true, IsTrue};
ghost use Rattle.rdb_types.specs.declared.file.FileId.{FileId as File};
ghost use Rattle.rdb_outside.specs.Causes.{Rose};
ghost use Rattle.rdb_outside.specs.Disk.{OnlyReads};
ghost use Rattle.database_opening.specs.Others.{KeepsFile};
ghost use Rattle.command_words.specs.Copies.{copies_in};
ghost use Rattle.rmu_recover.specs.Recovering.{IsOther};
ghost use Rattle.rmu_keeping.specs.Rolling.{is_recover_status, HasRolled, MayBeRecovered, LacksGroup, HasUnfit, IsUsed, Rolls, RollsWithin, TellsGroups};

use command_words::copies_of;
use rdb_outside::{Disk, Sink};
use rdb_types::Word;
use rmu_keeping::recover_command;
use std::alloc::Global;

/// Rolls a database forward over the copies of its journal that the words name and that journal, and answers the status.
pub fn run_recover<D: Disk, K: Sink>(alloc: Global, words: &[Word], disk: &mut D, out: &mut K) -> u8
    ensures status { is_recover_status result ≡ true }
    ensures rolled { HasRolled result → IsTrue (D.view disk.old).tells
        → Rolls (D.view disk.old) (D.view disk.new) (copies_in words.now) }
    ensures tells { TellsGroups (D.view disk.old) (copies_in words.now) result (K.tells out.old ≡ true) (K.taken out.old) (K.taken out.new) }
    ensures device { result ≡ 3 → Rose (D.view disk.old).faults (D.view disk.new).faults }
    ensures refused { result ≡ 4 → IsTrue (D.view disk.old).tells
        → MayBeRecovered (D.view disk.old) (copies_in words.now) → ⊥ }
    ensures taken { result ≡ 4 → IsTrue (D.view disk.old).tells
        → IsUsed (D.view disk.old).content → ⊥ }
    ensures gap { IsTrue (D.view disk.old).tells → LacksGroup (D.view disk.old) (copies_in words.now)
        → (HasRolled result → ⊥) × OnlyReads (D.view disk.old) (D.view disk.new) }
    ensures unfitting { IsTrue (D.view disk.old).tells → HasUnfit (D.view disk.old) (copies_in words.now)
        → (HasRolled result → ⊥) × OnlyReads (D.view disk.old) (D.view disk.new) }
    ensures in_use { IsTrue (D.view disk.old).tells → IsUsed (D.view disk.old).content
        → OnlyReads (D.view disk.old) (D.view disk.new) }
    ensures sink { result ≡ 6 → Rose (K.faults out.old) (K.faults out.new) }
    ensures within { IsTrue (D.view disk.old).tells
        → RollsWithin (D.view disk.old) (D.view disk.new) (copies_in words.now) }
    ensures others { IsTrue (D.view disk.old).tells → (file : File) → IsOther file
        → KeepsFile file (D.view disk.old) (D.view disk.new) }
{
    match copies_of(alloc, words) {
        Ok(copies) => recover_command(alloc, disk, copies.as_slice(), out),
        Err(_) => 5,
    }
}
