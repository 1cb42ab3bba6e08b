// A line pushed aside, whichever file it is of.
ghost use Rattle.std.specs.Prelude.{◌≡◌, ◌≢◌, ◌≤◌, ◌<◌, ◌-◌, ◌^◌, ◌⊎◌, ℕ, false, true, OnOk, IsErrOf, IsTrue};
ghost use Rattle.rdb_types.specs.declared.file.FileId.{FileId as File};
ghost use Rattle.rdb_types.specs.declared.keys.LineState.TheVariants.{Never};
ghost use Rattle.rdb_page.specs.Whole.{IsPageOf};
ghost use Rattle.rdb_outside.specs.Causes.{Rose};
ghost use Rattle.rdb_outside.specs.Disk.{Image, OnlyReads};
ghost use Rattle.line_versions.specs.Versions.{Followed, snap_of};
ghost use Rattle.line_versions.specs.Files.{snap_file};
ghost use Rattle.line_versions.specs.Course.{Course};
ghost use Rattle.stable_lines.specs.Slots.{IsAreaFile, area_file, line_at as line_named};
ghost use Rattle.stable_lines.specs.Progress.{Progress};
ghost use Rattle.line_moves.specs.Calls.{OnlyWrites};
ghost use Rattle.line_moves.specs.Changes.{IsPlaceOf};
ghost use Rattle.disk_versions.specs.Courses.{course_pushed};
ghost use Rattle.disk_versions.specs.Versions.{VersionFacts};
ghost use Rattle.version_writing.specs.Slots.{IsAside, MayPush, Spends};
ghost use Rattle.version_writing.specs.Tables.{HoldsAll, table_of};

use crate::{SnapshotSlots, push_line};
use line_moves::Place;
use line_store::Fault;
use rdb_outside::Disk;
use rdb_types::{Dbkey, Tsn};

/// Pushes a line aside, as `push_line` does, into the snapshot file of its storage area.
pub fn push_aside<D: Disk>(
    disk: &mut D,
    slots: &mut SnapshotSlots,
    chain: &mut u32,
    key: Dbkey,
    place: Place,
    tsn: Tsn,
) -> Result<(), Fault>
    requires place { IsPlaceOf key place }
    requires first { 1 ≤ tsn.number }
    requires last { tsn.number < 2 ^ 62 }
    requires may { MayPush (table_of slots.old (snap_of key)) chain.old tsn }
    ensures again { MayPush (table_of slots.new (snap_of key)) chain.new tsn ⊎ (chain.new ≡ 0) }
    ensures others { (file : ℕ) → IsAreaFile file → file ≢ snap_of key
        → table_of slots.new file ≡ table_of slots.old file }
    ensures spends { Spends (table_of slots.old (snap_of key)) (table_of slots.new (snap_of key)) }
    ensures keeps { chain.new ≡ 0 → slots.new ≡ slots.old }
    ensures writes { OnlyWrites (snap_file (snap_of key)) (chain.new - 1)
        (D.view disk.old) (D.view disk.new) }
    ensures failed { IsErrOf result Fault.Failed
        → Rose (D.view disk.old).faults (D.view disk.new).faults }
    ensures bad { (file : File) (slot : ℕ) → IsErrOf result (Fault.Bad file slot)
        → IsTrue (D.view disk.old).tells
        → IsPageOf place.file place.page
        ((D.view disk.old).content (area_file place.file) (place.page - 1)) → ⊥ }

    // A line that was never used has nothing to push, and any other stands in its slot.
    ensures unused { chain.new ≡ 0 → OnlyReads (D.view disk.old) (D.view disk.new) }
    ensures never { OnOk result (chain.new ≡ 0 → IsTrue (D.view disk.old).tells
        → let line = line_named (D.view disk.old).content key in
        (line.state ≡ Never) × (line.chain ≡ 0)) }
    ensures stands { OnOk result (1 ≤ chain.new → IsTrue (D.view disk.old).tells
        → IsAside (D.view disk.old).content (D.view disk.new).content key tsn chain.new) }

    // Whatever it answers, the versions are as they were.
    ensures versions { IsTrue (D.view disk.old).tells
        → (now : Progress) (course : Course) (limit : ℕ)
        → HoldsAll (D.view disk.old).content course.followed limit slots.old
        → (1 ≤ chain.old → course.followed (snap_of key) chain.old ≡ false)
        → VersionFacts (D.view disk.old) now limit course
        → VersionFacts (D.view disk.new) now limit course }

    // What stands in the slot is followed from now on, and its transaction is known.
    ensures followed { OnOk result (1 ≤ chain.new → IsTrue (D.view disk.old).tells
        → (now : Progress) (course : Course) (limit : ℕ)
        → HoldsAll (D.view disk.old).content course.followed limit slots.old
        → (1 ≤ chain.old → course.followed (snap_of key) chain.old ≡ false)
        → course.going (line_named (D.view disk.old).content key).tsn.number ≡ false
        → course.going tsn.number ≡ true
        → VersionFacts (D.view disk.old) now limit course
        → let after = course_pushed (snap_of key) chain.new course in
        VersionFacts (D.view disk.new) now limit after
        × HoldsAll (D.view disk.new).content after.followed limit slots.new) }

    // The slot was free, and what is followed is in use as before.
    ensures unfollowed { (image : Image) (followed : Followed) (limit : ℕ)
        → HoldsAll image followed limit slots.old
        → (1 ≤ chain.old → followed (snap_of key) chain.old ≡ false)
        → 1 ≤ chain.new → (followed (snap_of key) chain.new ≡ false) × (chain.new ≤ limit) }
    ensures holds { (image : Image) (followed : Followed) (limit : ℕ)
        → HoldsAll image followed limit slots.old
        → HoldsAll image followed limit slots.new }
{
    match place.file {
        1 => push_line(disk, &mut slots.catalog, chain, key, place, tsn),
        2 => push_line(disk, &mut slots.relations, chain, key, place, tsn),
        _ => push_line(disk, &mut slots.indexes, chain, key, place, tsn),
    }
}
