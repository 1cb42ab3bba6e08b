// A line pushed aside at its first change.
ghost use Rattle.std.specs.Prelude.{◌≡◌, ◌≤◌, ◌<◌, ◌-◌, ◌^◌, ◌⊎◌, ℕ, false, true, OnOk, IsErrOf, IsTrue};
ghost use Rattle.rdb_types.specs.declared.file.FileId.{FileId as File};
ghost use Rattle.rdb_types.specs.declared.keys.LineState.TheVariants.{Never};
ghost use Rattle.rdb_page.specs.Whole.{IsPageOf};
ghost use Rattle.rdb_outside.specs.Causes.{Rose};
ghost use Rattle.rdb_outside.specs.Disk.{Image, OnlyReads};
ghost use Rattle.line_versions.specs.Versions.{Followed, snap_of};
ghost use Rattle.line_versions.specs.Files.{snap_file};
ghost use Rattle.line_versions.specs.Course.{Course};
ghost use Rattle.stable_lines.specs.Slots.{area_file, line_at as line_named};
ghost use Rattle.stable_lines.specs.Progress.{Progress};
ghost use Rattle.line_moves.specs.Calls.{OnlyWrites};
ghost use Rattle.line_moves.specs.Changes.{IsPlaceOf};
ghost use Rattle.disk_versions.specs.Courses.{course_pushed};
ghost use Rattle.disk_versions.specs.Versions.{VersionFacts};
ghost use Rattle.version_writing.specs.Slots.{HasSlot, HoldsFile, IsAside, MayPush, Spends};

use crate::FileSlots;
use line_moves::{Place, line_at};
use line_store::Fault;
use rdb_outside::Disk;
use rdb_types::{Dbkey, LineState, Tsn};
use version_reading::push_version;

// The chain that the line has a slot at, or else one that is taken now.
fn chain_or_new(slots: &mut FileSlots, chain: u32, tsn: Tsn) -> u32
    requires number { 1 ≤ tsn.number }
    requires may { MayPush slots.old chain tsn }
    ensures has { HasSlot slots.old slots.new chain result tsn }
    ensures spends { Spends slots.old slots.new }
{
    if chain == 0 { slots.take(tsn) } else { chain }
}

/// Pushes a line aside for a transaction that changes it for the first time: as it stands it is written to a slot of the snapshot file of its storage area. One read, and one write without a barrier. A line that was never used is not pushed, and its chain is 0.
///
/// `slots` are those of that file. `chain` is 0 before the first call for the line, and then the chain of its new line; after a fault the call is made again with it, and takes no other slot.
pub fn push_line<D: Disk>(
    disk: &mut D,
    slots: &mut FileSlots,
    chain: &mut u32,
    key: Dbkey,
    place: Place,
    tsn: Tsn,
) -> Result<(), Fault>
    requires place { IsPlaceOf key place }
    requires first { 1 ≤ tsn.number }
    requires last { tsn.number < 2 ^ 62 }
    requires may { MayPush slots.old chain.old tsn }
    ensures slots { (slots.new ≡ slots.old) ⊎ HasSlot slots.old slots.new chain.old chain.new tsn }
    ensures spends { Spends slots.old slots.new }
    ensures keeps { chain.new ≡ 0 → slots.new ≡ slots.old }
    ensures again { MayPush slots.new chain.new tsn ⊎ (chain.new ≡ 0) }
    ensures writes { OnlyWrites (snap_file (snap_of key)) (chain.new - 1)
        (D.view disk.old) (D.view disk.new) }
    ensures failed { IsErrOf result Fault.Failed
        → Rose (D.view disk.old).faults (D.view disk.new).faults }
    ensures bad { (file : File) (slot : ℕ) → IsErrOf result (Fault.Bad file slot)
        → IsTrue (D.view disk.old).tells
        → IsPageOf place.file place.page
        ((D.view disk.old).content (area_file place.file) (place.page - 1)) → ⊥ }

    // A line that was never used has nothing to push.
    ensures unused { chain.new ≡ 0 → OnlyReads (D.view disk.old) (D.view disk.new) }
    ensures never { OnOk result (chain.new ≡ 0 → IsTrue (D.view disk.old).tells
        → let line = line_named (D.view disk.old).content key in
        (line.state ≡ Never) × (line.chain ≡ 0)) }

    // Any other stands in its slot as it stood on its page.
    ensures stands { OnOk result (1 ≤ chain.new → IsTrue (D.view disk.old).tells
        → IsAside (D.view disk.old).content (D.view disk.new).content key tsn chain.new) }

    // The slot is one that isn't followed: whatever it answers, the versions are as they were.
    ensures versions { IsTrue (D.view disk.old).tells
        → (now : Progress) (course : Course) (limit : ℕ)
        → HoldsFile (D.view disk.old).content course.followed (snap_of key) limit slots.old
        → (1 ≤ chain.old → course.followed (snap_of key) chain.old ≡ false)
        → VersionFacts (D.view disk.old) now limit course
        → VersionFacts (D.view disk.new) now limit course }

    // What stands there is followed from now on, and its transaction is known.
    ensures followed { OnOk result (1 ≤ chain.new → IsTrue (D.view disk.old).tells
        → (now : Progress) (course : Course) (limit : ℕ)
        → HoldsFile (D.view disk.old).content course.followed (snap_of key) limit slots.old
        → (1 ≤ chain.old → course.followed (snap_of key) chain.old ≡ false)
        → course.going (line_named (D.view disk.old).content key).tsn.number ≡ false
        → course.going tsn.number ≡ true
        → VersionFacts (D.view disk.old) now limit course
        → let after = course_pushed (snap_of key) chain.new course in
        VersionFacts (D.view disk.new) now limit after
        × HoldsFile (D.view disk.new).content after.followed (snap_of key) limit slots.new) }

    // The slot was free, and what is followed is in use as before.
    ensures unfollowed { (image : Image) (followed : Followed) (file limit : ℕ)
        → HoldsFile image followed file limit slots.old
        → (1 ≤ chain.old → followed file chain.old ≡ false)
        → 1 ≤ chain.new → (followed file chain.new ≡ false) × (chain.new ≤ limit) }
    ensures holds { (image : Image) (followed : Followed) (file limit : ℕ)
        → HoldsFile image followed file limit slots.old
        → HoldsFile image followed file limit slots.new }
{
    let line = line_at(disk, key, place)?;
    if line.state == LineState::Never {
        *chain = 0;
        return Ok(());
    }
    *chain = chain_or_new(slots, *chain, tsn);
    push_version(disk, *chain, key, tsn, &line)?;
    Ok(())
}
