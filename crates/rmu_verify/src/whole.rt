// The whole verification.
ghost use Rattle.std.specs.Prelude.{◌≡◌, ◌++◌, ℕ, OnOk, IfOk, IsErrOf, IsTrue};
ghost use Rattle.rdb_types.specs.declared.file.FileId.{FileId as File};
ghost use Rattle.rdb_outside.specs.Causes.{Rose};
ghost use Rattle.rdb_outside.specs.Disk.{OnlyReads};
ghost use Rattle.stable_lines.specs.Slots.{IsMember, ruj_file as ruj_named};
ghost use Rattle.stable_lines.specs.Kept.{IsRujHeader};
ghost use Rattle.stable_lines.specs.Journal.{Journal, IsJournalOf};
ghost use Rattle.page_faults.specs.Listing.{Grows, ListsPages};
ghost use Rattle.areas_at_rest.specs.lines_at_rest.declared.reading.FaultyPages.{FaultyPages as WhatBecomes};
ghost use Rattle.areas_at_rest.specs.Runs.{IsQuiet};
ghost use Rattle.rmu_verify.specs.Verified.{AreFaults};

use crate::lines::verify_lines;
use areas_at_rest::{FaultyPages, RestReading};
use before_images::read_before_images;
use line_opening::OpeningFault;
use page_faults::{RmuStop, verify_pages};
use rdb_outside::Disk;
use rmu_texts::Faults;
use std::alloc::Global;

// Adds the faults of the pages.
fn list_pages<D: Disk>(disk: &mut D, faults: &mut Faults) -> Result<(), OpeningFault>
    ensures listed { OnOk result (IsTrue (D.view disk.old).tells
        → Grows (ListsPages (D.view disk.old).content) faults.old faults.new) }
    ensures quiet { (faulty : WhatBecomes) → IsQuiet faulty (D.view disk.old) (D.view disk.new) result }
{
    match verify_pages(disk, faults) {
        Ok(()) => Ok(()),
        Err(RmuStop::Failed) => Err(OpeningFault::Failed),
        Err(RmuStop::NoMemory) => Err(OpeningFault::NoMemory),
    }
}

/// The faults of a database that nobody has open, kind by kind, each kind in ascending order. Pages that fail their decoders are listed, and their lines are left out of what is judged behind them; open transactions are undone. The memory grows as the lines of the largest logical area, and as the faults; an area file is read for each of its logical areas.
pub fn verify<D: Disk>(alloc: Global, disk: &mut D) -> Result<Faults, OpeningFault>
    // They are those of the files that the disk has.
    ensures faults { IfOk result (λ faults. IsTrue (D.view disk.old).tells
        → (journal : Journal) → IsJournalOf (D.view disk.old).content journal
        → AreFaults (D.view disk.old).content journal.groups faults) }

    // It is refused only where the header of a journal is none.
    ensures refused { (file : File) (slot : ℕ) → IsErrOf result (OpeningFault.Bad file slot)
        → IsTrue (D.view disk.old).tells
        → ((member : ℕ) → IsMember member → IsRujHeader ((D.view disk.old).content (ruj_named member) 0))
        → (journal : Journal) → IsJournalOf (D.view disk.old).content journal → ⊥ }

    // It doesn't give up by itself.
    ensures failed { IsErrOf result OpeningFault.Failed
        → Rose (D.view disk.old).faults (D.view disk.new).faults }

    // Whatever it answers.
    ensures reads { OnlyReads (D.view disk.old) (D.view disk.new) }
{
    let before = read_before_images(alloc, disk)?;
    let held = RestReading {
        before,
        faulty: FaultyPages::LeftOut,
    };
    let mut faults = Faults::new(alloc);
    list_pages(disk, &mut faults)?;
    verify_lines(alloc, disk, &held, &mut faults)?;
    Ok(faults)
}
