// The whole dump.
ghost use Rattle.std.specs.Prelude.{◌≡◌, ◌++◌, ℕ, length, OnOk, IsErrOf, IsTrue};
ghost use Rattle.rdb_types.specs.declared.file.FileId.{FileId as File};
ghost use Rattle.rdb_outside.specs.Causes.{Rose};
ghost use Rattle.rdb_outside.specs.Disk.{OnlyReads};
ghost use Rattle.root_file.specs.declared.Root.{Root as RootSaid};
ghost use Rattle.root_file.specs.Root.{IsRoot};
ghost use Rattle.new_database.specs.Maker.{root_file as root_named};
ghost use Rattle.line_view.specs.Knowledge.{Lines};
ghost use Rattle.catalog.specs.declared.reading.Catalog.{Catalog as Decoded};
ghost use Rattle.catalog.specs.Reading.{IsCatalogOf};
ghost use Rattle.stable_lines.specs.Image.{StandsFor};
ghost use Rattle.stable_lines.specs.Journal.{Journal, IsJournalOf};
ghost use Rattle.rmu_texts.specs.Dump.{dump_text as text_of_dump};
ghost use Rattle.database_dump.specs.Dumped.{dump_of};
ghost use Rattle.database_dump.specs.Dumpable.{IsDumpable};

use crate::counts::{count_indexes, count_relations};
use crate::definitions::catalog_of;
use before_images::read_before_images;
use line_opening::OpeningFault;
use lines_at_rest::{FaultyPages, RestReading};
use rdb_outside::Disk;
use rdb_types::Bytes;
use rmu_dump::{count_groups, root_of};
use rmu_texts::{Dump, dump_text};
use std::alloc::Global;

/// Adds the dump of a database that nobody has open: its root, its relations and indexes by their names, each with how many lines are present once the open transactions are undone, and the whole groups of its after-image journal. The area files are read once for the catalog and for each relation and index, with the lines of one area in memory. It is refused with the slot of what is bad.
pub fn dump<D: Disk>(alloc: Global, disk: &mut D, out: &mut Bytes) -> Result<(), OpeningFault>
    // The text is that of the root, of the map that the disk's content stands for with its catalog, and of the groups.
    ensures text { OnOk result (IsTrue (D.view disk.old).tells
        → (root : RootSaid) → IsRoot ((D.view disk.old).content root_named 0) root
        → (journal : Journal) → IsJournalOf (D.view disk.old).content journal
        → (all : Lines) → StandsFor (D.view disk.old).content journal.groups all
        → (c : Decoded) → IsCatalogOf all c
        → out.new ≡ out.old ++ text_of_dump (dump_of root all c (length journal.groups))) }

    // It is refused only where a root, a header, a page or the catalog is none.
    ensures refused { (file : File) (slot : ℕ) → IsErrOf result (OpeningFault.Bad file slot)
        → IsTrue (D.view disk.old).tells → IsDumpable (D.view disk.old).content → ⊥ }

    // It doesn't give up by itself.
    ensures failed { IsErrOf result OpeningFault.Failed
        → Rose (D.view disk.old).faults (D.view disk.new).faults }

    // Whatever it answers.
    ensures reads { OnlyReads (D.view disk.old) (D.view disk.new) }
{
    let root = root_of(disk)?;
    let groups = count_groups(disk)?;
    let before = read_before_images(alloc, disk)?;
    let held = RestReading {
        before,
        faulty: FaultyPages::Refused,
    };
    let catalog = catalog_of(alloc, disk, &held)?;
    let relations = count_relations(alloc, disk, &held, &catalog.tables.relations)?;
    let indexes = count_indexes(alloc, disk, &held, &catalog.tables.indexes)?;
    let dump = Dump {
        root,
        relations,
        indexes,
        groups,
    };
    match dump_text(&dump, out) {
        Ok(()) => Ok(()),
        Err(_) => Err(OpeningFault::NoMemory),
    }
}
