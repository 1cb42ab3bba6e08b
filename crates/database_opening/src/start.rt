// Where a store begins.
ghost use Rattle.std.specs.Prelude.{◌≡◌, ℕ};
ghost use Rattle.line_view.specs.Knowledge.{Lines};
ghost use Rattle.line_opening.specs.stable_lines.Journal.{Journal};
ghost use Rattle.database_opening.specs.declared.stages.OpeningStage.TheVariants.{Opened};
ghost use Rattle.database_opening.specs.Stages.{OpeningFacts};
ghost use Rattle.database_opening.specs.Start.{IsStart};

use crate::stages::Found;
use line_opening::NextGroup;
use rdb_outside::Disk;
use root_file::Root;

/// What a store has in memory when it begins: the root as it is stable, the number of the next transaction, which is the root's ceiling, and where the next group is written.
#[derive(Clone, Copy)]
pub struct StoreStart {
    pub root: Root,
    pub next_tsn: u64,
    pub next: NextGroup,
}

/// The state in which a store begins over an opened database.
pub fn start_of<D: Disk>(disk: &D, found: &Found) -> StoreStart
    ensures root { result.root ≡ found.now.root }
    ensures number { result.next_tsn ≡ result.root.ceiling }

    // Nothing is open, and the lines are those that the image stood for.
    ensures begins { (classes : ℕ → ℕ) (lines : Lines) (journal : Journal)
        → OpeningFacts classes lines journal Opened (D.view disk.now) found.now
        → IsStart classes lines journal (D.view disk.now) result }
{
    StoreStart {
        root: found.root,
        next_tsn: found.root.ceiling,
        next: found.next,
    }
}
