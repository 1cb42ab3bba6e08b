// What holds of a roll-forward.
ghost use Rattle.std.specs.Prelude.{◌≡◌, ◌+◌, ℕ, List};
ghost use Rattle.rdb_types.specs.declared.keys.Dbkey.{Dbkey};
ghost use Rattle.rdb_outside.specs.Disk.{Image};
ghost use Rattle.journal_scan.specs.declared.group.Group.{Group};
ghost use Rattle.journal_scan.specs.Whole.{AreWhole};
ghost use Rattle.line_view.specs.declared.writes.Write.{Write};
ghost use Rattle.line_view.specs.Knowledge.{Lines, IsInOrder, line_in};
ghost use Rattle.line_view.specs.Writes.{laid_all};
ghost use Rattle.line_versions.specs.Lines.{shown};
ghost use Rattle.stable_lines.specs.Journal.{Journal};
ghost use Rattle.stable_lines.specs.Slots.{ruj_file, IsMember, line_at, named};
ghost use Rattle.stable_lines.specs.Image.{StandsFor};
ghost use Rattle.stable_lines.specs.Rolling.{laid_groups, rolled};
ghost use Rattle.rolled_lines.specs.HalfLaid.{HalfLaid, writes_of};
ghost use Rattle.rolled_lines.specs.Journals.{AreWholeJournals, follow, laid};

/// Of journals that are read one behind another, the groups that are laid over lines that have all groups up to the last one.
pub fn journals_follow()
    // Their numbers follow on from it, one by one.
    ensures whole { (last : ℕ) (journals : List Journal) (groups : List Group) → AreWholeJournals journals
        → follow last journals ≡ laid groups → AreWhole (last + 1) groups }

    // A backup with that last group, rolled forward over them, has all of them laid over its lines.
    ensures rolled { (last : ℕ) (journals : List Journal) (groups : List Group) → AreWholeJournals journals
        → follow last journals ≡ laid groups → (lines : Lines)
        → rolled lines last groups ≡ laid_groups groups lines }
{}

/// Writes that were laid in part before a stop.
pub fn laid_again()
    // Laid again they leave the map that they would have left without it.
    ensures writes { (lines half : Lines) (writes : List Write) → IsInOrder lines → IsInOrder half
        → HalfLaid lines writes half → laid_all writes half ≡ laid_all writes lines }
    ensures groups { (lines half : Lines) (groups : List Group) → IsInOrder lines → IsInOrder half
        → HalfLaid lines (writes_of groups) half → laid_groups groups half ≡ laid_groups groups lines }

    // Another stop leaves them laid in part over the first map.
    ensures stopped { (lines half more : Lines) (writes : List Write) → HalfLaid lines writes half
        → HalfLaid half writes more → HalfLaid lines writes more }
{}

/// An image in which no before-image journal names a transaction stands for the lines of its pages.
pub fn restored_stands()
    ensures { (image : Image) (groups : List Group) (lines : Lines) → IsInOrder lines
        → ((member : ℕ) → IsMember member → named (image (ruj_file member) 0) ≡ 0)
        → ((key : Dbkey) → shown (line_at image key) ≡ line_in key lines)
        → StandsFor image groups lines }
{}
