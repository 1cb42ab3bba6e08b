// What the faults of a database say.
ghost use Rattle.std.specs.Prelude.{List, []};
ghost use Rattle.rdb_outside.specs.Disk.{Image};
ghost use Rattle.journal_scan.specs.declared.group.Group.{Group};
ghost use Rattle.line_view.specs.Knowledge.{Lines};
ghost use Rattle.stable_lines.specs.Image.{StandsFor};
ghost use Rattle.sound_lines.specs.Sound.{IsSound};
ghost use Rattle.areas_at_rest.specs.lines_at_rest.Left.{AllPass};
ghost use Rattle.rmu_verify.specs.Verified.{AllOwned, AreFaults};

/// Where there is no fault, each page passes its decoder, owners agree, and the map of lines is sound.
pub fn no_fault_is_sound()
    ensures pages { (image : Image) (groups : List Group) → AreFaults image groups [] → AllPass image }
    ensures owners { (image : Image) (groups : List Group) → AreFaults image groups [] → AllOwned image }
    ensures lines { (image : Image) (groups : List Group) → AreFaults image groups []
        → (all : Lines) → StandsFor image groups all → IsSound all }
{}
