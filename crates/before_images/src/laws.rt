// What the lines with before-images laid over them say.
ghost use Rattle.std.specs.Prelude.{◌≡◌, List};
ghost use Rattle.rdb_types.specs.declared.keys.Dbkey.{Dbkey};
ghost use Rattle.rdb_outside.specs.Disk.{Image};
ghost use Rattle.journal_scan.specs.declared.group.Group.{Group};
ghost use Rattle.line_view.specs.Knowledge.{Lines, line_in};
ghost use Rattle.line_versions.specs.Lines.{shown};
ghost use Rattle.stable_lines.specs.Slots.{line_at};
ghost use Rattle.stable_lines.specs.Image.{StandsFor};
ghost use Rattle.before_images.specs.declared.lines.OpenTransaction.{OpenTransaction};
ghost use Rattle.before_images.specs.Before.{laid, LaysLines};

/// The lines with the before-images laid over them show just the map that the image stands for.
pub fn laid_lines_show()
    ensures { (image : Image) (groups : List Group) (held : List OpenTransaction) (lines : Lines)
        → LaysLines image groups held → StandsFor image groups lines
        → (key : Dbkey) → shown (laid held key (line_at image key)) ≡ line_in key lines }
{}
