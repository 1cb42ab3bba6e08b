// What a list of faults says.
ghost use Rattle.std.specs.Prelude.{[]};
ghost use Rattle.line_view.specs.Knowledge.{Lines, IsInOrder};
ghost use Rattle.sound_lines.specs.Sound.{IsSound};
ghost use Rattle.verified_lines.specs.Faults.{AreLineFaults};

/// Where no line is at fault, the map of lines is sound.
pub fn no_fault_is_sound()
    ensures { (all : Lines) → IsInOrder all → AreLineFaults all [] → IsSound all }
{}
