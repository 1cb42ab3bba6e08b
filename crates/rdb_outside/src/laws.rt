// Laws of what a crash leaves.
ghost use Rattle.std.specs.Prelude.{◌≡◌, ◌≤◌, ℕ, Bool};
ghost use Rattle.rdb_outside.specs.Disk.{Image, zeros};
ghost use Rattle.rdb_outside.specs.Picks.{late_writes};
ghost use Rattle.rdb_outside.specs.Told.{told_by, picked_at, calls_of, IsPick, HasNumber};
ghost use Rattle.rdb_outside.specs.declared.memory_disk.MemoryDisk.{MemoryDisk};

/// Each image that a crash since a moment may leave is a pick: some choice of the late writes of some moment gives it.
pub fn every_image_is_picked()
    ensures { (d : MemoryDisk) (t : ℕ) (image : Image) → (told_by d).left_since t image → IsPick d t image }
{}

/// Each choice of the late writes gives an image that a crash may leave.
pub fn every_pick_is_left()
    ensures { (d : MemoryDisk) (t : ℕ) (keep : ℕ → Bool) → t ≤ (told_by d).moment
        → (told_by d).left_since t (picked_at d t keep) }
{}

/// Where there are 32 late writes at most, each choice of them is that of the bits of a number.
pub fn a_number_picks_of_32()
    ensures { (d : MemoryDisk) (t : ℕ) (keep : ℕ → Bool) → late_writes (calls_of d t) ≤ 32
        → HasNumber d t keep }
{}

/// No image has anything but zeros in a slot that there isn't, so each slot that has more can be read.
pub fn no_image_has_more_slots()
    ensures { (d : MemoryDisk) (t : ℕ) (image : Image) → (told_by d).left_since t image
        → (file : _) (slot : ℕ) → d.slots ≤ slot → image file slot ≡ zeros file }
{}
