// A disk as the crates above see it: what a read gives, and what a crash may leave.
ghost use Rattle.std.specs.Prelude.{◌≡◌, ◌⊎◌, ◌≤◌, ℕ, length, IfOk, OnOk, OnErr, IsTrue};
ghost use Rattle.rdb_types.specs.File.{slot_bytes};
ghost use Rattle.rdb_outside.specs.Disk.{View, Counts, Keeps, Puts, Adds, SameContent, IsStable, zeros};

use crate::Failed;
use rdb_types::{FileId, Moment};

/// The files of a database. A file is an unbounded list of slots of its kind's size, and a slot that was never written is zeros. A call that fails counts as a fault, and one at the last moment of all fails.
pub trait Disk {
    /// What the disk tells of itself. Whether it tells its content is fixed when it is made.
    ghost view: { Self → View };

    /// Reads one slot.
    fn read(&mut self, file: FileId, slot: u32, into: &mut [u8]) -> Result<(), Failed>
        requires { length into.old ≡ slot_bytes file }
        ensures counts { Counts (view self.old) (view self.new) result }
        ensures kept { IsTrue (view self.old).tells → Keeps (view self.old) (view self.new) }
        ensures bytes { OnOk result
            (IsTrue (view self.old).tells → into.new ≡ (view self.old).content file slot) };

    /// Writes one slot, whole or not at all. Until a barrier a crash may leave the old bytes or these, also where the call fails.
    fn write(&mut self, file: FileId, slot: u32, from: &[u8]) -> Result<(), Failed>
        requires { length from.now ≡ slot_bytes file }
        ensures counts { Counts (view self.old) (view self.new) result }
        ensures pending { IsTrue (view self.old).tells
            → Adds file slot from.now (view self.old) (view self.new) }
        ensures written { OnOk result (IsTrue (view self.old).tells
            → Puts file slot from.now (view self.old).content (view self.new).content) }
        ensures failed { OnErr result (IsTrue (view self.old).tells
            → SameContent (view self.old).content (view self.new).content
            ⊎ Puts file slot from.now (view self.old).content (view self.new).content) };

    /// Makes all earlier writes of all files stable. A barrier that fails promises nothing.
    fn barrier(&mut self) -> Result<(), Failed>
        ensures counts { Counts (view self.old) (view self.new) result }
        ensures kept { IsTrue (view self.old).tells → Keeps (view self.old) (view self.new) }
        ensures stable { OnOk result (IsTrue (view self.old).tells → IsStable (view self.new)) };

    /// A number of slots behind which every slot of the file is zeros.
    fn length(&mut self, file: FileId) -> Result<u32, Failed>
        ensures counts { Counts (view self.old) (view self.new) result }
        ensures kept { IsTrue (view self.old).tells → Keeps (view self.old) (view self.new) }
        ensures zeros { IfOk result (λ n. IsTrue (view self.old).tells
            → (slot : ℕ) → n ≤ slot → (view self.old).content file slot ≡ zeros file) };

    /// The moment, which each call that succeeds moves on. Telling it is no device call.
    fn moment(&self) -> Moment
        ensures { result.number ≡ (view self.now).moment };

    /// What reads give is one of the images since each moment up to now.
    ghost content_left: { (disk : Self) (t : ℕ) → IsTrue (view disk).tells → t ≤ (view disk).moment
        → (view disk).left_since t (view disk).content };
}
