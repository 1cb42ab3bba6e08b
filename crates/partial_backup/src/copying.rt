// The steps of a backup whose lines are told one behind another.
ghost use Rattle.std.specs.Prelude.{◌≡◌, ◌≢◌, ◌≤◌, ◌<◌, ◌+◌, ◌^◌, ℕ, OnOk, OnErr, IsTrue, None, Some, is_ok};
ghost use Rattle.line_view.specs.Knowledge.{Lines, IsInOrder, line_in};
ghost use Rattle.backup_file.specs.Line.{IsAllowed};
ghost use Rattle.backup_making.specs.declared.making.Stage.TheVariants.{Begun, Open, Ended};
ghost use Rattle.backup_making.specs.Making.{advanced, file_of, Former, Steps};
ghost use Rattle.partial_backup.specs.Partial.{HasNone, IsCopying, IsNext, MightHold};

use backup_file::BackupLine;
use backup_making::{Backup, BackupTurn};
use rdb_outside::{Disk, Failed};
use rdb_types::{Dbkey, Limits};

/// A backup that is being made, and the line that was looked at last: the backup has those of a map up to it.
#[derive(Clone, Copy, Debug, PartialEq, Eq)]
pub struct Copying {
    pub backup: Backup,
    pub from: Option<Dbkey>,
}

impl Copying {
    /// A backup of this number, before its first step.
    pub fn start<D: Disk>(disk: &D, number: u32, limits: Limits, last_group: u64) -> Copying
        ensures made { result ≡ record {
          from = None;
          backup = record
              { number = number; limits = limits; last_group = last_group; lines = 0; stage = Begun };
        } }
        ensures begun { (former : Former) (classes : ℕ → ℕ) (lines : Lines)
            → MightHold former (D.view disk.now) (file_of number)
            → IsCopying former classes lines (D.view disk.now) result }
    {
        let _ = disk;
        Copying {
            backup: Backup::start(number, limits, last_group),
            from: None,
        }
    }

    /// Passes over a line that isn't there. No device call.
    pub fn pass<D: Disk>(&mut self, disk: &D, key: Dbkey)
        ensures passed { self.new ≡ record self.old { from = Some key } }
        ensures reaches { (former : Former) (classes : ℕ → ℕ) (lines : Lines)
            → self.old.backup.stage ≡ Open → IsNext lines self.old.from key
            → line_in key lines ≡ None
            → IsCopying former classes lines (D.view disk.now) self.old
            → IsCopying former classes lines (D.view disk.now) self.new }
    {
        let _ = disk;
        self.from = Some(key);
    }

    /// Writes the next line. One device call. Where it fails all stays as it was.
    pub fn put<D: Disk>(&mut self, disk: &mut D, line: BackupLine) -> Result<(), Failed>
        requires is_open { self.old.backup.stage ≡ Open }
        requires last_group { self.old.backup.last_group ≤ 2 ^ 62 }
        requires room { self.old.backup.lines + 1 < 2 ^ 32 }
        requires allowed { IsAllowed line }
        ensures moved { OnOk result (self.new ≡ record {
          from = Some line.key;
          backup = record self.old.backup { lines = self.old.backup.lines + 1 };
        }) }
        ensures stays { OnErr result (self.new ≡ self.old) }

        // No other file is changed.
        ensures steps { Steps (file_of self.old.backup.number) (D.view disk.old) (D.view disk.new)
            (is_ok result) }
        ensures copied { OnOk result (IsTrue (D.view disk.old).tells
            → (former : Former) (classes : ℕ → ℕ) (lines : Lines)
            → IsNext lines self.old.from line.key → line_in line.key lines ≡ Some line.image
            → line.class ≡ classes line.key.area
            → IsCopying former classes lines (D.view disk.old) self.old
            → IsCopying former classes lines (D.view disk.new) self.new) }
        ensures not_copied { OnErr result (IsTrue (D.view disk.old).tells
            → (former : Former) (classes : ℕ → ℕ) (lines : Lines)
            → IsCopying former classes lines (D.view disk.old) self.old
            → IsCopying former classes lines (D.view disk.new) self.old) }
    {
        let here = line.key;
        match self.backup.step(disk, Some(line)) {
            BackupTurn::Failed => Err(Failed {}),
            _ => {
                self.from = Some(here);
                Ok(())
            }
        }
    }

    /// Goes on without a line: zeros into slot 0, a barrier; where no line is left a barrier, the header into slot 0, and the last barrier. One device call. Where it fails all stays as it was.
    pub fn go_on<D: Disk>(&mut self, disk: &mut D) -> Result<(), Failed>
        requires goes_on { self.old.backup.stage ≢ Ended }
        requires last_group { self.old.backup.last_group ≤ 2 ^ 62 }
        requires room { self.old.backup.lines + 1 < 2 ^ 32 }
        ensures moved { OnOk result (self.new
            ≡ record self.old { backup = advanced self.old.backup None }) }
        ensures stays { OnErr result (self.new ≡ self.old) }

        // No other file is changed.
        ensures steps { Steps (file_of self.old.backup.number) (D.view disk.old) (D.view disk.new)
            (is_ok result) }
        ensures done { OnOk result (IsTrue (D.view disk.old).tells
            → (former : Former) (classes : ℕ → ℕ) (lines : Lines) → IsInOrder lines
            → (self.old.backup.stage ≡ Open → HasNone lines self.old.from)
            → IsCopying former classes lines (D.view disk.old) self.old
            → IsCopying former classes lines (D.view disk.new) self.new) }
        ensures not_done { OnErr result (IsTrue (D.view disk.old).tells
            → (former : Former) (classes : ℕ → ℕ) (lines : Lines)
            → IsCopying former classes lines (D.view disk.old) self.old
            → IsCopying former classes lines (D.view disk.new) self.old) }
    {
        match self.backup.step(disk, None) {
            BackupTurn::Failed => Err(Failed {}),
            _ => Ok(()),
        }
    }
}
