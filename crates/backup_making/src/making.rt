// A backup and its steps.
ghost use Rattle.std.specs.Prelude.{◌≡◌, ◌≢◌, ◌≤◌, ◌<◌, ◌+◌, ◌^◌, ◌⊎◌, ℕ, List, [], length, IsTrue, true, false, Some, None, IfSome};
ghost use Rattle.rdb_outside.specs.Disk.{Image, LeftNow};
ghost use Rattle.backup_file.specs.Line.{IsAllowed};
ghost use Rattle.backup_file.specs.Header.{IsHead};
ghost use Rattle.backup_file.specs.declared.line.BackupLine.{BackupLine as Line};
ghost use Rattle.backup_making.specs.declared.making.Stage.TheVariants.{Begun, Open, Ended};
ghost use Rattle.backup_making.specs.declared.making.BackupTurn.TheVariants.{More, Failed, Ended as TurnEnded};
ghost use Rattle.backup_making.specs.Making.{advanced, is_done, file_of, Former, IsFormer, IsBlanked, IsOpen, IsClosed, IsHeaded, IsEnded, head_of, IsAt, with_line, Steps, Leaves, slots_of};

use crate::slots::{settle, write_in};
use backup_file::{BackupHead, BackupLine, put_backup_head, put_backup_line};
use rdb_outside::Disk;
use rdb_types::Limits;

/// How far a backup is: its first slot is to be zeros, and to stand so; lines are added; its header is to be written, and to stand.
#[derive(Clone, Copy, Debug, PartialEq, Eq)]
pub enum Stage {
    Begun,
    Blanked,
    Open,
    Closed,
    Headed,
    Ended,
}

/// What a step answers.
#[derive(Clone, Copy, Debug, PartialEq, Eq)]
pub enum BackupTurn {
    More,
    Ended,
    Failed,
}

/// A backup that is being made: its number, the limits of the database, the last group that its lines have, and the lines so far.
#[derive(Clone, Copy, Debug, PartialEq, Eq)]
pub struct Backup {
    pub number: u32,
    pub limits: Limits,
    pub last_group: u64,
    pub lines: u32,
    pub stage: Stage,
}

// The first slot as zeros.
fn blank<D: Disk>(disk: &mut D, number: u32) -> bool
    ensures steps { Steps (file_of number) (D.view disk.old) (D.view disk.new) result }
    ensures done { result ≡ true → IsTrue (D.view disk.old).tells → (former : Former)
        → IsFormer former (D.view disk.old) (file_of number)
        → IsBlanked former (D.view disk.new) (file_of number) }
    ensures not_done { IsTrue (D.view disk.old).tells → (former : Former)
        → IsFormer former (D.view disk.old) (file_of number)
        → IsFormer former (D.view disk.new) (file_of number) }
{
    write_in(disk, number, 0, &[0; 512])
}

// The zeros stand.
fn open<D: Disk>(disk: &mut D, number: u32) -> bool
    ensures steps { Steps (file_of number) (D.view disk.old) (D.view disk.new) result }
    ensures done { result ≡ true → IsTrue (D.view disk.old).tells → (former : Former)
        → IsBlanked former (D.view disk.old) (file_of number)
        → IsOpen (D.view disk.new) (file_of number) [] }
    ensures not_done { IsTrue (D.view disk.old).tells → (former : Former)
        → IsBlanked former (D.view disk.old) (file_of number)
        → IsBlanked former (D.view disk.new) (file_of number) }
{
    settle(disk)
}

// One line more.
fn add<D: Disk>(disk: &mut D, number: u32, count: u32, line: &BackupLine) -> bool
    requires allowed { IsAllowed line.now }
    requires count { count + 1 < 2 ^ 32 }
    ensures steps { Steps (file_of number) (D.view disk.old) (D.view disk.new) result }
    ensures done { result ≡ true → IsTrue (D.view disk.old).tells → (lines : List Line)
        → count ≡ length lines → IsOpen (D.view disk.old) (file_of number) lines
        → IsOpen (D.view disk.new) (file_of number) (with_line lines (Some line.now)) }
    ensures not_done { IsTrue (D.view disk.old).tells → (lines : List Line)
        → count ≡ length lines → IsOpen (D.view disk.old) (file_of number) lines
        → IsOpen (D.view disk.new) (file_of number) lines }
{
    let mut slot = [0; 512];
    put_backup_line(&mut slot, count + 1, line);
    write_in(disk, number, count + 1, &slot)
}

// All lines stand.
fn close<D: Disk>(disk: &mut D, number: u32) -> bool
    ensures steps { Steps (file_of number) (D.view disk.old) (D.view disk.new) result }
    ensures done { result ≡ true → IsTrue (D.view disk.old).tells → (lines : List Line) (head : _)
        → IsOpen (D.view disk.old) (file_of number) lines
        → IsClosed (D.view disk.new) (file_of number) head lines }
    ensures not_done { IsTrue (D.view disk.old).tells → (lines : List Line)
        → IsOpen (D.view disk.old) (file_of number) lines
        → IsOpen (D.view disk.new) (file_of number) lines }
{
    settle(disk)
}

// The header.
fn put_first<D: Disk>(disk: &mut D, number: u32, head: &BackupHead) -> bool
    requires { head.now.last_group ≤ 2 ^ 62 }
    ensures steps { Steps (file_of number) (D.view disk.old) (D.view disk.new) result }
    ensures done { result ≡ true → IsTrue (D.view disk.old).tells → (lines : List Line)
        → IsClosed (D.view disk.old) (file_of number) head.now lines
        → IsHeaded (D.view disk.new) (file_of number) head.now lines }
    ensures not_done { IsTrue (D.view disk.old).tells → (lines : List Line)
        → IsClosed (D.view disk.old) (file_of number) head.now lines
        → IsClosed (D.view disk.new) (file_of number) head.now lines }
{
    let mut slot = [0; 512];
    put_backup_head(&mut slot, head);
    write_in(disk, number, 0, &slot)
}

// The header stands.
fn end<D: Disk>(disk: &mut D, number: u32) -> bool
    ensures steps { Steps (file_of number) (D.view disk.old) (D.view disk.new) result }
    ensures done { result ≡ true → IsTrue (D.view disk.old).tells → (lines : List Line) (head : _)
        → IsHeaded (D.view disk.old) (file_of number) head lines
        → IsEnded (D.view disk.new) (file_of number) head lines }
    ensures not_done { IsTrue (D.view disk.old).tells → (lines : List Line) (head : _)
        → IsHeaded (D.view disk.old) (file_of number) head lines
        → IsHeaded (D.view disk.new) (file_of number) head lines }
{
    settle(disk)
}

impl Backup {
    /// A backup of this number, before its first step.
    pub fn start(number: u32, limits: Limits, last_group: u64) -> Backup
        ensures { result ≡ record { number = number; limits = limits; last_group = last_group; lines = 0; stage = Begun } }
    {
        Backup {
            number,
            limits,
            last_group,
            lines: 0,
            stage: Stage::Begun,
        }
    }

    /// One device call more: zeros into slot 0, a barrier, then a line that is given into its slot each time; where none is given a barrier, the header into slot 0, and the last barrier.
    pub fn step<D: Disk>(&mut self, disk: &mut D, line: Option<BackupLine>) -> BackupTurn
        requires last_group { self.old.last_group ≤ 2 ^ 62 }
        requires allowed { IfSome line IsAllowed }
        requires room { self.old.lines + 1 < 2 ^ 32 }
        requires open { self.old.stage ≢ Open → line ≡ None }
        requires goes_on { self.old.stage ≢ Ended }

        // What comes next.
        ensures moved { result ≢ Failed → self.new ≡ advanced self.old line }
        ensures stays { result ≡ Failed → self.new ≡ self.old }
        ensures ended { result ≡ TurnEnded → self.new.stage ≡ Ended }
        ensures more { result ≡ More → self.new.stage ≢ Ended }

        // No other file is changed.
        ensures steps { Steps (file_of self.old.number) (D.view disk.old) (D.view disk.new) (is_done result) }

        // The file is where its stage says.
        ensures done { result ≢ Failed → IsTrue (D.view disk.old).tells → (former : Former)
            → (lines : List Line) → IsAt former (D.view disk.old) self.old lines
            → IsAt former (D.view disk.new) self.new (with_line lines line) }
        ensures not_done { result ≡ Failed → IsTrue (D.view disk.old).tells → (former : Former)
            → (lines : List Line) → IsAt former (D.view disk.old) self.old lines
            → IsAt former (D.view disk.new) self.new lines }
    {
        match self.stage {
            Stage::Begun => {
                if !blank(disk, self.number) {
                    return BackupTurn::Failed;
                }
                self.stage = Stage::Blanked;
                BackupTurn::More
            }
            Stage::Blanked => {
                if !open(disk, self.number) {
                    return BackupTurn::Failed;
                }
                self.stage = Stage::Open;
                BackupTurn::More
            }
            Stage::Open => self.add_or_close(disk, line),
            Stage::Closed => {
                let head = self.head();
                if !put_first(disk, self.number, &head) {
                    return BackupTurn::Failed;
                }
                self.stage = Stage::Headed;
                BackupTurn::More
            }
            Stage::Headed => {
                if !end(disk, self.number) {
                    return BackupTurn::Failed;
                }
                self.stage = Stage::Ended;
                BackupTurn::Ended
            }
            Stage::Ended => BackupTurn::Ended,
        }
    }

    // A line more, or no line any more.
    fn add_or_close<D: Disk>(&mut self, disk: &mut D, line: Option<BackupLine>) -> BackupTurn
        requires open { self.old.stage ≡ Open }
        requires allowed { IfSome line IsAllowed }
        requires room { self.old.lines + 1 < 2 ^ 32 }
        ensures moved { result ≢ Failed → self.new ≡ advanced self.old line }
        ensures stays { result ≡ Failed → self.new ≡ self.old }
        ensures not_ended { result ≢ TurnEnded }
        ensures more { result ≡ More → self.new.stage ≢ Ended }
        ensures steps { Steps (file_of self.old.number) (D.view disk.old) (D.view disk.new) (is_done result) }
        ensures done { result ≢ Failed → IsTrue (D.view disk.old).tells → (former : Former)
            → (lines : List Line) → IsAt former (D.view disk.old) self.old lines
            → IsAt former (D.view disk.new) self.new (with_line lines line) }
        ensures not_done { result ≡ Failed → IsTrue (D.view disk.old).tells → (former : Former)
            → (lines : List Line) → IsAt former (D.view disk.old) self.old lines
            → IsAt former (D.view disk.new) self.new lines }
    {
        match line {
            Some(line) => {
                if !add(disk, self.number, self.lines, &line) {
                    return BackupTurn::Failed;
                }
                self.lines += 1;
                BackupTurn::More
            }
            None => {
                if !close(disk, self.number) {
                    return BackupTurn::Failed;
                }
                self.stage = Stage::Closed;
                BackupTurn::More
            }
        }
    }

    // What is written into its first slot.
    fn head(&self) -> BackupHead
        ensures { result ≡ record { format = 1; limits = self.now.limits; last_group = self.now.last_group; lines = self.now.lines } }
    {
        BackupHead {
            format: 1,
            limits: self.limits,
            last_group: self.last_group,
            lines: self.lines,
        }
    }
}

/// A disk on which a backup is being made: a crash leaves the old backup, none, or the new one.
pub fn each_image<D: Disk>(disk: &D, backup: &Backup)
    ensures { (former : Former) (lines : List Line)
        → IsAt former (D.view disk.now) backup.now lines → (image : Image)
        → LeftNow (D.view disk.now) image
        → Leaves former (head_of backup.now lines) lines (slots_of image (file_of backup.now.number)) }
{}
