// The backups that sessions copy, in memory.
ghost use Rattle.std.specs.Prelude.{◌≡◌, ◌≢◌, ◌≤◌, ◌==◌, ℕ, None, Some, true, false, IfSome};
ghost use Rattle.line_store.specs.Seats.{IsMember};
ghost use Rattle.line_store.specs.Sights.{copier_behind};
ghost use Rattle.store_copies.specs.Memory.{copied_behind, copied_by, copier_in, done_behind, is_done, IsReady};

use backup_steps::Copying;
use rdb_types::Session;
use std::marker::Model;

/// What each session copies, in the place of its number, who began the backup of each number last, and whether that has come to its end. Backups are numbered from 1 to 9, so their first place stays empty.
#[derive(Drop)]
pub struct Copies {
    sessions: [Option<Copying>; 17],
    numbers: [Option<Session>; 10],
    done: [bool; 10],
}

impl Model for Copies {
    ghost use Rattle.std.specs.Prelude.{◌≡◌, length};
    ghost use Rattle.store_copies.specs.Memory.{CopiesMemory, AreReady};

    ghost Value = { CopiesMemory };

    ghost view = { λ c. record { sessions = c.sessions; numbers = c.numbers; done = c.done } };

    ghost invariant = { λ c. (length c.sessions ≡ 17) × (length c.numbers ≡ 10) × (length c.done ≡ 10) × AreReady c.sessions };
}

impl Copies {
    /// Nobody copies, and no backup was begun.
    pub fn new() -> Copies
        ensures nothing { (s : ℕ) → copied_by result s ≡ None }
        ensures nobody { (n : ℕ) → copier_in result n ≡ None }
        ensures none_done { (n : ℕ) → is_done result n ≡ false }
    {
        Copies {
            sessions: [None; 17],
            numbers: [None; 10],
            done: [false; 10],
        }
    }

    /// What a session copies.
    pub fn of(&self, s: Session) -> Option<Copying>
        requires { IsMember s.number }
        ensures is { result ≡ copied_by self.now s.number }
        ensures ready { IfSome result IsReady }
    {
        self.sessions[s.number as usize]
    }

    // Whether the session began the backup of this number last.
    pub(crate) fn is_last(&self, s: Session, number: u32) -> bool
        requires { number ≤ 9 }
        ensures yes { result ≡ true → copier_in self.now number ≡ Some s.number }
        ensures no { result ≡ false → copier_in self.now number ≢ Some s.number }
    {
        match self.numbers[number as usize] {
            Some(last) => last.number == s.number,
            None => false,
        }
    }

    // The session copies this, or nothing any more.
    pub(crate) fn set(&mut self, s: Session, copying: Option<Copying>)
        requires member { IsMember s.number }
        requires ready { IfSome copying IsReady }
        ensures copied { (t : ℕ) → copied_by self.new t ≡ copied_behind s.number copying (copied_by self.old) t }
        ensures numbers { (n : ℕ) → copier_in self.new n ≡ copier_in self.old n }
        ensures done { (n : ℕ) → is_done self.new n ≡ is_done self.old n }
    {
        self.sessions[s.number as usize] = copying;
    }

    // The session begins the backup of this number.
    pub(crate) fn note_last(&mut self, s: Session, number: u32)
        requires { number ≤ 9 }
        ensures copied { (t : ℕ) → copied_by self.new t ≡ copied_by self.old t }
        ensures numbers { (n : ℕ) → copier_in self.new n ≡ copier_behind s.number (Some number) (copier_in self.old) n }
        ensures done { (n : ℕ) → is_done self.new n ≡ done_behind number false (is_done self.old) n }
    {
        self.numbers[number as usize] = Some(s);
        self.done[number as usize] = false;
    }

    // The session has come to the end of the backup of this number, and copies nothing any more.
    pub(crate) fn finish(&mut self, s: Session, number: u32)
        requires member { IsMember s.number }
        requires number { number ≤ 9 }
        ensures copied { (t : ℕ) → copied_by self.new t ≡ copied_behind s.number None (copied_by self.old) t }
        ensures numbers { (n : ℕ) → copier_in self.new n ≡ copier_in self.old n }
        ensures done { (n : ℕ) → is_done self.new n ≡ done_behind number true (is_done self.old) n }
    {
        self.leave(s);
        self.done[number as usize] = true;
    }

    /// The session copies nothing any more.
    pub fn leave(&mut self, s: Session)
        requires { IsMember s.number }
        ensures copied { (t : ℕ) → copied_by self.new t ≡ copied_behind s.number None (copied_by self.old) t }
        ensures numbers { (n : ℕ) → copier_in self.new n ≡ copier_in self.old n }
        ensures done { (n : ℕ) → is_done self.new n ≡ is_done self.old n }
    {
        self.set(s, None);
    }
}
