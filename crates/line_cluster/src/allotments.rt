//! What the statement under way of each session is allotted.
ghost use Rattle.std.specs.Prelude.{◌≡◌, ◌≤◌, ◌-◌, Some, slice_get, slice_set};
ghost use Rattle.lent_members.specs.line_arms.declared.allotment.Allotment.{Allotment as AllotmentValue};
ghost use Rattle.line_cluster.specs.Turned.{rounds_at};

use lent_members::Allotment;
use rdb_types::{NoMemory, Session};
use std::alloc::Global;
use std::marker::Model;
use std::mem::replace;

/// Sessions are numbered from 1 to 16.
const SESSIONS: usize = 16;

/// What the statement under way of each session is allotted, by the session's number.
#[derive(Drop)]
pub struct Allotments {
    each: Vec<Allotment>,
}

impl Model for Allotments {
    ghost use Rattle.std.specs.Prelude.{◌≡◌, List, length};
    ghost use Rattle.lent_members.specs.line_arms.declared.allotment.Allotment.{Allotment};

    ghost Value = { List Allotment };

    ghost view = { λ a. a.each.items };

    ghost invariant = { λ a. length a.each.items ≡ 16 };
}

impl Allotments {
    /// No statement was given a room, and each has all its rounds left.
    pub fn new(alloc: Global) -> Result<Allotments, NoMemory> {
        let mut each = Vec::new(alloc);
        for _place in 0..SESSIONS {
            each.push(Allotment::new(alloc))?;
        }
        Ok(Allotments { each })
    }

    /// How often the job of a session's statement may still be handed out.
    pub fn rounds(&self, s: Session) -> u64
        requires { (1 ≤ s.number) × (s.number ≤ 16) }
        ensures { result ≡ rounds_at self.now s.number }
    {
        self.each[s.number as usize - 1].rounds
    }

    /// Takes that of a session's statement; another stands in its place until it is put back.
    pub fn take(&mut self, s: Session, alloc: Global) -> Allotment
        requires { (1 ≤ s.number) × (s.number ≤ 16) }
        ensures taken { slice_get self.old (s.number - 1) ≡ Some result }
        ensures rest { (a : AllotmentValue) → slice_set self.new (s.number - 1) a ≡ slice_set self.old (s.number - 1) a }
    {
        replace(&mut self.each[s.number as usize - 1], Allotment::new(alloc))
    }

    /// Puts back that of a session's statement.
    pub fn put(&mut self, s: Session, allotment: Allotment)
        requires { (1 ≤ s.number) × (s.number ≤ 16) }
        ensures { self.new ≡ slice_set self.old (s.number - 1) allotment }
    {
        self.each[s.number as usize - 1] = allotment;
    }
}
