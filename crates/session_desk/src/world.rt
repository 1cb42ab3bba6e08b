// Sessions over a store, each with its script.
ghost use Rattle.std.specs.Prelude.{◌≡◌, ◌≤◌, ◌<◌, ◌^◌, All, ℕ, true, length};
ghost use Rattle.rdb_types.specs.declared.session.Cause.{Cause as CauseValue};
ghost use Rattle.line_store.specs.Seats.{outside};
ghost use Rattle.line_cluster.specs.Sound.{FollowsScripts, IsSession, MayFail};

use crate::events::put_number;
use lent_values::{Naming, Opened};
use line_cluster::{LineCluster, Origin, Turn};
use line_store::LineStore;
use rdb_account::{Event, render};
use rdb_types::{Bytes, Cause, NoMemory, Session, Word};
use rdo_ast::reply::Reply;
use reached_changes::Reaches;
use reserved_locks::Reserves;
use session_jobs::Job;
use session_states::WholeScript;
use std::alloc::Global;

/// A turn has so many steps at most.
const MAX_STEPS: u32 = 100_000;

/// What a step, or a turn of several, came to.
#[derive(Clone, Copy, PartialEq, Eq)]
pub enum Came {
    Moved,
    Answered,
    Rests,
    Over,
    Stopped,
}

// The lines of a reply, each behind the session's number.
fn put_reply(alloc: Global, s: Session, reply: &Reply, out: &mut Bytes) -> Result<(), NoMemory> {
    let mut text = Bytes::new(alloc);
    render(reply, &mut text)?;
    for line in text.as_slice().split_inclusive(|byte| *byte == b'\n') {
        out.extend(b"  ")?;
        put_number(s.number, out)?;
        out.extend(b" ")?;
        out.extend(line)?;
    }
    Ok(())
}

// Whether a session was answered behind the first so many events.
fn is_answered(events: &[Event], from: usize, s: Session) -> bool {
    let Some(more) = events.get(from..) else {
        return false;
    };
    more.iter().any(|event| matches!(event, Event::Said(of, _, _, _) if *of == s))
}

/// The sessions of a case.
pub struct World<O: Origin + Naming, S: Reserves + Reaches, L: LineStore + Drop> {
    cluster: LineCluster<O, S, L>,
}

// By hand, so that it is one call wherever they are let go.
impl<O: Origin + Naming, S: Reserves + Reaches, L: LineStore + Drop> Drop for World<O, S, L> {
    fn drop(self) {
        let World { cluster: _cluster } = self;
    }
}

impl<O: Origin + Naming, S: Reserves + Reaches, L: LineStore + Drop> World<O, S, L> {
    /// Sessions of these scripts, over a store of which nothing is told.
    pub fn new(
        alloc: Global,
        store: L,
        scripts: Vec<WholeScript>,
        desk: Opened<Job>,
    ) -> Result<World<O, S, L>, NoMemory>
        requires desk { desk ≡ O.book }
        requires outside { (s : ℕ) → (L.sight store).stand s ≡ outside }
        requires sessions { length scripts.items ≡ O.sessions }
        requires few { O.sessions ≤ 16 }
        requires scripts { FollowsScripts O.opening scripts.items }
        requires short { All (λ script. length script.items < 2 ^ 32) scripts.items }
        requires mortal { MayFail O.opening }
        requires untold { O.told → ⊥ }
    {
        let word = Word::from_slice(alloc, b"PERS")?;
        match LineCluster::start(alloc, word, store, scripts, desk) {
            Ok(cluster) => Ok(World { cluster }),
            Err(_store) => Err(NoMemory {}),
        }
    }

    /// A step of a session, or of the recovery for which it has to wait.
    pub fn step(&mut self, s: Session) -> Came
        requires session { IsSession O.sessions s.number }
    {
        let before = self.cluster.events().len();
        match self.cluster.turn(s) {
            Turn::Moved | Turn::Died => {}
            Turn::Asleep(_) => return Came::Rests,
            Turn::Frozen => {
                let _turn = self.cluster.recover();
            }
            Turn::Ended => return Came::Over,
            Turn::Stopped => return Came::Stopped,
        }
        if is_answered(self.cluster.events(), before, s) {
            Came::Answered
        } else {
            Came::Moved
        }
    }

    /// A turn of a session: its steps up to an answer, or until it rests.
    pub fn turn(&mut self, s: Session) -> Came
        requires session { IsSession O.sessions s.number }
    {
        for _ in 0..MAX_STEPS {
            match self.step(s) {
                Came::Moved => {}
                came => return came,
            }
        }
        Came::Stopped
    }

    /// A session dies.
    pub fn die(&mut self, s: Session)
        requires session { IsSession O.sessions s.number }
        requires mortal { (t : ℕ) (cause : CauseValue) → O.opening.may_die t cause ≡ true }
    {
        self.cluster.die(s, Cause::Gate);
    }

    /// The events so far.
    pub fn events(&self) -> &[Event] {
        self.cluster.events()
    }

    /// Adds what a session was answered, each reply's lines behind the session's number.
    pub fn put_answers(&self, alloc: Global, s: Session, out: &mut Bytes) -> Result<(), NoMemory> {
        for event in self.cluster.events() {
            if let Event::Said(of, _, _, reply) = event {
                if *of == s {
                    put_reply(alloc, s, reply, out)?;
                }
            }
        }
        Ok(())
    }
}
