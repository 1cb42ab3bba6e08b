//! The numbers of the measure are bounded, since memory counts what they count.
ghost use Rattle.std.specs.Prelude.{◌≤◌, ◌<◌, ◌^◌, length};
ghost use Rattle.session_measure.specs.Weights.{places_in, places_left, reader_places};
ghost use Rattle.line_cluster.specs.Measured.{IsBounded};
ghost use Rattle.line_cluster.specs.Turned.{sessions};

use crate::origin::Origin;
use crate::sessions::Core;
use lent_members::{LentMember, Whereabouts, member_at};
use lent_values::Naming;
use line_store::LineStore;
use rdb_types::Session;
use session_jobs::Statements;
use session_states::{Phase, ReaderStage, Stage};

// So much of a stage is done one after another.
fn count_places(stage: &Stage)
    ensures { places_in stage.now < 2 ^ 68 }
{
    match stage {
        Stage::Gathering(_, _, later, _) => {
            let _count = later.len();
        }
        Stage::Reserving(_, _, locks, _) => {
            let _count = locks.len();
        }
        Stage::Saying(_, worked, _) => {
            let _count = worked.writes.len();
        }
        Stage::Between | Stage::Working(_, _) | Stage::Ending(_) => {}
    }
}

// So much of a reader's stage is.
fn count_needs(stage: &ReaderStage)
    ensures { reader_places stage.now < 2 ^ 68 }
{
    match stage {
        ReaderStage::Gathering(_, _, later, _) => {
            let _count = later.len();
        }
        ReaderStage::Between | ReaderStage::Working(_, _) => {}
    }
}

// So much of a phase is.
fn count_phase(phase: &Phase)
    ensures { places_left phase.now < 2 ^ 68 }
{
    match phase {
        Phase::Writing(writer) => count_places(&writer.stage),
        Phase::Reading(reader) => count_needs(&reader.stage),
        Phase::Outside | Phase::Closing | Phase::Over => {}
    }
}

// What a session has before it beside the locks and the store. While its job is out that is nothing but its items.
fn count_session<O: Naming, S: Statements>(member: &LentMember<O, S>)
    ensures items { length member.now.left < 2 ^ 64 }
    ensures places { places_left member.now.phase < 2 ^ 68 }
{
    let _items = member.left.len();
    match &member.place {
        Whereabouts::Here(phase) => count_phase(phase),
        Whereabouts::Away(..) | Whereabouts::Back(..) => {}
    }
}

impl<O: Origin + Naming, S: Statements, L: LineStore> Core<O, S, L> {
    /// What all sessions have before them is counted by numbers of 64 bits.
    pub(crate) fn count(&self)
        requires few { length self.now.members.items ≤ 16 }
        ensures { IsBounded (sessions self.now.members.items self.now.events.items self.now.allotments (L.sight self.now.common.store) self.now.common.tree self.now.halt).measure }
    {
        for at in 0..self.members.len() {
            let s = Session {
                number: at as u32 + 1,
            };
            count_session(member_at(&self.members, at));
            let _rounds = self.allotments.rounds(s);
            let _needs = self.common.tree.count_needs(s.number);
        }
    }
}
