// Sessions by their numbers.
ghost use Rattle.std.specs.Prelude.{◌≡◌, ◌<◌, length, Some, None, slice_get, slice_set, IfSome, true};
ghost use Rattle.std.specs.Vec.{vec_len};
ghost use Rattle.session_jobs.specs.declared.jobs.Job.{Job as JobValue};
ghost use Rattle.session_states.specs.declared.stage.Member.{Member as MemberValue};
ghost use Rattle.answered_steps.specs.Absences.{phase_with};
ghost use Rattle.line_arms.specs.Going.{is_done as is_done_at};
ghost use Rattle.session_states.specs.States.{has_said_all as has_said_all_at};
ghost use Rattle.answered_steps.specs.session_measure.Nearer.{has_out};
ghost use Rattle.lent_members.specs.Going.{is_over as is_over_at, is_stopping as is_stopping_at, takes_item as takes_item_at};
ghost use Rattle.lent_members.specs.Whereabouts.{IsPresent, member_of};
ghost use Rattle.answered_steps.specs.stage_steps.Nearer.{is_for_journal as is_for_journal_at, is_patient_at};

use crate::lent_members::{LentMember, Present, Whereabouts};
use answered_steps::Absence;
use lent_values::Naming;
use rdb_types::Word;
use session_jobs::Statements;
use session_states::{End, ItemQueue, Life, Phase, ReaderStage, ReaderWork, Stage, Work};
use std::alloc::Global;
use std::mem::{forget, replace};

/// The session at a place.
pub fn member_at<O: Naming, S: Statements>(
    members: &[LentMember<O, S>],
    at: usize,
) -> &LentMember<O, S>
    requires { at < length members.now }
    ensures { slice_get members.now at ≡ Some result.now }
{
    &members[at]
}

/// Whether a session has nothing left to do, whose script ends in a stop or doesn't.
pub fn is_over<O: Naming, S: Statements>(member: &LentMember<O, S>, stops: bool) -> bool
    ensures { result ≡ is_over_at stops member.now member.now.life }
{
    match member.life {
        Life::Alive => is_done(member) && !stops,
        Life::Dead | Life::Gone => true,
    }
}

fn is_done<O: Naming, S: Statements>(member: &LentMember<O, S>) -> bool
    ensures { result ≡ is_done_at member.now.left member.now.phase }
{
    match &member.place {
        Whereabouts::Here(phase) => is_done_here(&member.left, phase),
        Whereabouts::Away(..) => false,
        Whereabouts::Back(..) => false,
    }
}

fn is_done_here(left: &ItemQueue, phase: &Phase) -> bool
    ensures { result ≡ is_done_at left.now phase.now }
{
    match phase {
        Phase::Outside => left.len() == 0,
        Phase::Over => true,
        _ => false,
    }
}

fn has_said_all<O: Naming, S: Statements>(member: &LentMember<O, S>) -> bool
    ensures { result ≡ has_said_all_at member.now.left member.now.phase }
{
    match &member.place {
        Whereabouts::Here(phase) => has_said_all_here(&member.left, phase),
        Whereabouts::Away(..) => false,
        Whereabouts::Back(..) => false,
    }
}

fn has_said_all_here(left: &ItemQueue, phase: &Phase) -> bool
    ensures { result ≡ has_said_all_at left.now phase.now }
{
    match phase {
        Phase::Outside => left.len() == 0,
        Phase::Closing => false,
        Phase::Writing(writer) => matches!(writer.stage, Stage::Between) && left.len() == 0,
        Phase::Reading(reader) => matches!(reader.stage, ReaderStage::Between) && left.len() == 0,
        Phase::Over => true,
    }
}

/// Whether the script of a session has come to the stop in which it ends or doesn't.
pub fn is_stopping<O: Naming, S: Statements>(member: &LentMember<O, S>, stops: bool) -> bool
    ensures { result ≡ is_stopping_at stops member.now }
{
    stops && has_said_all(member)
}

// Whether a COMMIT wants the journal, or will once it is prepared.
fn is_for_journal(stage: &Stage) -> bool
    ensures { result ≡ is_for_journal_at stage.now }
{
    matches!(stage, Stage::Ending(End::Preparing | End::Journal))
}

fn is_patient_here(phase: &Phase) -> bool
    ensures { result ≡ is_patient_at phase.now }
{
    match phase {
        Phase::Writing(writer) => is_for_journal(&writer.stage) || writer.waits,
        _ => false,
    }
}

// The job of a statement is out, and isn't for the journal.
fn is_patient_away(absence: Absence) -> bool
    ensures { (job : JobValue) → result ≡ is_patient_at (phase_with absence job) }
{
    match absence {
        Absence::Writing { spoken: _, waits } => waits,
        Absence::Reading { .. } => false,
    }
}

/// Whether a want of a session sleeps where it isn't got at once: under NOWAIT a COMMIT's does.
pub fn is_patient<O: Naming, S: Statements>(member: &LentMember<O, S>) -> bool
    ensures { result ≡ is_patient_at member.now.phase }
{
    match &member.place {
        Whereabouts::Here(phase) => is_patient_here(phase),
        Whereabouts::Away(absence, _) => is_patient_away(*absence),
        Whereabouts::Back(absence, _) => is_patient_away(*absence),
    }
}

fn takes_item_here(left: &ItemQueue, phase: &Phase) -> bool
    ensures { result ≡ takes_item_at left.now phase.now }
{
    match phase {
        Phase::Outside => left.len() > 0,
        Phase::Writing(writer) => matches!(writer.stage, Stage::Between) && left.len() > 0,
        Phase::Reading(reader) => matches!(reader.stage, ReaderStage::Between) && left.len() > 0,
        Phase::Closing | Phase::Over => false,
    }
}

/// Whether the next step of a session takes up an item of its script.
pub fn takes_item<O: Naming, S: Statements>(member: &LentMember<O, S>) -> bool
    ensures { result ≡ takes_item_at member.now.left member.now.phase }
{
    match &member.place {
        Whereabouts::Here(phase) => takes_item_here(&member.left, phase),
        Whereabouts::Away(..) => false,
        Whereabouts::Back(..) => false,
    }
}

fn is_out_here(phase: &Phase) -> bool
    ensures { result ≡ has_out phase.now }
{
    match phase {
        Phase::Writing(writer) => matches!(writer.stage, Stage::Working(_, Work::Out)),
        Phase::Reading(reader) => {
            matches!(reader.stage, ReaderStage::Working(_, ReaderWork::Out))
        }
        Phase::Outside | Phase::Closing | Phase::Over => false,
    }
}

/// Whether the job of a session's statement is to be worked, and isn't lent.
pub fn is_out<O: Naming, S: Statements>(member: &LentMember<O, S>) -> bool
    ensures { result ≡ true → has_out member.now.phase ≡ true }
{
    match &member.place {
        Whereabouts::Here(phase) => is_out_here(phase),
        Whereabouts::Away(..) => false,
        Whereabouts::Back(..) => false,
    }
}

/// Takes a session out; another stands in its place until it is put back.
pub fn take_member<O: Naming, S: Statements>(
    members: &mut Vec<LentMember<O, S>>,
    at: usize,
    alloc: Global,
) -> LentMember<O, S>
    requires { at < vec_len members.old }
    ensures taken { slice_get members.old.items at ≡ Some result }
    ensures rest { (m : MemberValue) → slice_set members.new.items at m ≡ slice_set members.old.items at m }
    ensures len { vec_len members.new ≡ vec_len members.old }
{
    replace(&mut members[at], LentMember::nobody(alloc))
}

/// Puts a session back. (What stood in its place owns nothing.)
pub fn put_member<O: Naming, S: Statements>(
    members: &mut Vec<LentMember<O, S>>,
    at: usize,
    member: LentMember<O, S>,
)
    requires { at < vec_len members.old }
    ensures { members.new.items ≡ slice_set members.old.items at member }
{
    forget(replace(&mut members[at], member));
}

/// Takes a session out that goes on in a database of this word; another stands in its place until it is put back. None where its job is
/// out, or was worked over another word: then nothing changes.
pub fn take_present<O: Naming, S: Statements>(
    members: &mut Vec<LentMember<O, S>>,
    at: usize,
    alloc: Global,
    word: &Word,
) -> Option<Present<S>>
    requires { at < vec_len members.old }
    ensures taken { IfSome result (λ p. slice_get members.old.items at ≡ Some (member_of p)) }
    ensures word { IfSome result (λ p. IsPresent word.now p.presence) }
    ensures rest { (m : MemberValue) → slice_set members.new.items at m ≡ slice_set members.old.items at m }
    ensures len { vec_len members.new ≡ vec_len members.old }
    ensures same { result ≡ None → members.new.items ≡ members.old.items }
{
    match take_member(members, at, alloc).present(word) {
        Ok(present) => Some(present),
        Err(member) => {
            put_member(members, at, member);
            None
        }
    }
}
