// The steps of a commit.
ghost use Rattle.std.specs.Prelude.{◌≡◌, ◌≢◌, ◌≤◌, true, false, Ok, Some, length, slice_get};
ghost use Rattle.line_store.specs.Seats.{IsMember, is_committing};
ghost use Rattle.line_store.specs.Sights.{Steps, stepped_to, MayAnswer, IsLess};
ghost use Rattle.line_store.specs.declared.answers.Stepped.TheVariants as stepped;
ghost use Rattle.line_seat.specs.declared.commit.CommitStage.TheVariants.{Committed};
ghost use Rattle.disk_seats.specs.Ledgers.{again as stage_again};
ghost use Rattle.member_steps.specs.declared.committing.CommitTurn.{CommitTurn as Turn};
ghost use Rattle.member_steps.specs.declared.committing.CommitTurn.TheVariants.{Going};
ghost use Rattle.disk_store.specs.declared.member.Member.{Member as Sits};
ghost use Rattle.disk_store.specs.declared.member.MemberStage.TheVariants as stage;
ghost use Rattle.disk_store.specs.Commits.{HasSome};
ghost use Rattle.disk_store.specs.Grown.{Grow};
ghost use Rattle.disk_store.specs.OwnFiles.{WritesOwn};
ghost use Rattle.disk_store.specs.Seats.{stand_at, IsAtStage};
ghost use Rattle.disk_store.specs.Shown.{DoesOn, sight_of};
ghost use Rattle.commit_steps.specs.Turns.{turn_again, group_for, WritesNone, MakesTurn};

use disk_store::{Held, Member, MemberStage};
use line_seat::{CommitStage, GroupPlace};
use line_store::{Fault, Stepped};
use member_steps::{CommitTurn, commit_next};
use rdb_outside::Disk;
use rdb_types::Session;

// Where the commit goes on behind a fault.
fn again(stage: CommitStage) -> CommitStage
    ensures { result ≡ stage_again stage }
{
    match stage {
        CommitStage::Changing(at) => CommitStage::Changing(at),
        CommitStage::Imaging(_) => CommitStage::Imaging(0),
        CommitStage::Gathering => CommitStage::Imaging(0),
        CommitStage::Sealing => CommitStage::Sealing,
        CommitStage::Landing => CommitStage::Sealing,
        CommitStage::Committed => CommitStage::Committed,
    }
}

// The turn behind a fault: the owners of pages are entered from the first line on.
fn made_again(turn: CommitTurn) -> CommitTurn
    ensures { result ≡ turn_again turn }
{
    match turn {
        CommitTurn::Entering(_) => CommitTurn::Entering(0),
        CommitTurn::Securing => CommitTurn::Entering(0),
        CommitTurn::Going(stage) => CommitTurn::Going(again(stage)),
    }
}

// Whether a commit that has come to a turn is through.
fn is_through(turn: CommitTurn) -> bool
    ensures yes { result ≡ true → turn ≡ Going Committed }
    ensures no { result ≡ false → turn ≢ Going Committed }
{
    match turn {
        CommitTurn::Entering(_) => false,
        CommitTurn::Securing => false,
        CommitTurn::Going(stage) => match stage {
            CommitStage::Changing(_) => false,
            CommitStage::Imaging(_) => false,
            CommitStage::Gathering => false,
            CommitStage::Sealing => false,
            CommitStage::Landing => false,
            CommitStage::Committed => true,
        },
    }
}

// The turn of a session's commit.
fn turn_of(held: &Held, s: Session) -> CommitTurn
    requires member { IsMember s.number }
    requires commits { (turn : Turn) × IsAtStage held.now.members s.number (stage.Committing turn) }
    ensures { IsAtStage held.now.members s.number (stage.Committing result) }
{
    match held.member(s).stage {
        MemberStage::Committing(turn) => turn,
        _ => unreachable!(),
    }
}

// Whether a commit that begins writes no line.
fn writes_none(held: &Held, s: Session, turn: CommitTurn) -> bool
    requires member { IsMember s.number }
    requires commits { IsAtStage held.now.members s.number (stage.Committing turn) }
    ensures none { result ≡ true → WritesNone held.now.members s.number turn }
    ensures some { (result ≡ true → ⊥) → (m : Sits) → slice_get held.now.members s.number ≡ Some m → 1 ≤ length m.written.keys }
{
    held.keeps_commits();
    match turn {
        CommitTurn::Entering(_) => held.member(s).written.keys().is_empty(),
        CommitTurn::Securing => false,
        CommitTurn::Going(_) => false,
    }
}

// Where the group of a session's transaction is written.
fn group_of(held: &Held, s: Session) -> GroupPlace
    requires { IsMember s.number }
    ensures { (m : Sits) → slice_get held.now.members s.number ≡ Some m → result ≡ group_for held.now m }
{
    let next = held.next_group();
    GroupPlace {
        slot: next.slot,
        number: next.number,
        tsn: held.member(s).tsn,
    }
}

// Goes on with a session's commit, by what memory has of it.
fn turn_on<D: Disk>(
    disk: &mut D,
    held: &Held,
    s: Session,
    turn: CommitTurn,
) -> Result<CommitTurn, Fault>
    requires member { IsMember s.number }
    requires commits { IsAtStage held.now.members s.number (stage.Committing turn) }
    requires some { (m : Sits) → slice_get held.now.members s.number ≡ Some m → 1 ≤ length m.written.keys }
    ensures { (m : Sits) → slice_get held.now.members s.number ≡ Some m
        → MakesTurn (D.view disk.old) (D.view disk.new) turn (group_for held.now m) m.written.lines m.classes.items result }
{
    held.sound();
    held.keeps_commits();
    let mut page = [0; 1024];
    let group = group_of(held, s);
    let member = held.member(s);
    commit_next(
        disk,
        turn,
        group,
        member.written.lines(),
        &member.classes,
        &mut page,
    )
}

/// A step of a session's commit: one write or one barrier at most, and no memory. A commit of no lines makes no device call. Behind a fault the step is made again.
pub fn commit_step<D: Disk>(disk: &mut D, held: &mut Held, s: Session) -> Result<Stepped, Fault>
    requires member { IsMember s.number }
    requires commits { (turn : Turn) × IsAtStage held.old.members s.number (stage.Committing turn) }
    ensures answers { MayAnswer (stand_at held.old.members s.number) result }
    ensures comes { DoesOn s.number (stepped_to (stand_at held.old.members s.number) result)
        (Steps s.number result) (D.view disk.old) held.old (D.view disk.new) held.new }
    ensures less { result ≡ Ok stepped.More → IsLess s.number (sight_of (D.view disk.old) held.old) (sight_of (D.view disk.new) held.new) }

    // One slot at most is written, of the database's own files.
    ensures writes { WritesOwn (D.view disk.old) (D.view disk.new) }

    // Pages of areas stay theirs, of their classes.
    ensures grows { Grow held.old.tables held.new.tables }
{
    held.sound();
    held.keeps_commits();
    let turn = turn_of(held, s);
    if writes_none(held, s, turn) {
        held.set_stage(s, MemberStage::Closing);
        return Ok(Stepped::Committed(disk.moment()));
    }
    match turn_on(disk, held, s, turn) {
        Ok(next) => {
            if is_through(next) {
                held.land(s, MemberStage::Closing);
                return Ok(Stepped::Committed(disk.moment()));
            }
            held.set_turn(s, next);
            Ok(Stepped::More)
        }
        Err(fault) => {
            held.set_turn(s, made_again(turn));
            Err(fault)
        }
    }
}

/// Whether a session's next step is the barrier that makes its commit stable.
pub fn is_at_barrier(held: &Held, s: Session) -> bool
    ensures { result ≡ true → is_committing (stand_at held.now.members s.number) ≡ true }
{
    matches!(
        held.members().get(s.number as usize),
        Some(Member {
            stage: MemberStage::Committing(CommitTurn::Going(CommitStage::Landing)),
            ..
        })
    )
}
