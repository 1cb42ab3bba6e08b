//! How the sessions are kept: each with its phase, or, while the job of its statement is out, with the receipt for it.
ghost use Rattle.std.specs.Prelude.{◌≡◌, [], IfOk, IfErr};
ghost use Rattle.session_states.specs.States.{session};
ghost use Rattle.session_states.specs.declared.stage.Life.TheVariants as life;
ghost use Rattle.session_states.specs.declared.stage.Phase.TheVariants as phase;
ghost use Rattle.answered_steps.specs.Absences.{phase_with};
ghost use Rattle.lent_members.specs.Going.{is_dead as is_dead_at, with_life as with_life_of};
ghost use Rattle.lent_members.specs.Whereabouts.{IsPresent, member_of, phase_of, phase_at};

use answered_steps::Absence;
use lent_jobs::WorkedJob;
use lent_values::{Desk, Loan, Naming, Receipt, Worked};
use rdb_types::Word;
use session_jobs::{Job, Statements};
use session_states::{
    ItemQueue, Life, Phase, Reader, ReaderStage, ReaderWork, Stage, Work, Writer,
};
use std::alloc::Global;
use std::marker::Model;

/// Where the phase of a session is.
#[derive(Drop)]
pub enum Whereabouts<O: Naming, S: Statements> {
    Here(Phase),
    /// The job of its statement is lent.
    Away(Absence, Receipt<O, Job>),
    /// What the job came to was given back.
    Back(Absence, WorkedJob<S>),
}

/// A session. Contracts see it as if its job were never lent.
#[derive(Drop)]
pub struct LentMember<O: Naming, S: Statements> {
    /// What it hasn't said yet, but for its statement under way.
    pub left: ItemQueue,
    /// How many items its script has.
    pub total: u32,
    pub life: Life,
    /// Where its phase is.
    pub place: Whereabouts<O, S>,
}

impl<O: Naming, S: Statements> Model for LentMember<O, S> {
    ghost use Rattle.std.specs.Coded.{codes};
    ghost use Rattle.rdo_ast.specs.contracts.syntax.Action as action_type;
    ghost use Rattle.session_states.specs.declared.stage.Member.{Member};
    ghost use Rattle.lent_members.specs.Whereabouts.{phase_of};

    ghost Value = { Member };

    ghost coded = { Prim.hlevel (codes, action_type.the_row.coded) };

    ghost view = { λ m. record { left = m.left; total = m.total; phase = phase_of m.place; life = m.life } };
}

impl<O: Naming, S: Statements> LentMember<O, S> {
    /// A session that has said nothing of these items.
    pub fn new(left: ItemQueue, total: u32) -> LentMember<O, S>
        ensures { result ≡ session left total phase.Outside }
    {
        LentMember {
            left,
            total,
            life: Life::Alive,
            place: Whereabouts::Here(Phase::Outside),
        }
    }

    /// What stands in the place of a session that is taken out. It owns nothing.
    pub fn nobody(alloc: Global) -> LentMember<O, S>
        ensures { result ≡ with_life_of life.Gone (session [] 0 phase.Over) }
    {
        LentMember {
            left: ItemQueue::new(alloc),
            total: 0,
            life: Life::Gone,
            place: Whereabouts::Here(Phase::Over),
        }
    }

    /// Whether it died and awaits its recovery.
    pub fn is_dead(&self) -> bool
        ensures { result ≡ is_dead_at self.now }
    {
        matches!(self.life, Life::Dead)
    }

    /// The session where it stands, with this life.
    pub fn with_life(self, life: Life) -> LentMember<O, S>
        ensures { result ≡ with_life_of life self }
    {
        let LentMember {
            left,
            total,
            life: _,
            place,
        } = self;
        LentMember {
            left,
            total,
            life,
            place,
        }
    }

    /// Lends the job of its statement, where that is to be worked.
    pub fn lend(self, desk: &mut Desk<O, Job>, alloc: Global, word: Word) -> Lending<O, S>
        ensures { result.member ≡ self }
    {
        let LentMember {
            left,
            total,
            life,
            place,
        } = self;
        let (place, loan) = match (&life, place) {
            (Life::Alive, Whereabouts::Here(phase)) => lend_phase(phase, desk, alloc, word),
            (_, place) => (place, None),
        };
        Lending {
            member: LentMember {
                left,
                total,
                life,
                place,
            },
            loan,
        }
    }

    /// Takes back what was made of its job, where it is of the one that is out. Else it is let go.
    pub fn take_back(self, worked: Worked<O, Job, WorkedJob<S>>) -> LentMember<O, S>
        ensures { result ≡ self }
    {
        let LentMember {
            left,
            total,
            life,
            place,
        } = self;
        LentMember {
            left,
            total,
            life,
            place: settle(place, worked),
        }
    }
}

/// A session behind an attempt to lend its job, and the loan.
#[derive(Drop)]
pub struct Lending<O: Naming, S: Statements> {
    /// The session, as it was.
    pub member: LentMember<O, S>,
    /// Its job, where that was lent.
    pub loan: Option<Loan<O, Job>>,
}

// A phase whose job is out, taken apart.
#[derive(Drop)]
struct Parted {
    absence: Absence,
    job: Job,
}

// Takes apart a phase whose job is out, in a database of this word. Any other is given back.
fn part(phase: Phase, alloc: Global, word: Word) -> Result<Parted, Phase>
    ensures parts { IfOk result (λ p. phase_with p.absence p.job ≡ phase) }
    ensures back { IfErr result (λ x. x ≡ phase) }
{
    match phase {
        Phase::Writing(writer) => part_writer(writer, alloc, word),
        Phase::Reading(reader) => part_reader(reader, alloc, word),
        phase => Err(phase),
    }
}

fn part_writer(writer: Writer, alloc: Global, word: Word) -> Result<Parted, Phase>
    ensures parts { IfOk result (λ p. phase_with p.absence p.job ≡ phase.Writing writer) }
    ensures back { IfErr result (λ x. x ≡ phase.Writing writer) }
{
    let Writer {
        standing,
        known,
        spoken,
        waits,
        stage,
    } = writer;
    match stage {
        Stage::Working(item, Work::Out) => Ok(Parted {
            absence: Absence::Writing { spoken, waits },
            job: Job {
                alloc,
                word,
                standing,
                item,
                known,
            },
        }),
        stage => Err(Phase::Writing(Writer {
            standing,
            known,
            spoken,
            waits,
            stage,
        })),
    }
}

fn part_reader(reader: Reader, alloc: Global, word: Word) -> Result<Parted, Phase>
    ensures parts { IfOk result (λ p. phase_with p.absence p.job ≡ phase.Reading reader) }
    ensures back { IfErr result (λ x. x ≡ phase.Reading reader) }
{
    let Reader {
        standing,
        known,
        spoken,
        stage,
    } = reader;
    match stage {
        ReaderStage::Working(item, ReaderWork::Out) => Ok(Parted {
            absence: Absence::Reading { spoken },
            job: Job {
                alloc,
                word,
                standing,
                item,
                known,
            },
        }),
        stage => Err(Phase::Reading(Reader {
            standing,
            known,
            spoken,
            stage,
        })),
    }
}

// The phase whose job this is.
fn rejoin(absence: Absence, job: Job) -> Phase
    ensures { result ≡ phase_with absence job }
{
    match absence {
        Absence::Writing { spoken, waits } => Phase::Writing(Writer {
            standing: job.standing,
            known: job.known,
            spoken,
            waits,
            stage: Stage::Working(job.item, Work::Out),
        }),
        Absence::Reading { spoken } => Phase::Reading(Reader {
            standing: job.standing,
            known: job.known,
            spoken,
            stage: ReaderStage::Working(job.item, ReaderWork::Out),
        }),
    }
}

// Lends the job of a phase at which it is out. Where the desk lends it not, it stays here.
fn lend_phase<O: Naming, S: Statements>(
    phase: Phase,
    desk: &mut Desk<O, Job>,
    alloc: Global,
    word: Word,
) -> (Whereabouts<O, S>, Option<Loan<O, Job>>)
    ensures { phase_of result.0 ≡ phase }
{
    match part(phase, alloc, word) {
        Ok(Parted { absence, job }) => match desk.lend(job) {
            Ok((receipt, loan)) => (Whereabouts::Away(absence, receipt), Some(loan)),
            Err(job) => (Whereabouts::Here(rejoin(absence, job)), None),
        },
        Err(phase) => (Whereabouts::Here(phase), None),
    }
}

// Takes what was made of the job that is out, where it is of that one.
fn settle<O: Naming, S: Statements>(
    place: Whereabouts<O, S>,
    worked: Worked<O, Job, WorkedJob<S>>,
) -> Whereabouts<O, S>
    ensures { phase_of result ≡ phase_of place }
{
    match place {
        Whereabouts::Away(absence, receipt) => match receipt.settle_worked(worked) {
            Ok(answer) => Whereabouts::Back(absence, answer),
            Err((receipt, _)) => Whereabouts::Away(absence, receipt),
        },
        place => place,
    }
}

/// From what a session goes on.
#[derive(Drop)]
pub enum Presence<S: Statements> {
    /// From its phase.
    Here(Phase),
    /// From what its job came to.
    Back(Absence, WorkedJob<S>),
}

/// A session that is taken out to go on.
#[derive(Drop)]
pub struct Present<S: Statements> {
    /// What it hasn't said yet, but for its statement under way.
    pub left: ItemQueue,
    /// How many items its script has.
    pub total: u32,
    pub life: Life,
    /// From what it goes on.
    pub presence: Presence<S>,
}

// From what it goes on: its phase, or what its job came to in a database of this word. Else it can't.
fn presence_of<O: Naming, S: Statements>(
    place: Whereabouts<O, S>,
    word: &Word,
) -> Result<Presence<S>, Whereabouts<O, S>>
    ensures present { IfOk result (λ p. (phase_at p ≡ phase_of place) × IsPresent word.now p) }
    ensures back { IfErr result (λ p. phase_of p ≡ phase_of place) }
{
    match place {
        Whereabouts::Here(phase) => Ok(Presence::Here(phase)),
        Whereabouts::Back(absence, answer) => {
            if answer.job().word.as_slice() == word.as_slice() {
                Ok(Presence::Back(absence, answer))
            } else {
                Err(Whereabouts::Back(absence, answer))
            }
        }
        place => Err(place),
    }
}

impl<O: Naming, S: Statements> LentMember<O, S> {
    /// Opens a session that goes on in a database of this word. One whose job is out, or was worked over another word, is given back.
    pub fn present(self, word: &Word) -> Result<Present<S>, LentMember<O, S>>
        ensures member { IfOk result (λ p. member_of p ≡ self) }
        ensures word { IfOk result (λ p. IsPresent word.now p.presence) }
        ensures back { IfErr result (λ m. m ≡ self) }
    {
        let LentMember {
            left,
            total,
            life,
            place,
        } = self;
        match presence_of(place, word) {
            Ok(presence) => Ok(Present {
                left,
                total,
                life,
                presence,
            }),
            Err(place) => Err(LentMember {
                left,
                total,
                life,
                place,
            }),
        }
    }
}
