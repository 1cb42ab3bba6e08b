// What is held for a session.
ghost use Rattle.std.specs.Prelude.{◌≡◌, ◌<◌, ◌+◌, [], false, IfSome, IfNone, OnOk, OnErr, IsErrOf};
ghost use Rattle.line_store.specs.Seats.{IsWriting, IsPrepared, IsUnderWay, writes_of, is_committing, lines_added, lines_written, prepared_by, given_back, committing_by, rolled_back, died};
ghost use Rattle.member_memory.specs.Memory.{writes_in};
ghost use Rattle.memory_store.specs.Kept.{seat_of, is_ready, StepsTo, IsChanged};

use crate::lines::LineMap;
use line_store::Stepped;
use line_view::Write;
use member_memory::{AddStop, MemberLines};
use rdb_types::{Moment, Tsn};
use std::alloc::Global;

/// What is held for a session.
#[derive(Drop)]
pub(crate) enum Seat {
    Outside,
    Beginning,
    Writing(MemberLines),
    Changing(MemberLines),
    Prepared(MemberLines),
    Committing(MemberLines),
    RollingBack(MemberLines),
    Closing,
    /// The lines are those at the reader's start.
    Reading(LineMap),
    /// These lines go into the backup of this number.
    Copying(u32, LineMap),
    /// Whether its commit was under way.
    Dead(bool, MemberLines),
}

impl Seat {
    /// What the session's transaction wrote.
    pub(crate) fn written(&self) -> Option<&MemberLines>
        ensures some { IfSome result (λ own. writes_of (seat_of self.now) ≡ writes_in own.now.lines) }
        ensures none { IfNone result (writes_of (seat_of self.now) ≡ []) }
    {
        match self {
            Seat::Writing(lines) => Some(lines),
            Seat::Changing(lines) => Some(lines),
            Seat::Prepared(lines) => Some(lines),
            Seat::Committing(lines) => Some(lines),
            Seat::RollingBack(lines) => Some(lines),
            Seat::Dead(_, lines) => Some(lines),
            _ => None,
        }
    }

    /// A statement's writes are laid over those before, where so many lines are no more than the limit. Else, and where memory fails, the seat is as it was.
    pub(crate) fn changing(self, limit: u32, writes: &[Write]) -> (Seat, Result<(), AddStop>)
        requires { IsWriting (seat_of self) }
        ensures quiet { is_ready (seat_of result.0) ≡ false }
        ensures ok { OnOk result.1 (IsChanged writes.now (seat_of self) (seat_of result.0)) }
        ensures err { OnErr result.1 (seat_of result.0 ≡ seat_of self) }
        ensures full { IsErrOf result.1 AddStop.Full
            → limit < lines_written (writes_of (seat_of self)) + lines_added (writes_of (seat_of self)) writes.now }
    {
        let Seat::Writing(mut lines) = self else {
            unreachable!()
        };
        // (so each of them is counted once)
        let _keys = lines.keys();
        match lines.change(Tsn { number: 0 }, limit, writes) {
            Ok(()) => (Seat::Changing(lines), Ok(())),
            Err(stop) => (Seat::Writing(lines), Err(stop)),
        }
    }

    pub(crate) fn preparing(self) -> Seat
        requires { IsWriting (seat_of self) }
        ensures { seat_of result ≡ prepared_by (seat_of self) }
    {
        let Seat::Writing(lines) = self else {
            unreachable!()
        };
        Seat::Prepared(lines)
    }

    pub(crate) fn giving_back(self) -> Seat
        requires { IsPrepared (seat_of self) }
        ensures { seat_of result ≡ given_back (seat_of self) }
    {
        let Seat::Prepared(lines) = self else {
            unreachable!()
        };
        Seat::Writing(lines)
    }

    pub(crate) fn committing(self) -> Seat
        requires { IsPrepared (seat_of self) }
        ensures { seat_of result ≡ committing_by (seat_of self) }
    {
        let Seat::Prepared(lines) = self else {
            unreachable!()
        };
        Seat::Committing(lines)
    }

    pub(crate) fn rolling_back(self) -> Seat
        requires { IsWriting (seat_of self) }
        ensures { seat_of result ≡ rolled_back (seat_of self) }
    {
        let Seat::Writing(lines) = self else {
            unreachable!()
        };
        Seat::RollingBack(lines)
    }

    pub(crate) fn died(self, alloc: Global) -> Seat
        ensures { seat_of result ≡ died (seat_of self) }
    {
        match self {
            Seat::Writing(lines) => Seat::Dead(false, lines),
            Seat::Changing(lines) => Seat::Dead(false, lines),
            Seat::Prepared(lines) => Seat::Dead(false, lines),
            Seat::Committing(lines) => Seat::Dead(true, lines),
            Seat::RollingBack(lines) => Seat::Dead(false, lines),
            Seat::Dead(_, lines) => Seat::Dead(false, lines),
            _ => Seat::Dead(false, MemberLines::new(alloc)),
        }
    }

    /// The seat behind a step of what is under way, which isn't a commit, and what is answered.
    pub(crate) fn stepped(self, alloc: Global) -> (Seat, Stepped)
        requires under_way { IsUnderWay (seat_of self) }
        requires plain { is_committing (seat_of self) ≡ false }
        ensures { StepsTo (seat_of self) (seat_of result.0) result.1 }
    {
        match self {
            Seat::Beginning => (Seat::Writing(MemberLines::new(alloc)), Stepped::Done),
            Seat::Changing(lines) => (Seat::Writing(lines), Stepped::Done),
            Seat::RollingBack(_) => (Seat::Outside, Stepped::Done),
            Seat::Closing => (Seat::Outside, Stepped::Done),
            Seat::Copying(_, start) => (Seat::Reading(start), Stepped::Done),
            Seat::Dead(_, _) => (
                Seat::Outside,
                Stepped::Recovered {
                    is_committed: false,
                    moment: Moment { number: 0 },
                },
            ),
            _ => unreachable!(),
        }
    }
}
