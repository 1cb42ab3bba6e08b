// Where a session stands.
ghost use Rattle.std.specs.Prelude.{◌≡◌, true, false, None, is_some};
ghost use Rattle.line_store.specs.Seats.{IsAtRest, IsUnderWay, IsAlive, in_flight, done_at, failed_at, died};
ghost use Rattle.line_store.specs.Sights.{bare, seat_or};
ghost use Rattle.store_desk.specs.Places.{seat_in};

/// Where a session stands with its store.
#[derive(Clone, Copy, Debug, PartialEq, Eq)]
pub enum Place {
    Outside,
    Beginning,
    Writing,
    Changing,
    /// A step of its change failed.
    Broken,
    Prepared,
    Committing,
    RollingBack,
    Closing,
    Reading,
    /// It reads, and copies into the backup of this number.
    Copying(u32),
    /// It died before its commit.
    Fallen,
    /// It died in its commit.
    FallenInCommit,
}

impl Place {
    /// The place behind what is under way.
    pub(crate) fn done(self) -> Place
        requires { is_some (done_at (seat_in self)) ≡ true }
        ensures { seat_in result ≡ bare (seat_or (seat_in self) (done_at (seat_in self))) }
    {
        match self {
            Place::Beginning | Place::Changing => Place::Writing,
            Place::RollingBack | Place::Closing => Place::Outside,
            Place::Copying(_) => Place::Reading,
            _ => unreachable!(),
        }
    }

    /// The place behind a step that failed.
    pub(crate) fn failed(self) -> Place
        ensures { seat_in result ≡ bare (failed_at (seat_in self)) }
    {
        match self {
            Place::Changing => Place::Broken,
            place => place,
        }
    }

    /// The place of who died there.
    pub(crate) fn fallen(self) -> Place
        ensures { seat_in result ≡ bare (died (seat_in self)) }
    {
        match self {
            Place::Committing => Place::FallenInCommit,
            _ => Place::Fallen,
        }
    }

    /// Whether something is under way.
    pub(crate) fn is_under_way(self) -> bool
        ensures { result ≡ true → IsUnderWay (seat_in self) }
    {
        !matches!(
            self,
            Place::Outside | Place::Writing | Place::Broken | Place::Prepared | Place::Reading
        )
    }

    /// Whether a transaction is open, and nothing is under way.
    pub(crate) fn is_at_rest(self) -> bool
        ensures { result ≡ true → IsAtRest (seat_in self) }
    {
        matches!(self, Place::Writing | Place::Reading)
    }

    pub(crate) fn is_alive(self) -> bool
        ensures { result ≡ true → IsAlive (seat_in self) }
    {
        !matches!(self, Place::Fallen | Place::FallenInCommit)
    }

    /// Whether a commit is under way.
    pub(crate) fn is_in_flight(self) -> bool
        ensures { result ≡ false → in_flight (seat_in self) ≡ None }
    {
        matches!(self, Place::Committing | Place::FallenInCommit)
    }
}
