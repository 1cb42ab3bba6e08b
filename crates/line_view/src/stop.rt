// Why work over a view stops.
ghost use Rattle.std.specs.Prelude.{◌≡◌};
ghost use Rattle.line_view.specs.Stops.{IfOwn, IsMapped, of_view};

use crate::Need;
use ordered_entries::{Dbkey, NoMemory};
use std::alloc::AllocError;

/// Why work over a view stops. `Own` is what this kind of work has beside that.
#[derive(Clone, Copy, Debug, PartialEq, Eq)]
pub enum Stop<E> {
    /// The view lacks what the work reads next.
    Missing(Need),
    /// This line's bytes are none of its kind.
    Bad(Dbkey),
    NoMemory,
    Own(E),
}

/// What work has of its own that has no reason of its own to stop.
#[derive(Clone, Copy)]
pub enum Never {}

impl<E> From<NoMemory> for Stop<E> {
    ghost use Rattle.line_view.specs.declared.stop.Stop.TheVariants as stops;

    ghost from_gives = { λ _ e. e ≡ stops.NoMemory };

    fn from(_: NoMemory) -> Self {
        Stop::NoMemory
    }
}

impl<E> From<AllocError> for Stop<E> {
    ghost use Rattle.line_view.specs.declared.stop.Stop.TheVariants as stops;

    ghost from_gives = { λ _ e. e ≡ stops.NoMemory };

    fn from(_: AllocError) -> Self {
        Stop::NoMemory
    }
}

impl<E> Stop<E> {
    /// The same stop of work whose own reason is another.
    pub fn map_own<D, F: FnOnce(E) -> D>(self, own: F) -> Stop<D>
        requires { IfOwn (F.pre own) self }
        ensures { IsMapped (F.post own) self result }
    {
        match self {
            Stop::Missing(need) => Stop::Missing(need),
            Stop::Bad(key) => Stop::Bad(key),
            Stop::NoMemory => Stop::NoMemory,
            Stop::Own(reason) => Stop::Own(own(reason)),
        }
    }
}

impl Stop<Never> {
    /// The same stop of work that may have a reason of its own.
    pub fn of_view<E>(self) -> Stop<E>
        ensures { result ≡ of_view self }
    {
        match self {
            Stop::Missing(need) => Stop::Missing(need),
            Stop::Bad(key) => Stop::Bad(key),
            Stop::NoMemory => Stop::NoMemory,
        }
    }
}
