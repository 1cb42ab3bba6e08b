ghost use Rattle.std.specs.Prelude.{◌≡◌, ◌*◌, IfSome};

use crate::square::Square;
use lent_values::{Desk, Loan, Naming, Receipt, Worked};
use std::marker::Model;

// A number to be squared is due, out, or worked.
#[derive(Drop)]
pub(crate) enum Place<J: Naming> {
    Due(u32),
    Out(Receipt<J, u32>),
    Worked(Square),
}

/// A number to be squared. Contracts see it as the number, wherever that is now.
#[derive(Drop)]
pub(crate) struct Seat<J: Naming> {
    place: Place<J>,
}

impl<J: Naming> Model for Seat<J> {
    ghost use Rattle.std.specs.Prelude.{ℕ};
    ghost use Rattle.lent_squares.specs.Places.{asked_of};

    ghost Value = { ℕ };

    ghost view = { λ s. asked_of s.place };
}

impl<J: Naming> Seat<J> {
    pub(crate) fn new(number: u32) -> Seat<J>
        ensures { result ≡ number }
    {
        Seat {
            place: Place::Due(number),
        }
    }

    // Lends the number, where it is due.
    pub(crate) fn hand_out(self, desk: &mut Desk<J, u32>) -> (Seat<J>, Option<Loan<J, u32>>)
        ensures { result.0 ≡ self }
    {
        match self.place {
            Place::Due(number) => {
                match desk.lend(number) {
                    Ok((receipt, loan)) => (
                        Seat {
                            place: Place::Out(receipt),
                        },
                        Some(loan),
                    ),
                    Err(number) => (
                        Seat {
                            place: Place::Due(number),
                        },
                        None,
                    ),
                }
            }
            place => (Seat { place }, None),
        }
    }

    // Takes a square, where it is of the number that is out.
    pub(crate) fn take(self, worked: Worked<J, u32, Square>) -> Seat<J>
        ensures { result ≡ self }
    {
        match self.place {
            Place::Out(receipt) => {
                match receipt.settle_worked(worked) {
                    Ok(square) => {
                        Seat {
                            place: Place::Worked(square),
                        }
                    }
                    Err((receipt, _)) => {
                        Seat {
                            place: Place::Out(receipt),
                        }
                    }
                }
            }
            place => Seat { place },
        }
    }

    // The square of the number, once it is worked.
    pub(crate) fn square(self) -> Option<u64>
        ensures { IfSome result (λ n. n ≡ self * self) }
    {
        match self.place {
            Place::Worked(square) => Some(square.square),
            _ => None,
        }
    }
}
