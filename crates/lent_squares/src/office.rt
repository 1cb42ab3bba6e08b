ghost use Rattle.std.specs.Prelude.{◌≡◌, ◌*◌, IfSome};

use crate::bench::Bench;
use crate::seat::Seat;
use crate::square::Square;
use lent_values::{Desk, Loan, Naming, Opened, Worked};
use std::marker::{Brand, Send};
use std::mem::replace;

/// Which numbers are to be squared. Each call picks them.
pub trait Asked {
    ghost use Rattle.std.specs.Prelude.{ℕ};

    ghost first: { ℕ };

    ghost second: { ℕ };
}

impl Asked for Brand {
    ghost first = { 0 };

    ghost second = { 0 };
}

/// What lies under the lock.
#[derive(Drop)]
pub(crate) struct Office<J: Naming + Asked> {
    desk: Desk<J, u32>,
    first: Seat<J>,
    second: Seat<J>,
    ghost first_is: { first ≡ J.first },
    ghost second_is: { second ≡ J.second },
}

impl<J: Naming + Asked> Office<J> {
    pub(crate) fn new(opened: Opened<u32>, first: u32, second: u32) -> Office<J>
        requires book { opened ≡ J.book }
        requires numbers { (first ≡ J.first) × (second ≡ J.second) }
    {
        Office {
            desk: opened.named(),
            first: Seat::new(first),
            second: Seat::new(second),
        }
    }

    // Both squares, once both are worked.
    pub(crate) fn end(self) -> Option<(u64, u64)>
        ensures { IfSome result (λ r. (r.0 ≡ J.first * J.first) × (r.1 ≡ J.second * J.second)) }
    {
        let Office {
            desk: _,
            first,
            second,
        } = self;
        let (Some(first), Some(second)) = (first.square(), second.square()) else {
            return None;
        };
        Some((first, second))
    }
}

impl<J: Naming + Asked + Send> Bench for Office<J> {
    type Piece = Loan<J, u32>;

    type Done = Worked<J, u32, Square>;

    fn hand_out(&mut self, is_first: bool) -> Option<Loan<J, u32>> {
        if is_first {
            let (seat, loan) = replace(&mut self.first, Seat::new(0)).hand_out(&mut self.desk);
            self.first = seat;
            loan
        } else {
            let (seat, loan) = replace(&mut self.second, Seat::new(0)).hand_out(&mut self.desk);
            self.second = seat;
            loan
        }
    }

    fn work(piece: Loan<J, u32>) -> Worked<J, u32, Square> {
        piece.work()
    }

    fn take(&mut self, is_first: bool, done: Worked<J, u32, Square>) {
        if is_first {
            self.first = replace(&mut self.first, Seat::new(0)).take(done);
        } else {
            self.second = replace(&mut self.second, Seat::new(0)).take(done);
        }
    }
}
