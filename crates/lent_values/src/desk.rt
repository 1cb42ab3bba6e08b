ghost use Rattle.std.specs.Prelude.{◌≡◌, [], length, IfOk, IfErr, IfSome};
ghost use Rattle.lent_values.specs.Rules.{head_of};

use crate::loan::Loan;
use crate::receipt::Receipt;
use crate::rule::{Add, Law, Nothing};
use logbook::{Offer, Seen, Start, Word};
use std::marker::{Brand, Model, PhantomData};

/// Which desk it is. Each call of a program picks it.
pub trait Naming {
    ghost use Rattle.logbook.specs.Pages.{Book};

    ghost book: { Book };
}

impl Naming for Brand {
    ghost book = { record { number = 0; log_name = 0; cells_name = 0 } };
}

/// A desk that has lent nothing, and has no type to its name yet. Contracts see it as its name.
#[derive(Drop)]
pub struct Opened<T> {
    head: Word<T, u64, Law>,
    seen: Seen<T, u64, Law>,
}

impl<T> Model for Opened<T> {
    ghost use Rattle.std.specs.Prelude.{◌≡◌, []};
    ghost use Rattle.logbook.specs.Pages.{Book, book_coded};
    ghost use Rattle.lent_values.specs.Rules.{head_of};

    ghost Value = { Book };

    ghost coded = { book_coded };

    ghost view = { λ o. o.seen.book };

    ghost invariant = { λ o. (o.seen.log ≡ []) × (o.head ≡ head_of o.seen.book) };
}

impl<T> Opened<T> {
    pub fn new() -> Opened<T> {
        let (seen, mut first, _second) = Seen::open(Start::alone(), 0, 0);
        Opened {
            head: Word::tracked(0, &mut first),
            seen,
        }
    }

    /// The desk, by the name of a type.
    pub fn named<J: Naming>(self) -> Desk<J, T>
        requires { self ≡ J.book }
    {
        let Opened { head, seen } = self;
        Desk {
            head,
            count: 0,
            seen,
            of: PhantomData,
        }
    }
}

/// Lends values of a type, by numbers. It keeps none of them.
#[derive(Drop)]
pub struct Desk<J: Naming, T> {
    head: Word<T, u64, Law>,
    count: u64,
    seen: Seen<T, u64, Law>,
    of: PhantomData<J>,
    ghost head_is: { head ≡ head_of J.book },
    ghost book_is: { seen.book ≡ J.book },
    ghost counted: { count ≡ length seen.log },
}

impl<J: Naming, T> Desk<J, T> {
    /// Lends a value, and keeps a receipt that says what it was. Where there is no number left, the value is given back.
    pub fn lend(&mut self, value: T) -> Result<(Receipt<J, T>, Loan<J, T>), T>
        ensures lent { IfOk result (λ r. (r.0 ≡ value) × (r.1 ≡ value)) }
        ensures back { IfErr result (λ v. v ≡ value) }
    {
        match self.note(&value) {
            Some((kept, receipt)) => Ok((kept, Loan::new(receipt, value))),
            None => Err(value),
        }
    }

    // Adds the value to the log, and answers two receipts for it. None where there is no number left, or the log was longer than this desk had seen: nobody but it adds, but
    // no type says so.
    fn note(&mut self, value: &T) -> Option<(Receipt<J, T>, Receipt<J, T>)>
        ensures { IfSome result (λ r. (r.0 ≡ value.now) × (r.1 ≡ value.now)) }
    {
        let number = self.count;
        if number == u64::MAX {
            return None;
        }
        let mut offer: Offer<T, u64, Law, Nothing> = self.seen.plain::<Nothing, T, Add>(value);
        let mut pen = self.seen.no_pen();
        let found = self
            .head
            .compare_exchange::<Add, Nothing>(
                number,
                number + 1,
                &mut self.seen,
                &mut offer,
                &mut pen,
            );
        if found != number {
            self.count = found;
            return None;
        }
        self.count = number + 1;
        let kept = Receipt::new(number, &self.seen, value);
        Some((kept, Receipt::new(number, &self.seen, value)))
    }
}
