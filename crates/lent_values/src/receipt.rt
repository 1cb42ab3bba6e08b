ghost use Rattle.std.specs.Prelude.{◌≡◌, true, Some, slice_get, IfOk, IfErr};

use crate::desk::Naming;
use crate::loan::{Answer, Loan, Worked};
use crate::rule::Law;
use logbook::Seen;
use std::marker::{Model, PhantomData};
use std::snapshot::Snapshot;

/// What tells one loan of a desk from another, and knows in proofs alone what was lent: contracts see it as that value.
#[derive(Drop)]
pub struct Receipt<J: Naming, T> {
    number: u64,
    what: Snapshot<T>,
    seen: Seen<T, u64, Law>,
    of: PhantomData<J>,
}

impl<J: Naming, T> Model for Receipt<J, T> {
    ghost use Rattle.std.specs.Prelude.{◌≡◌, Some, slice_get};

    ghost Value = { T };

    ghost coded = { T.code };

    ghost view = { λ r. r.what.value };

    ghost invariant = { λ r. (r.seen.book ≡ J.book) × (slice_get r.seen.log r.number ≡ Some r.what.value) };
}

impl<J: Naming, T> Receipt<J, T> {
    // The receipt for the value at a number of the log.
    pub(crate) fn new(number: u64, seen: &Seen<T, u64, Law>, value: &T) -> Receipt<J, T>
        requires book { seen.now.book ≡ J.book }
        requires there { slice_get seen.now.log number ≡ Some value.now }
        ensures { result ≡ value.now }
    {
        Receipt {
            number,
            what: Snapshot::of(value),
            seen: seen.again(),
            of: PhantomData,
        }
    }

    /// Whether two are of one loan.
    pub fn is_of(&self, other: &Receipt<J, T>) -> bool
        ensures { result ≡ true → other.now ≡ self.now }
    {
        let mut both = self.seen.again();
        both.learn(&other.seen);
        self.number == other.number
    }

    /// Takes back what was lent, where the loan is of this receipt; else gives both back.
    pub fn settle(self, loan: Loan<J, T>) -> Result<T, (Receipt<J, T>, Loan<J, T>)>
        ensures same { IfOk result (λ value. value ≡ self) }
        ensures back { IfErr result (λ it. (it.0 ≡ self) × (it.1 ≡ loan)) }
    {
        if self.is_of(loan.receipt()) {
            let (_, value) = loan.open();
            Ok(value)
        } else {
            Err((self, loan))
        }
    }

    /// Takes back what was made of what was lent, where that is of this receipt; else gives both back.
    pub fn settle_worked<R: Answer<T>>(
        self,
        worked: Worked<J, T, R>,
    ) -> Result<R, (Receipt<J, T>, Worked<J, T, R>)>
        ensures same { IfOk result (λ answer. R.asked answer ≡ self) }
        ensures back { IfErr result (λ it. (it.0 ≡ self) × (it.1 ≡ worked)) }
    {
        if self.is_of(worked.receipt()) {
            let (_, answer) = worked.open();
            Ok(answer)
        } else {
            Err((self, worked))
        }
    }
}
