ghost use Rattle.std.specs.Prelude.{◌≡◌};

use crate::desk::Naming;
use crate::receipt::Receipt;
use std::marker::Model;

/// A value that a desk has lent. Contracts see it as the value.
#[derive(Drop)]
pub struct Loan<J: Naming, T> {
    receipt: Receipt<J, T>,
    value: T,
}

impl<J: Naming, T> Model for Loan<J, T> {
    ghost use Rattle.std.specs.Prelude.{◌≡◌};

    ghost Value = { T };

    ghost coded = { T.code };

    ghost view = { λ l. l.value };

    ghost invariant = { λ l. l.receipt ≡ l.value };
}

impl<J: Naming, T> Loan<J, T> {
    /// The value beside a receipt for it.
    pub fn new(receipt: Receipt<J, T>, value: T) -> Loan<J, T>
        requires { receipt ≡ value }
        ensures { result ≡ value }
    {
        Loan { receipt, value }
    }

    pub fn value(&self) -> &T
        ensures { result.now ≡ self.now }
    {
        &self.value
    }

    /// The receipt, which goes on knowing what was lent.
    pub fn receipt(&self) -> &Receipt<J, T>
        ensures { result.now ≡ self.now }
    {
        &self.receipt
    }

    /// The receipt, which goes on knowing what was lent, and the value.
    pub fn open(self) -> (Receipt<J, T>, T)
        ensures { (result.0 ≡ self) × (result.1 ≡ self) }
    {
        (self.receipt, self.value)
    }

    /// Makes something of the value, in any thread.
    pub fn work<R: Answer<T>>(self) -> Worked<J, T, R> {
        let Loan { receipt, value } = self;
        Worked {
            receipt,
            answer: R::of(value),
        }
    }

    /// The same by a maker, which may keep what helps it with the next value.
    pub fn work_by<R: Answer<T>, M: Maker<T, R>>(self, maker: &mut M) -> Worked<J, T, R> {
        let Loan { receipt, value } = self;
        Worked {
            receipt,
            answer: maker.make(value),
        }
    }
}

/// What is made of a value, and says which it was.
pub trait Answer<T> {
    ghost asked: { Self → T };

    fn of(value: T) -> Self
        ensures { asked result ≡ value };
}

/// Makes answers of values.
pub trait Maker<T, R: Answer<T>> {
    fn make(&mut self, value: T) -> R
        ensures { R.asked result ≡ value };
}

/// What was made of a value that a desk has lent.
#[derive(Drop)]
pub struct Worked<J: Naming, T, R: Answer<T>> {
    receipt: Receipt<J, T>,
    answer: R,
    ghost fits: { R.asked answer ≡ receipt },
}

impl<J: Naming, T, R: Answer<T>> Worked<J, T, R> {
    /// The receipt, which goes on knowing what was lent.
    pub fn receipt(&self) -> &Receipt<J, T>
        ensures { result.now ≡ self.now.receipt }
    {
        &self.receipt
    }

    /// The receipt, and what was made of what it knows.
    pub fn open(self) -> (Receipt<J, T>, R)
        ensures receipt { result.0 ≡ self.receipt }
        ensures answer { result.1 ≡ self.answer }
    {
        (self.receipt, self.answer)
    }
}
