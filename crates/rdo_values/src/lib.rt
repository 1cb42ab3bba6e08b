//! Bound forms of expressions and conditions, and what they give at a row: the values of all bound variables, the outermost first.
#![tactic(auto)]

mod bound;
mod condition;
mod expression;
mod scales;

pub use bound::{
    BoundClause, BoundCondition, BoundConjunction, BoundExpression, BoundInner, BoundOperation,
    BoundRange, BoundRanges, BoundReference, BoundSelection, BoundSortKey, BoundTest, KnownTruth,
    KnownValue,
};
pub use condition::holds;
pub use expression::value;
pub use rdo_arithmetic::{Misfit, Stop, fit};
pub use scales::scale;
