//! Binding: the names of a statement are looked up once, and each reference gets the place of its value in the row of all bound variables.
#![tactic(auto)]

mod action;
mod assign;
mod expression;
mod ranges;
mod reference;
mod refusal;
mod selection;
mod statement;
mod variable;

pub use action::{BoundAction, BoundPrintItem, bind_action};
pub use assign::{BoundAssign, bind_assigns};
pub use expression::{bind_condition, bind_expression};
pub use rdb_checks::Stop;
pub use selection::bind_selection;
pub use statement::{BoundStatement, bind};
pub use variable::BoundVariable;
