//! The statements of a script as trees, and the places of what is no statement.
#![tactic(auto)]

mod definition;
mod items;
mod law;
mod next;
mod place;
mod statement;
mod transaction;

pub use items::Script;
pub use law::{items_in_order, one_token_ahead};
pub use next::{Parsed, SyntaxAt, next_statement};
