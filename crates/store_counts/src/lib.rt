//! How the account's counts bound what a store has taken, so that each refusal at a limit has its cause in the account.
#![tactic(auto)]

mod causes;
mod counts;

pub use causes::limits_have_causes;
pub use counts::{counts_go_on, rooms_take_pages, stores_are_counted};
