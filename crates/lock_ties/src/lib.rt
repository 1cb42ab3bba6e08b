//! The tree of locks and the account tell the same: sleepers, refusals and deadlocks have their causes in the account.
#![tactic(auto)]

mod laws;

pub use laws::{asks_are_for_one_need, causes_are_in_the_account, the_tree_and_the_account_agree};
