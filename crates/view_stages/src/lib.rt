//! How far the work of a statement has come, and when its record is right.
#![tactic(auto)]

mod laws;

pub use laws::{a_definition_is_right, a_record_is_right, work_goes_on};
