//! The lines that a member's open transaction wrote, in memory until its commit puts them on their pages: in the order of their keys, and with the keys in the order of their before-images. A statement's writes are laid over them wholly or not at all.
#![tactic(auto)]

mod changes;
mod lines;

pub use changes::AddStop;
pub use lines::MemberLines;
