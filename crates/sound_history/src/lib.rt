//! Laws of transactions over sound maps of lines.
#![tactic(auto)]

mod laws;

pub use laws::transactions_hold_over_sound_lines;
