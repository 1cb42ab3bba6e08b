//! What is read of a script depends on the kinds and the spellings of its tokens, and not on how many bytes are behind them.
#![tactic(auto)]

pub mod laws;
