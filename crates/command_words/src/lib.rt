//! The words of the command line.
#![tactic(auto)]

mod bytes;
mod copies;
mod deaths;
mod options;
mod orders;
mod words;

pub use copies::copies_of;
pub use deaths::{Death, DeathPoint};
pub use options::usual_limits;
pub use words::{
    Command, PagePlace, Scripts, command_of, database_word, only_reads, order_of, script_words,
};
