//! What RMU writes: the lines of a dump, the bytes of a page, the faults of a verification.
#![tactic(auto)]

mod dump;
mod faults;
mod numbers;
mod page;

pub use dump::{Counted, Dump, dump_text};
pub use faults::{Faults, VerifyFault, faults_text};
pub use numbers::count_line;
pub use page::page_text;
