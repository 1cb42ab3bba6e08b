//! Which pages of the storage areas fail their decoders, and which have another owner than their space page says.
#![tactic(auto)]

mod checks;
mod laws;
mod pages;
mod stop;

pub use checks::{PageCheck, area_file, passes};
pub use laws::{listed_once, nothing_listed};
pub use pages::{check_pages, verify_pages};
pub use stop::RmuStop;
