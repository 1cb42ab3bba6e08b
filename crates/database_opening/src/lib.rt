//! The opening of a database: what an earlier run left open is undone, one write or one barrier a step, until the store can begin.
#![tactic(auto)]

mod beginning;
mod laws;
mod owners;
mod reading;
mod stages;
mod start;
mod steps;
mod whole;

pub use beginning::begin;
pub use laws::{a_history_begins, the_content_stands};
pub use line_opening::{OpeningFault, area_file};
pub use owners::read_owners;
pub use reading::opened_root;
pub use stages::{Found, Opening, OpeningStage};
pub use start::{StoreStart, start_of};
pub use steps::step;
pub use whole::open_database;
