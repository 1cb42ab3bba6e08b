//! The steps of a statement's change on a disk: before-images, and then the lines that are pushed aside for readers.
#![tactic(auto)]

mod journalling;
mod pushing;
mod steps;

pub use disk_store::{
    Ceiling, Held, MemberStage, ask, begin, begin_reading, change, commit, draw, give_back,
    learn_area, learn_line, prepare, room, steps_are_few, take_room,
};
pub use steps::change_step;
