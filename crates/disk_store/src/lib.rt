//! The store of lines on a disk: what it keeps in memory beside its disk, what it shows of both as the trait of stores asks for it, and its calls.
#![tactic(auto)]

mod before_images;
mod beginning;
mod change_moves;
mod changing;
mod classes;
mod few;
mod giving;
mod held;
mod landing;
mod laws;
mod learning;
mod member;
mod moves;
mod opening;
mod preparing;
mod rooms;
mod seen;
mod starts;

pub use beginning::{ask, draw};
pub use changing::change;
pub use few::steps_are_few;
pub use held::{Held, Numbers, Tables};
pub use laws::the_sight_is_right;
pub use learning::{learn_area, learn_line};
pub use member::{Ceiling, Member, MemberStage, Recovery};
pub use moves::{begin, commit, give_back};
pub use preparing::prepare;
pub use rooms::{room, take_room};
pub use starts::{begin_reading, leave_reading};
