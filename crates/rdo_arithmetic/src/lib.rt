//! Arithmetic, comparison, conditions of three values and statistics, on values with their scales, and what reduces rows.
#![tactic(auto)]

mod compare;
mod fitting;
mod numbers;
mod operate;
mod reduced;
mod scaling;
mod statistics;
mod stop;
mod texts;
mod truth;

pub use compare::{compared, is_missing, lies_between, order};
pub use fitting::fit;
pub use numbers::{GREATEST_SCALE, result};
pub use operate::{absent, arithmetic, negated};
pub use reduced::ReducedValues;
pub use scaling::{capped, operated_scale, scaled};
pub use statistics::statistic;
pub use stop::{Misfit, Stop};
pub use texts::{containing, starting_with};
pub use truth::{Truth, both, either, opposite, truth_from};
