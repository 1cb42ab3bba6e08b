//! Definitions in the catalog: the lines that they write.
#![tactic(auto)]

mod allowed;
mod deletions;
mod fields;
mod indexes;
mod relations;
mod stop;
mod writing;

pub use allowed::{is_index_definition, is_relation_definition};
pub use deletions::{index_goes, relation_goes};
pub use fields::define_field;
pub use indexes::define_index;
pub use relations::define_relation;
