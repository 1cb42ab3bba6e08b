//! In which areas of the tables deletions read and write.
#![tactic(auto)]

mod laws;

pub use laws::deletions_keep_to_what_they_name;
pub use schema_writes::{
    SchemaRefusal, SchemaStop, define_field, define_relation, delete_index, delete_relation,
};
