//! The lines of the catalog as bytes: relations, global fields, fields and indexes.
#![tactic(auto)]

mod allowed;
mod laws;
mod line;
mod parts;
mod reading;
mod writing;

pub use allowed::is_allowed_line;
pub use laws::catalog_lines_fit_the_lesser_class;
pub use line::{CatalogLine, FieldLine, GlobalLine, IndexLine, RelationLine};
pub use parts::{is_name, is_type};
pub use reading::{one_line, read_catalog_line};
pub use writing::{one_image, put_catalog_line};
