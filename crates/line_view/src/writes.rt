use ordered_entries::{Dbkey, Image, Items};

/// A line as a change leaves it: present with this image, or not present.
#[derive(Drop)]
pub struct Write {
    pub key: Dbkey,
    pub image: Option<Image>,
}

/// The lines that a change writes, each once.
pub type Writes = Items<Write>;
