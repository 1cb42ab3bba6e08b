use line_store::LineStore;
use lock_tree::Tree;
use rdb_types::Word;
use std::alloc::Global;

/// What all sessions share.
#[derive(Drop)]
pub struct Common<L: LineStore> {
    pub alloc: Global,
    /// The database's word.
    pub word: Word,
    pub store: L,
    pub tree: Tree,
}
