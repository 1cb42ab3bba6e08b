use aij_journal::{GroupLine, Items, Tsn};

/// Lines as a commit leaves them, in the order of their Dbkeys.
pub type GroupLines = Items<GroupLine>;

/// What one commit journalled.
#[derive(Drop)]
pub struct Group {
    pub number: u64,
    pub tsn: Tsn,
    pub lines: GroupLines,
}

/// Groups in the order of their numbers.
pub type Groups = Items<Group>;
