use line_view::{Known, Need, Writes};
use rdb_types::{Dbkey, Items, Keys, Word};
use rdo_ast::reply::{Reply, Standing};
use rdo_ast::syntax::Item;
use std::alloc::Global;

/// A statement to be worked, with all that it may read and the memory that it is worked in.
#[derive(Drop)]
pub struct Job {
    pub alloc: Global,
    /// The database's word.
    pub word: Word,
    pub standing: Standing,
    pub item: Item,
    pub known: Known,
}

/// A statement that was worked, beside its job.
#[derive(Drop)]
pub struct TxRecord {
    /// The Dbkeys that its new rows were given.
    pub choices: Keys,
    pub reply: Reply,
    /// The standing behind it.
    pub standing: Standing,
    pub writes: Writes,
}

/// Needs of lines.
pub type Needs = Items<Need>;

/// What a job came to.
#[derive(Drop)]
pub enum Found {
    Done(TxRecord),
    /// What is known lacks all of these.
    Missing {
        /// What the work reads next.
        next: Need,
        /// What it reads later, unless something refuses it before. None need be named.
        later: Needs,
    },
    /// This line's bytes are none of its kind.
    Bad(Dbkey),
    /// It isn't worked, for a cause that its executor names (`leaves` of `Statements`).
    Unworked,
    NoMemory,
}

/// A job that was worked, as it was, what it came to, and what is kept for the next. Who works owns the job, so that what is known needn't be copied for a view of it.
#[derive(Drop)]
pub struct Answer<K> {
    pub job: Job,
    pub kept: K,
    pub found: Found,
}
