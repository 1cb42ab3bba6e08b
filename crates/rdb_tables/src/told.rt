ghost use Rattle.std.specs.Prelude.{◌≡◌, []};

use rdb_types::{Items, Keys};
use rdo_ast::reply::{Reply, Standing};
use std::alloc::Global;

/// The answer to an item: its reply, the standing that it leaves, and the Dbkeys that its rows were given.
#[derive(Drop)]
pub struct Told {
    pub reply: Reply,
    pub standing: Standing,
    pub taken: Keys,
}

impl Told {
    /// An answer to an item that gave no Dbkey.
    pub fn plain(alloc: Global, reply: Reply, standing: Standing) -> Told
        ensures { result ≡ record { reply = reply; standing = standing; taken = [] } }
    {
        Told {
            reply,
            standing,
            taken: Items::new(alloc),
        }
    }

    /// The answer to an item that is done and prints nothing.
    pub fn done(alloc: Global, standing: Standing) -> Told
        ensures { result ≡ record { reply = Reply.Done []; standing = standing; taken = [] } }
    {
        Told::plain(alloc, Reply::Done(Items::new(alloc)), standing)
    }
}
