// The lines, and what is asked of them.
ghost use Rattle.std.specs.Prelude.{◌≡◌, ◌<◌, ◌^◌, [], ℕ, Some, is_some, length, slice_get, true, IsTrue, IfSome};
ghost use Rattle.std.specs.Option.{option_copied};
ghost use Rattle.std.specs.FinMap.Entries.{find, put, is_sorted};
ghost use Rattle.rdb_types.specs.declared.keys.Line.{Line as Waiting};
ghost use Rattle.rdb_types.specs.Order.{dbkey_order};
ghost use Rattle.member_memory.specs.Memory.{Memory, AreKeysOf, writes_in};

use ordered_entries::Entries;
use rdb_types::{Dbkey, Image, Line};
use std::alloc::Global;
use std::marker::Model;

/// The lines that a transaction wrote. A line is found in time that grows with the logarithm of their count.
#[derive(Drop)]
pub struct MemberLines {
    pub(crate) lines: Entries<Dbkey, Line>,
    pub(crate) keys: Vec<Dbkey>,
}

impl Model for MemberLines {
    ghost use Rattle.std.specs.Prelude.{◌<◌, ◌^◌, length};
    ghost use Rattle.member_memory.specs.Memory.{Memory, AreKeysOf};

    ghost Value = { Memory };

    ghost view = { λ m. record { lines = m.lines; keys = m.keys.items } };

    ghost invariant = { λ m. AreKeysOf m.lines m.keys.items × (length m.keys.items < 2 ^ 32) };
}

impl MemberLines {
    /// No line, which takes no memory.
    pub fn new(alloc: Global) -> MemberLines
        ensures { result ≡ record { lines = []; keys = [] } }
    {
        MemberLines {
            lines: Entries::new(alloc),
            keys: Vec::new(alloc),
        }
    }

    /// The lines, in the order of their keys.
    pub fn lines(&self) -> &[(Dbkey, Line)]
        ensures value { result.now ≡ self.now.lines }
        ensures ordered { IsTrue (is_sorted dbkey_order self.now.lines) }
    {
        self.lines.as_slice()
    }

    /// The keys of the lines, each once, in the order in which they were written first.
    pub fn keys(&self) -> &[Dbkey]
        ensures value { result.now ≡ self.now.keys }
        ensures its { AreKeysOf self.now.lines self.now.keys }
        ensures few { length result.now < 2 ^ 32 }
    {
        self.keys.as_slice()
    }

    /// The line of a key, where the transaction wrote it.
    pub fn line(&self, key: Dbkey) -> Option<&Line>
        ensures found { option_copied result ≡ find dbkey_order key self.now.lines }
        ensures ordered { IsTrue (is_sorted dbkey_order self.now.lines) }
    {
        self.lines.find(&key)
    }

    /// The version before a line stands at this chain. The lines come to the same writes.
    pub fn set_chain(&mut self, key: Dbkey, chain: u32)
        ensures found { (line : Waiting) → find dbkey_order key self.old.lines ≡ Some line
            → self.new.lines ≡ put dbkey_order key (record { state = line.state; tsn = line.tsn; chain = chain; image = line.image }) self.old.lines }
        ensures same { writes_in self.new.lines ≡ writes_in self.old.lines }
        ensures keys { self.new.keys ≡ self.old.keys }
    {
        if let Some(line) = self.lines.find(&key) {
            let next = Line {
                state: line.state,
                tsn: line.tsn,
                chain,
                image: Image::from_bytes(line.image.bytes()),
            };
            let _before = self.lines.exchange(&key, next);
        }
    }
}
