// The lines of an area in memory.
ghost use Rattle.std.specs.Prelude.{◌≡◌, ◌≤◌, [], ℕ, List, length, IsTrue, IfOk, OnOk};
ghost use Rattle.std.specs.Option.{option_copied};
ghost use Rattle.std.specs.FinMap.Entries.{find, put, is_sorted};
ghost use Rattle.rdb_types.specs.Order.{dbkey_order};

use ordered_entries::Entries;
use rdb_types::{Dbkey, Image, NoMemory};
use std::alloc::Global;
use std::marker::Model;

/// The bytes of a line's image, which take no more memory than there are. An `Image` takes that of the longest.
#[derive(Drop)]
pub struct LineBytes {
    held: Vec<u8>,
}

impl Model for LineBytes {
    ghost Value = { List ℕ };

    ghost view = { λ b. b.held.items };

    ghost invariant = { λ b. length b.held.items ≤ 440 };
}

impl LineBytes {
    fn of(alloc: Global, image: &Image) -> Result<LineBytes, NoMemory>
        ensures { IfOk result (λ made. made ≡ image.now) }
    {
        let held = Vec::from_slice(alloc, image.bytes())?;
        Ok(LineBytes { held })
    }

    pub fn bytes(&self) -> &[u8]
        ensures value { result.now ≡ self.now }
        ensures within { length self.now ≤ 440 }
    {
        &self.held
    }
}

/// The present lines of a logical area with the bytes of their images, in the order of their Dbkeys. A line takes the memory of its bytes and a few words.
#[derive(Drop)]
pub struct AreaLines {
    alloc: Global,
    held: Entries<Dbkey, LineBytes>,
}

impl Model for AreaLines {
    ghost use Rattle.line_view.specs.Knowledge.{Lines};

    ghost Value = { Lines };

    ghost view = { λ l. l.held };
}

impl AreaLines {
    /// No line, which takes no memory.
    pub fn new(alloc: Global) -> AreaLines
        ensures { result ≡ [] }
    {
        AreaLines {
            alloc,
            held: Entries::new(alloc),
        }
    }

    /// How many lines there are.
    pub fn len(&self) -> usize
        ensures { result ≡ length self.now }
    {
        self.held.len()
    }

    /// The lines, in the order of their Dbkeys.
    pub fn as_slice(&self) -> &[(Dbkey, LineBytes)]
        ensures value { result.now ≡ self.now }
        ensures ordered { IsTrue (is_sorted dbkey_order self.now) }
    {
        self.held.as_slice()
    }

    /// The bytes of a line.
    pub fn find(&self, key: &Dbkey) -> Option<&LineBytes>
        ensures { option_copied result ≡ find dbkey_order key.now self.now }
    {
        self.held.find(key)
    }

    /// Adds a line, with a copy of the bytes of its image.
    pub(crate) fn put(&mut self, key: Dbkey, image: &Image) -> Result<(), NoMemory>
        ensures { OnOk result (self.new ≡ put dbkey_order key image.now self.old) }
    {
        let bytes = LineBytes::of(self.alloc, image)?;
        self.held.put(key, bytes)
    }
}
