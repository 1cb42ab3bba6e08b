// What a disk in memory keeps of a call.
ghost use Rattle.std.specs.Prelude.{◌≡◌, ◌≤◌, length, take};

use rdb_types::{FileId, FileKind};

/// What a call did.
#[derive(Clone, Copy, Debug, PartialEq, Eq)]
pub enum Effect {
    /// It changed nothing.
    Passed,
    /// It wrote a slot.
    Written,
    /// It failed to write a slot, and a crash may still leave what it was given.
    Lost,
    /// It made all writes stable.
    Settled,
}

/// A call. The file, the slot and the bytes are those of a write, the bytes with zeros behind them.
#[derive(Clone, Copy)]
pub struct Event {
    pub effect: Effect,
    pub file: FileId,
    pub slot: u32,
    pub bytes: [u8; 1024],
}

impl Event {
    ghost use Rattle.rdb_outside.specs.Failing.{failed, writes, is_settled, is_written, may_be_left, kept};
    ghost use Rattle.rdb_outside.specs.declared.event.Effect.TheVariants.{Written};

    /// A write of one slot.
    pub fn writing(file: FileId, slot: u32, from: &[u8]) -> Event
        requires { length from.now ≤ 1024 }
        ensures effect { result.effect ≡ Written }
        ensures file { result.file ≡ file }
        ensures slot { result.slot ≡ slot }
        ensures bytes { take (length from.now) result.bytes ≡ from.now }
    {
        let bytes = filled(from);
        Event {
            effect: Effect::Written,
            file,
            slot,
            bytes,
        }
    }

    /// A call that writes no slot.
    pub fn plain(effect: Effect) -> Event
        ensures { result.effect ≡ effect }
    {
        Event {
            effect,
            file: FileId {
                kind: FileKind::Root,
                number: 0,
            },
            slot: 0,
            bytes: [0; 1024],
        }
    }

    /// The call as one that failed.
    pub fn failed(self) -> Event
        ensures { result ≡ failed self }
    {
        let effect = match self.effect {
            Effect::Written | Effect::Lost => Effect::Lost,
            _ => Effect::Passed,
        };
        let bytes = self.bytes;
        Event {
            effect,
            file: self.file,
            slot: self.slot,
            bytes,
        }
    }

    /// The write as one that reads see.
    pub fn kept(self) -> Event
        ensures { result ≡ kept self }
    {
        let bytes = self.bytes;
        Event {
            effect: Effect::Written,
            file: self.file,
            slot: self.slot,
            bytes,
        }
    }

    /// Whether it wrote that slot.
    pub fn writes(&self, file: FileId, slot: u32) -> bool
        ensures { result ≡ writes self.now file slot }
    {
        self.is_written() && file.is_same(self.file) && slot == self.slot
    }

    /// Whether it wrote a slot.
    pub fn is_written(&self) -> bool
        ensures { result ≡ is_written self.now.effect }
    {
        match self.effect {
            Effect::Written => true,
            _ => false,
        }
    }

    /// Whether it made all writes stable.
    pub fn is_settled(&self) -> bool
        ensures { result ≡ is_settled self.now.effect }
    {
        match self.effect {
            Effect::Settled => true,
            _ => false,
        }
    }

    /// Whether a crash may leave what the call was given.
    pub fn may_be_left(&self) -> bool
        ensures { result ≡ may_be_left self.now.effect }
    {
        match self.effect {
            Effect::Written | Effect::Lost => true,
            _ => false,
        }
    }
}

/// The bytes, and zeros behind them.
fn filled(from: &[u8]) -> [u8; 1024]
    requires { length from.now ≤ 1024 }
    ensures { take (length from.now) result ≡ from.now }
{
    let mut bytes = [0; 1024];
    bytes[..from.len()].copy_from_slice(from);
    bytes
}
