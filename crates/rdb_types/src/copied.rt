ghost use Rattle.std.specs.Prelude.{◌≡◌, IfOk};

use crate::{Bytes, Dbkey, Field, FieldType, Items, NoMemory, Scaled, Value};
use std::alloc::Global;

/// A value of which an equal one can be made.
pub trait Copied: Drop {
    /// A second value that equals this one.
    fn copied(&self, alloc: Global) -> Result<Self, NoMemory>
        ensures { IfOk result (λ made. made ≡ self.now) };
}

impl<T: Copied> Copied for Items<T> {
    fn copied(&self, alloc: Global) -> Result<Items<T>, NoMemory> {
        let mut copy = Items::new(alloc);
        for item in self.as_slice() {
            copy.push(item.copied(alloc)?)?;
        }
        Ok(copy)
    }
}

impl<A: Copied, B: Copied> Copied for (A, B) {
    fn copied(&self, alloc: Global) -> Result<(A, B), NoMemory> {
        let first = self.0.copied(alloc)?;
        let second = self.1.copied(alloc)?;
        Ok((first, second))
    }
}

impl Copied for u8 {
    fn copied(&self, _alloc: Global) -> Result<u8, NoMemory> {
        Ok(*self)
    }
}

impl Copied for u16 {
    fn copied(&self, _alloc: Global) -> Result<u16, NoMemory> {
        Ok(*self)
    }
}

impl Copied for u32 {
    fn copied(&self, _alloc: Global) -> Result<u32, NoMemory> {
        Ok(*self)
    }
}

impl Copied for Dbkey {
    fn copied(&self, _alloc: Global) -> Result<Dbkey, NoMemory> {
        Ok(*self)
    }
}

impl Copied for FieldType {
    fn copied(&self, _alloc: Global) -> Result<FieldType, NoMemory> {
        Ok(*self)
    }
}

impl Copied for Bytes {
    fn copied(&self, alloc: Global) -> Result<Bytes, NoMemory> {
        Bytes::from_slice(alloc, self.as_slice())
    }
}

impl Copied for Value {
    fn copied(&self, alloc: Global) -> Result<Value, NoMemory> {
        match self {
            Value::Missing => Ok(Value::Missing),
            Value::Number(n) => Ok(Value::Number(*n)),
            Value::Text(text) => Ok(Value::Text(text.copied(alloc)?)),
        }
    }
}

impl Copied for Scaled {
    fn copied(&self, alloc: Global) -> Result<Scaled, NoMemory> {
        let value = self.value.copied(alloc)?;
        Ok(Scaled {
            value,
            scale: self.scale,
        })
    }
}

impl Copied for Field {
    fn copied(&self, alloc: Global) -> Result<Field, NoMemory> {
        let name = self.name.copied(alloc)?;
        Ok(Field {
            name,
            kind: self.kind,
            version: self.version,
        })
    }
}
