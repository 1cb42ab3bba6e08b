//! Copies of the values that a session keeps beside its statement.

use crate::reply::Standing;
use crate::syntax::Reservation;
use rdb_types::{Copied, NoMemory};
use std::alloc::Global;

impl Copied for Reservation {
    fn copied(&self, alloc: Global) -> Result<Reservation, NoMemory> {
        let relation = self.relation.copied(alloc)?;
        Ok(Reservation {
            relation,
            share: self.share,
            writes: self.writes,
        })
    }
}

impl Copied for Standing {
    fn copied(&self, alloc: Global) -> Result<Standing, NoMemory> {
        match self {
            Standing::Closed => Ok(Standing::Closed),
            Standing::ReadOnly => Ok(Standing::ReadOnly),
            Standing::ReadWrite { wait, reserved } => Ok(Standing::ReadWrite {
                wait: *wait,
                reserved: reserved.copied(alloc)?,
            }),
        }
    }
}
