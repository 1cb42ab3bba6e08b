// Dbkeys in order.
ghost use Rattle.std.specs.Prelude.{◌≡◌, IfOk};
ghost use Rattle.line_view.specs.Held.{ordered};

use rdb_types::{Dbkey, NoMemory};
use std::alloc::Global;
use std::collections::BTreeSet;

/// These Dbkeys in ascending order, each once.
pub fn ascending(alloc: Global, keys: &[Dbkey]) -> Result<BTreeSet<Dbkey>, NoMemory>
    ensures { IfOk result (λ set. set.keys ≡ ordered keys.now) }
{
    let mut set = BTreeSet::new(alloc);
    for key in keys {
        let _is_new = set.insert(*key)?;
    }
    Ok(set)
}
