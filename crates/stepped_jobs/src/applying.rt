ghost use Rattle.std.specs.Prelude.{◌≡◌, List, [], OnOk, OnErr, IfErr};
ghost use Rattle.lock_needs.specs.declared.need.Need.{Need as LockNeed};
ghost use Rattle.line_view.specs.Knowledge.{Lines, IsInOrder, Agrees};
ghost use Rattle.line_view.specs.Held.{knows};
ghost use Rattle.line_view.specs.Writes.{laid_all};
ghost use Rattle.kept_apart.specs.Guards.{AreOwn};
ghost use Rattle.kept_apart.specs.Alike.{IsGuarded};
ghost use Rattle.line_store.specs.Seats.{IsMember, IsWriting, changing};
ghost use Rattle.line_store.specs.Shelves.{Shelf};
ghost use Rattle.line_store.specs.Calls.{MayStopChange};
ghost use Rattle.line_store.specs.Sights.{Does, Stays};
ghost use Rattle.stepped_jobs.specs.Applying.{Applies};

use line_store::{ChangeStop, LineStore};
use line_view::{Known, Write};
use rdb_types::{Image, Session};
use std::alloc::Global;

/// Brings what is known behind writes, and it stays guarded where they are one's own. Where memory fails all is forgotten.
pub fn follow(alloc: Global, known: &mut Known, writes: &[Write])
    ensures guarded { (got : List LockNeed) → AreOwn got writes.now → IsGuarded got (knows known.old) → IsGuarded got (knows known.new) }
    ensures agrees { (all : Lines) → IsInOrder all → Agrees (knows known.old) all → Agrees (knows known.new) (laid_all writes.now all) }
{
    for write in writes {
        let image = match &write.image {
            Some(image) => Some(Image::from_bytes(image.bytes())),
            None => None,
        };
        match known.put(alloc, write.key, image) {
            Ok(()) => {}
            Err(_) => {
                *known = Known::new(alloc);
                return;
            }
        }
    }
}

/// Begins to lay a job's writes in the store, and brings what is known behind them. Where the store refuses them, both stay.
pub fn apply<L: LineStore>(
    alloc: Global,
    store: &mut L,
    s: Session,
    known: &mut Known,
    writes: &[Write],
) -> Result<(), ChangeStop>
    requires member { IsMember s.number }
    requires seat { IsWriting ((L.sight store.old).stand s.number) }
    ensures ok { OnOk result (Does s.number (changing []) (Applies s.number writes.now known.old known.new) (L.sight store.old) (L.sight store.new)) }
    ensures err { OnErr result (Stays s.number (L.sight store.old) (L.sight store.new)) }
    ensures cause { IfErr result (λ stop. (h : Shelf) → (L.sight store.old).shows h → MayStopChange h s.number writes.now stop) }
    ensures kept { OnErr result (known.new ≡ known.old) }
    ensures follows { OnOk result ((all : Lines) → IsInOrder all → Agrees (knows known.old) all → Agrees (knows known.new) (laid_all writes.now all)) }
    ensures guarded { (got : List LockNeed) → AreOwn got writes.now → IsGuarded got (knows known.old) → IsGuarded got (knows known.new) }
{
    store.change(s, writes)?;
    follow(alloc, known, writes);
    Ok(())
}
