// What a store keeps in memory as it begins.
ghost use Rattle.std.specs.Prelude.{◌≡◌, ◌≤◌, ◌+◌, ◌^◌, length, IfOk};
ghost use Rattle.disk_store.specs.Numbers.{AreAllowed};
ghost use Rattle.disk_store.specs.Opening.{IsFresh, AreFresh, HasAllFree};

use crate::{Held, Member, MemberStage, Numbers, Tables};
use line_opening::NextGroup;
use member_memory::MemberLines;
use rdb_types::{Limits, NoMemory, Tsn};
use reader_lines::{SnapshotSlots, Wanted};
use std::alloc::Global;
use version_reading::Reader;

/// Each of the sessions from 1 to 16 has the place of its number.
const PLACES: usize = 17;

// A session without a transaction.
fn fresh(alloc: Global) -> Member
    ensures { IsFresh result }
{
    Member {
        stage: MemberStage::Outside,
        tsn: Tsn { number: 1 },
        named: false,
        written: MemberLines::new(alloc),
        journalled: 0,
        pushed: 0,
        classes: Vec::new(alloc),
        aside: Wanted {
            catalog: 0,
            relations: 0,
            indexes: 0,
        },
        reader: Reader::new(Tsn { number: 0 }, Vec::new(alloc)),
    }
}

fn fresh_all(alloc: Global) -> Result<Vec<Member>, NoMemory>
    ensures long { IfOk result (λ made. length made.items ≡ 17) }
    ensures fresh { IfOk result (λ made. AreFresh made.items) }
{
    let mut members = Vec::new(alloc);
    for _place in 0..PLACES {
        members.push(fresh(alloc))?;
    }
    Ok(members)
}

impl Held {
    /// What a store keeps as it begins: no session has a transaction, and no slot of the snapshot files is in use. It takes memory for the slots and the sessions.
    pub fn new(
        alloc: Global,
        limits: Limits,
        numbers: Numbers,
        next: NextGroup,
        tables: Tables,
    ) -> Result<Held, NoMemory>
        requires first { 1 ≤ numbers.next }
        requires last { numbers.ceiling ≤ 2 ^ 62 }
        requires allowed { AreAllowed limits numbers }
        requires groups { next.number + limits.slots ≤ 2 ^ 62 + next.slot }
        ensures limits { IfOk result (λ held. held.limits ≡ limits) }
        ensures numbers { IfOk result (λ held. held.numbers ≡ numbers) }
        ensures next { IfOk result (λ held. held.next ≡ next) }
        ensures tables { IfOk result (λ held. held.tables ≡ tables) }
        ensures members { IfOk result (λ held. AreFresh held.members) }
        ensures slots { IfOk result HasAllFree }
    {
        let slots = SnapshotSlots::new(alloc, limits.snaps)?;
        let members = fresh_all(alloc)?;
        Ok(Held {
            limits,
            numbers,
            next,
            tables,
            slots,
            members,
            alloc,
        })
    }
}
