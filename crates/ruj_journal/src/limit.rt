// Whether a transaction's entries find room.
ghost use Rattle.std.specs.Prelude.{◌≡◌, ◌≤◌, ◌<◌, ◌+◌, Err, OnOk, OnErr};

use rdb_types::Limits;

/// There is no room for a transaction's entries.
#[derive(Clone, Copy, Debug, PartialEq, Eq)]
pub struct RujFull {
    pub limit: u32,
}

/// Whether there is room for `more` entries behind the `have` that a transaction has already.
pub fn room(limits: &Limits, have: u32, more: u32) -> Result<(), RujFull>
    ensures fits { OnOk result (have + more ≤ limits.now.entries) }
    ensures full { OnErr result (limits.now.entries < have + more) }
    ensures limit { OnErr result (result ≡ Err (record { limit = limits.now.entries })) }
{
    let limit = limits.entries;
    if u64::from(have) + u64::from(more) <= u64::from(limit) {
        Ok(())
    } else {
        Err(RujFull { limit })
    }
}

#[cfg(test)]
mod tests {
    use super::*;

    #[test]
    fn three_entries_find_no_room_among_two(rt: HostRuntime) {
        let limits = Limits {
            pages: 2,
            snaps: 1,
            entries: 2,
            slots: 2,
        };
        assert_eq!(rt; room(&limits, 0, 2), Ok(()));
        assert_eq!(rt; room(&limits, 2, 1), Err(RujFull { limit: 2 }));
        assert_eq!(rt; room(&limits, u32::MAX, 1), Err(RujFull { limit: 2 }));
    }
}
