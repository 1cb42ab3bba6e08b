use crate::Entries;
use rdb_types::{Chars, Copied, Dbkey, NoMemory};
use std::alloc::Global;
use std::test::Fail;

// Pages in the order in which they are put, each with its turn as its value, and what is then held.
struct Case {
    put: &'static [u32],
    held: &'static [(u32, u8)],
}

const CASES: [Case; 4] = [
    Case {
        put: &[],
        held: &[],
    },
    Case {
        put: &[1, 2, 3, 4],
        held: &[(1, 0), (2, 1), (3, 2), (4, 3)],
    },
    Case {
        put: &[4, 3, 2, 1],
        held: &[(1, 3), (2, 2), (3, 1), (4, 0)],
    },
    Case {
        put: &[3, 1, 4, 1, 2, 3],
        held: &[(1, 3), (2, 4), (3, 5), (4, 2)],
    },
];

fn at_page(page: u32) -> Dbkey {
    Dbkey {
        area: 1,
        page,
        line: 0,
    }
}

fn filled(alloc: Global, pages: &[u32]) -> Result<Entries<Dbkey, u8>, NoMemory> {
    let mut entries = Entries::new(alloc);
    let mut turn = 0u8;
    for page in pages {
        entries.put(at_page(*page), turn)?;
        turn = turn.wrapping_add(1);
    }
    Ok(entries)
}

fn is_held(entries: &Entries<Dbkey, u8>, held: &[(u32, u8)]) -> bool {
    entries.len() == held.len()
        && entries.as_slice().iter().zip(held).all(|(entry, wanted)| entry.0 == at_page(wanted.0)
            && entry.1 == wanted.1)
}

#[test]
fn holds_what_a_plain_list_would(rt: HostRuntime) -> Result<(), Fail> {
    for case in &CASES {
        let mut entries = filled(rt.alloc(), case.put)?;
        assert!(rt; is_held(&entries, case.held));
        assert!(rt; is_held(&entries.copied(rt.alloc())?, case.held));
        assert_eq!(rt; entries.find(&at_page(9)), None);
        assert_eq!(rt; entries.exchange(&at_page(9), 7), None);
        for (page, value) in case.held {
            assert_eq!(rt; entries.find(&at_page(*page)), Some(value));
            assert_eq!(rt; entries.exchange(&at_page(*page), 77), Some(*value));
            assert_eq!(rt; entries.remove(&at_page(*page)), Some(77));
            assert_eq!(rt; entries.remove(&at_page(*page)), None);
        }
        assert_eq!(rt; entries.len(), 0);
    }
    Ok(())
}

#[test]
fn orders_names_by_their_characters(rt: HostRuntime) -> Result<(), Fail> {
    let mut entries = Entries::new(rt.alloc());
    for name in [b"B".as_slice(), b"AB", b"A"] {
        entries.put(Chars::from_slice(rt.alloc(), name)?, name.len())?;
    }
    let lengths: [usize; 3] = [1, 2, 1];
    assert_eq!(rt; entries.len(), lengths.len());
    for (entry, length) in entries.as_slice().iter().zip(&lengths) {
        assert_eq!(rt; entry.1, *length);
    }
    let name = Chars::from_slice(rt.alloc(), b"AB")?;
    assert_eq!(rt; entries.find(&name), Some(&2));
    Ok(())
}
