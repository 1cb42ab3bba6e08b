// The choice of a scan or of an index.
ghost use Rattle.std.specs.Prelude.{◌≡◌, map, IfOk};
ghost use Rattle.rdo_values.specs.Views.{testing_of, conjunction_with};
ghost use Rattle.access_paths.specs.Choice.{access_by_key, access_by_limits, first_by_key, first_limits as first_limits_of, first_by_limits, choice};

use crate::equated::{EquatedKey, key_at};
use crate::limits::{Limited, bounds_of, limits_at, nothing};
use rdb_types::{Dbkey, NoMemory, Positions, Row, Value};
use rdo_values::BoundTest;
use sorted_index_laws::Bounds;
use std::alloc::Global;

/// An index of a relation: its root, and the positions of its fields among those of the relation.
#[derive(Drop)]
pub struct IndexPath {
    pub root: Dbkey,
    pub fields: Positions,
}

/// How the rows of a relation are come by.
#[derive(Drop)]
pub enum Access {
    /// All rows of the logical area.
    Scan,
    /// The rows that the index of this root has under one key.
    Find(Dbkey, Row),
    /// The rows that the index of this root has under keys within bounds.
    Range(Dbkey, Bounds),
}

fn by_key(alloc: Global, root: Dbkey, key: EquatedKey) -> Result<Access, NoMemory>
    ensures { IfOk result (λ access. access ≡ access_by_key root key) }
{
    match key {
        EquatedKey::To(key) => Ok(Access::Find(root, key)),
        EquatedKey::Never => Ok(Access::Range(root, bounds_of(alloc, nothing())?)),
        EquatedKey::Lost => Ok(Access::Scan),
    }
}

fn by_limits(alloc: Global, root: Dbkey, limited: Limited) -> Result<Option<Access>, NoMemory>
    ensures { IfOk result (λ access. access ≡ access_by_limits root limited) }
{
    match limited {
        Limited::Nothing => Ok(None),
        Limited::Within(limits) => Ok(Some(Access::Range(root, bounds_of(alloc, limits)?))),
        Limited::Lost => Ok(Some(Access::Scan)),
    }
}

/// The first index of which each field is equated.
fn find_by_key(
    alloc: Global,
    indexes: &[IndexPath],
    tests: &[BoundTest],
    rows: &[Value],
) -> Result<Option<Access>, NoMemory>
    ensures { IfOk result (λ access. access ≡ first_by_key rows.now (conjunction_with (map testing_of tests.now)) indexes.now) }
{
    for index in indexes {
        if let Some(key) = key_at(alloc, tests, index.fields.as_slice(), rows)? {
            return Ok(Some(by_key(alloc, index.root, key)?));
        }
    }
    Ok(None)
}

fn first_limits(
    alloc: Global,
    tests: &[BoundTest],
    positions: &[u16],
    rows: &[Value],
) -> Result<Limited, NoMemory>
    ensures { IfOk result (λ limited. limited ≡ first_limits_of rows.now (conjunction_with (map testing_of tests.now)) positions.now) }
{
    match positions {
        [] => Ok(Limited::Nothing),
        [first, ..] => limits_at(alloc, tests, rows.len() + usize::from(*first), rows),
    }
}

/// The first index whose first field is compared.
fn find_by_limits(
    alloc: Global,
    indexes: &[IndexPath],
    tests: &[BoundTest],
    rows: &[Value],
) -> Result<Option<Access>, NoMemory>
    ensures { IfOk result (λ access. access ≡ first_by_limits rows.now (conjunction_with (map testing_of tests.now)) indexes.now) }
{
    for index in indexes {
        let limited = first_limits(alloc, tests, index.fields.as_slice(), rows)?;
        if let Some(access) = by_limits(alloc, index.root, limited)? {
            return Ok(Some(access));
        }
    }
    Ok(None)
}

/// How the rows of a relation are come by that AND-connected tests may choose: by the first of its indexes of which each field is equated with an expression, else by the first whose first field is compared with one, else by a scan. The indexes are in the order of their definition; `rows` has the values of the variables before the relation's, and an expression that overflows leaves a scan.
pub fn choose(
    alloc: Global,
    indexes: &[IndexPath],
    tests: &[BoundTest],
    rows: &[Value],
) -> Result<Access, NoMemory>
    ensures { IfOk result (λ access. access ≡ choice indexes.now rows.now (conjunction_with (map testing_of tests.now))) }
{
    if let Some(access) = find_by_key(alloc, indexes, tests, rows)? {
        return Ok(access);
    }
    match find_by_limits(alloc, indexes, tests, rows)? {
        Some(access) => Ok(access),
        None => Ok(Access::Scan),
    }
}
