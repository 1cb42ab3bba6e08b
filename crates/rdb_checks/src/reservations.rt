ghost use Rattle.std.specs.Prelude.{◌≡◌, [], ◌∷◌, map, Some, true};
ghost use Rattle.rdo_ast.specs.Views.{act_of};
ghost use Rattle.rdb_meaning.specs.Checks.{use_of, act_uses, reservation_refusal};
ghost use Rattle.rdb_meaning.specs.Defining.{is_among};
ghost use Rattle.rdb_meaning.specs.Meaning.{reservations_of, reserved_names, index_uses};
ghost use Rattle.rdb_checks.specs.Answers.{Finds};

use crate::action_uses::check_action_uses;
use crate::stop::{Stop, exists, no_such};
use crate::uses::check_use;
use rdb_meaning::{Index, Scope, Tables, same_name};
use rdb_types::Chars;
use rdo_ast::reply::Standing;
use rdo_ast::syntax::{Action, Reservation};
use std::alloc::Global;

/// The reservations of an open transaction, none without RESERVING.
pub fn reservations_of(standing: &Standing) -> &[Reservation]
    ensures { result.now ≡ reservations_of standing.now }
{
    match standing {
        Standing::ReadWrite { wait: _, reserved } => reserved.as_slice(),
        Standing::Closed | Standing::ReadOnly => &[],
    }
}

/// Checks what an action reads and changes. Without RESERVING all is reserved.
pub fn check_action_reserved(
    alloc: Global,
    reservations: &[Reservation],
    scope: &Scope,
    action: &Action,
) -> Result<(), Stop>
    ensures { Finds result
        (reservation_refusal reservations.now (act_uses (act_of action.now) scope.now)) }
{
    if reservations.is_empty() {
        return Ok(());
    }
    check_action_uses(alloc, reservations, scope, action)
}

/// Checks a change of a relation. Without RESERVING all is reserved.
pub fn check_change_reserved(
    alloc: Global,
    reservations: &[Reservation],
    relation: &Chars,
) -> Result<(), Stop>
    ensures { Finds result
        (reservation_refusal reservations.now (use_of true relation.now ∷ [])) }
{
    if reservations.is_empty() {
        return Ok(());
    }
    check_use(alloc, reservations, relation, true)
}

/// Checks a change of the relation that an index is on.
pub fn check_index_reserved(
    alloc: Global,
    tables: &Tables,
    reservations: &[Reservation],
    index: &Index,
) -> Result<(), Stop>
    ensures { Finds result
        (reservation_refusal reservations.now (index_uses (Some index.now) tables.now)) }
{
    for entry in tables.relations.as_slice() {
        if entry.1.area == index.relation {
            return check_change_reserved(alloc, reservations, &entry.0);
        }
    }
    Ok(())
}

/// Whether one of the reservations names the relation.
fn is_named(reservations: &[Reservation], relation: &Chars) -> bool
    ensures { result ≡ is_among relation.now (map (λ r. r.relation) reservations.now) }
{
    for reservation in reservations {
        if same_name(relation, &reservation.relation) {
            return true;
        }
    }
    false
}

/// Refuses a relation that isn't there or is reserved twice.
pub fn check_reserved_names(
    alloc: Global,
    tables: &Tables,
    reservations: &[Reservation],
) -> Result<(), Stop>
    ensures { Finds result (reserved_names [] reservations.now tables.now) }
{
    for (place, reservation) in reservations.iter().enumerate() {
        let relation = &reservation.relation;
        if tables.relation(relation).is_none() {
            return no_such(alloc, relation);
        }
        if is_named(&reservations[..place], relation) {
            return exists(alloc, relation);
        }
    }
    Ok(())
}
