// What refuses a change before its work, by tables.
ghost use Rattle.std.specs.Prelude.{◌≡◌, ◌∷◌, [], ℕ, true, List, Ok, None};
ghost use Rattle.rdo_ast.specs.Views.{command_of};
ghost use Rattle.rdb_meaning.specs.Checks.{Refusal, or_else, use_of, reservation_refusal};
ghost use Rattle.rdb_meaning.specs.Defining.{index_names};
ghost use Rattle.rdb_meaning.specs.Meaning.{needs_read_write, reservations_of as reserved_in};
ghost use Rattle.rdb_checks.specs.Answers.{Finds};
ghost use Rattle.reached_changes.specs.Before.{refusal_before, takes_room};

use rdb_checks::{Stop, check_action, check_change_reserved, is_retrieval, reservations_of};
use rdb_definitions::{check_index_names, define_field, define_relation};
use rdb_meaning::Tables;
use rdb_types::NoMemory;
use rdo_ast::reply::Standing;
use rdo_ast::syntax::{IndexDefinition, Statement};
use std::alloc::Global;

// Whether a check refuses nothing.
fn passes(found: Result<(), Stop>) -> Result<bool, NoMemory>
    ensures { (refusal : Refusal) → Finds found refusal → result ≡ Ok true → refusal ≡ None }
{
    match found {
        Ok(()) => Ok(true),
        Err(Stop::Refused(_)) => Ok(false),
        Err(Stop::Memory) => Err(NoMemory {}),
    }
}

fn is_writing(standing: &Standing) -> bool
    ensures { result ≡ true → needs_read_write standing.now ≡ None }
{
    matches!(standing, Standing::ReadWrite { .. })
}

fn is_index_reached(
    alloc: Global,
    tables: &Tables,
    standing: &Standing,
    definition: &IndexDefinition,
) -> Result<bool, NoMemory>
    ensures { result ≡ Ok true → or_else (index_names definition.now tables.now) (reservation_refusal (reserved_in standing.now) (use_of true definition.now.relation ∷ [])) ≡ None }
{
    if !passes(check_index_names(alloc, tables, definition))? {
        return Ok(false);
    }
    passes(check_change_reserved(alloc, reservations_of(standing), &definition.relation))
}

/// Whether a statement is a change that nothing refuses before its work over these tables. A definition of a field or a relation is made
/// in them to see that, so they are of no more use. It is false of a deletion, which takes no room.
pub fn is_reached_in(
    alloc: Global,
    tables: &mut Tables,
    standing: &Standing,
    statement: &Statement,
) -> Result<bool, NoMemory>
    ensures before { result ≡ Ok true → (word : List ℕ) → refusal_before word (command_of statement.now) standing.now tables.old ≡ None }
    ensures takes_room { result ≡ Ok true → takes_room (command_of statement.now) ≡ true }
{
    match statement {
        Statement::Act(action) => {
            if is_retrieval(action) {
                return Ok(false);
            }
            passes(check_action(alloc, tables, standing, action))
        }
        Statement::DefineField(name, kind) => {
            if !is_writing(standing) {
                return Ok(false);
            }
            passes(define_field(tables, alloc, name, kind))
        }
        Statement::DefineRelation(name, fields) => {
            if !is_writing(standing) {
                return Ok(false);
            }
            passes(define_relation(tables, alloc, name, fields.as_slice()))
        }
        Statement::DefineIndex(definition) => {
            if !is_writing(standing) {
                return Ok(false);
            }
            is_index_reached(alloc, tables, standing, definition)
        }
        _ => Ok(false),
    }
}
