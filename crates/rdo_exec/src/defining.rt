// START_TRANSACTION with reservations, definitions and deletions.
ghost use Rattle.std.specs.Prelude.{◌≡◌, ◌≢◌, ◌⊎◌, ◌∷◌, [], ℕ, List, Some, None, Err, true, false};
ghost use Rattle.std.specs.FinMap.Entries.{find};
ghost use Rattle.rdb_types.specs.Order.{chars_order};
ghost use Rattle.rdo_ast.specs.Tree.{said, start_read_write, define_field, define_relation, define_index, delete_relation, delete_index};
ghost use Rattle.rdo_ast.specs.Views.{command_of};
ghost use Rattle.rdo_ast.specs.declared.reply.Standing.TheVariants.{Closed as closed};
ghost use Rattle.rdb_meaning.specs.declared.tables.Relation.{Relation as Table};
ghost use Rattle.rdb_meaning.specs.Contents.{relation_named};
ghost use Rattle.rdb_meaning.specs.Checks.{or_else, needs_some, use_of, reservation_refusal};
ghost use Rattle.rdb_meaning.specs.Defining.{index_names};
ghost use Rattle.rdb_meaning.specs.Meaning.{needs_read_write, reservations_of, index_uses};
ghost use Rattle.rdb_checks.specs.Answers.{Finds};
ghost use Rattle.line_view.specs.Held.{knows};
ghost use Rattle.line_view.specs.declared.need.Need.{Need as Needed};
ghost use Rattle.line_view.specs.declared.stop.Stop.TheVariants as stops;
ghost use Rattle.catalog_lines.specs.Parts.{IsName, IsType};
ghost use Rattle.catalog.specs.Reading.{IsWhole};
ghost use Rattle.statement_view.specs.Areas.{is_among};
ghost use Rattle.used_areas.specs.Areas.{areas_read};
ghost use Rattle.rdo_exec.specs.Areas.{IsReadOf, ReadsOf};
ghost use Rattle.rdo_exec.specs.Ways.{reserves, IsDefining};
ghost use Rattle.rdo_exec.specs.Left.{IsElsewhere};
ghost use Rattle.rdo_exec.specs.Coming.{IsCatalogOfKnown, Asks, Comes};
ghost use Rattle.rdo_exec.specs.Defined.{IsUnchecked, IsRefused, IsWritten, of_deletion};

use crate::plain::read_write;
use crate::records::{Returned, answered_by, done, missing, stopped};
use catalog::{Catalog, read_catalog};
use catalog_definitions::{is_index_definition, is_relation_definition};
use catalog_lines::{is_name, is_type};
use deleted_areas::{
    SchemaRefusal, SchemaStop, define_field, define_relation, delete_index, delete_relation,
};
use index_writes::define_index;
use line_view::{Known, Need, Stop};
use rdb_checks::{
    Stop as CheckStop, check_change_reserved, check_index_reserved, check_reserved_names, no_such,
    reservations_of,
};
use rdb_definitions::{check_index_names, check_relation_exists};
use rdb_meaning::Tables;
use rdb_types::{Chars, Copied, FieldType, Items};
use rdo_ast::reply::{Reply, Standing};
use rdo_ast::syntax::{FieldDefinition, IndexDefinition, Reservations, Statement};
use session_jobs::{Found, TxRecord};
use statement_view::Changed;
use std::alloc::Global;
use stored_schema::Schema;

// What a check of names or reservations refuses.
fn unchecked(alloc: Global, stop: CheckStop, standing: &Standing) -> Found
    ensures { IsUnchecked stop standing.now result }
{
    match stop {
        CheckStop::Refused(reply) => answered_by(alloc, Ok(reply), standing.copied(alloc)),
        CheckStop::Memory => Found::NoMemory,
    }
}

/// START_TRANSACTION READ_WRITE RESERVING, outside a transaction. It reads the catalog alone.
pub(crate) fn reserve(alloc: Global, known: &Known, wait: bool, reserved: &Reservations) -> Found
    requires { reserves reserved.now ≡ true }
    ensures asked { Asks closed (said (start_read_write wait reserved.now)) (knows known.now) result }
    ensures comes { (word : List ℕ) → Comes word closed (said (start_read_write wait reserved.now)) (knows known.now) result }
{
    let catalog = match read_catalog(alloc, known) {
        Ok(catalog) => catalog,
        Err(stop) => return stopped(alloc, stop),
    };
    match check_reserved_names(alloc, &catalog.tables, reserved.as_slice()) {
        Ok(()) => answered_by(alloc, Ok(done(alloc)), read_write(alloc, wait, reserved)),
        Err(stop) => unchecked(alloc, stop, &Standing::Closed),
    }
}

// Why a definition isn't made.
fn refused(alloc: Global, stop: SchemaStop, standing: &Standing) -> Found
    ensures { IsRefused stop standing.now result }
{
    match stop {
        Stop::Missing(need) => missing(alloc, need),
        Stop::Bad(key) => Found::Bad(key),
        Stop::NoMemory => Found::NoMemory,
        Stop::Own(SchemaRefusal::Refused(reply)) => {
            answered_by(alloc, Ok(reply), standing.copied(alloc))
        }
        Stop::Own(_) => Found::Unworked,
    }
}

fn from_deletion(end: Result<(), Stop<Reply>>) -> Result<(), SchemaStop>
    ensures { result ≡ of_deletion end }
{
    match end {
        Ok(()) => Ok(()),
        Err(Stop::Missing(need)) => Err(Stop::Missing(need)),
        Err(Stop::Bad(key)) => Err(Stop::Bad(key)),
        Err(Stop::NoMemory) => Err(Stop::NoMemory),
        Err(Stop::Own(reply)) => Err(Stop::Own(SchemaRefusal::Refused(reply))),
    }
}

// What comes of a definition or a deletion that was written into the view, or not.
fn written(
    alloc: Global,
    view: Changed<'_>,
    end: Result<(), SchemaStop>,
    standing: &Standing,
) -> Found
    ensures { IsWritten end view.entry standing.now result }
{
    if let Err(stop) = end {
        return refused(alloc, stop, standing);
    }
    match (view.finish(alloc), standing.copied(alloc)) {
        (Ok(writes), Ok(standing)) => Found::Done(TxRecord {
            choices: Items::new(alloc),
            reply: done(alloc),
            standing,
            writes,
        }),
        _ => Found::NoMemory,
    }
}

fn is_field_definition(name: &Chars, kind: FieldType) -> bool
    ensures yes { result ≡ true → IsName name.now × IsType kind }
    ensures no { result ≡ false → IsName name.now × IsType kind → ⊥ }
{
    is_name(name.as_slice()) && is_type(kind)
}

fn field_defined(
    alloc: Global,
    catalog: &Catalog,
    standing: &Standing,
    name: &Chars,
    kind: &FieldType,
    known: &Known,
) -> Found
    requires catalog { IsCatalogOfKnown (knows known.now) catalog.now }
    requires whole { IsWhole catalog.now }
    requires writing { needs_read_write standing.now ≡ None }
    ensures asked { Asks standing.now (said (define_field name.now kind.now)) (knows known.now) result }
    ensures comes { (word : List ℕ) → Comes word standing.now (said (define_field name.now kind.now)) (knows known.now) result }
{
    if !is_field_definition(name, *kind) {
        return Found::Unworked;
    }
    let mut view = Changed::new(alloc, known);
    let end = define_field(alloc, &mut view, catalog, name, kind);
    written(alloc, view, end, standing)
}

fn relation_defined(
    alloc: Global,
    catalog: &Catalog,
    standing: &Standing,
    name: &Chars,
    fields: &[FieldDefinition],
    known: &Known,
) -> Found
    requires catalog { IsCatalogOfKnown (knows known.now) catalog.now }
    requires whole { IsWhole catalog.now }
    requires writing { needs_read_write standing.now ≡ None }
    ensures asked { Asks standing.now (said (define_relation name.now fields.now)) (knows known.now) result }
    ensures comes { (word : List ℕ) → Comes word standing.now (said (define_relation name.now fields.now)) (knows known.now) result }
{
    if !is_relation_definition(name, fields) {
        return Found::Unworked;
    }
    let mut view = Changed::new(alloc, known);
    let end = define_relation(alloc, &mut view, catalog, name, fields);
    written(alloc, view, end, standing)
}

fn check_index_comes(
    alloc: Global,
    catalog: &Catalog,
    standing: &Standing,
    definition: &IndexDefinition,
) -> Result<(), CheckStop>
    ensures { Finds result (or_else (index_names definition.now catalog.now.tables) (reservation_refusal (reservations_of standing.now) (use_of true definition.now.relation ∷ []))) }
{
    check_index_names(alloc, &catalog.tables, definition)?;
    check_change_reserved(alloc, reservations_of(standing), &definition.relation)
}

fn is_area_of(tables: &Tables, relation: &Chars, area: u32) -> bool
    ensures yes { result ≡ true → is_among (areas_read tables.now (use_of false relation.now ∷ [])) area ≡ true }
    ensures no { result ≡ false → (r : Table) → relation_named relation.now tables.now ≡ Some r → area ≢ r.area }
{
    match tables.relation(relation) {
        Some(found) => found.area == area,
        None => false,
    }
}

// Whether a need is a room, or of the area of the relation.
fn is_read(tables: &Tables, relation: &Chars, need: &Need) -> bool
    ensures yes { result ≡ true → IsReadOf (areas_read tables.now (use_of false relation.now ∷ [])) need.now }
    ensures no { result ≡ false → IsElsewhere (relation_named relation.now tables.now) need.now }
{
    match need {
        Need::Line(key) => is_area_of(tables, relation, key.area),
        Need::Area(area) => is_area_of(tables, relation, *area),
        Need::Room(_) => true,
    }
}

// Whether DEFINE INDEX lacks lines that aren't its relation's: these can be of the new index alone. What is read there was written before by the same statement, so
// nothing of it is lacked; but no clause says so, and the account's rule lets nobody ask for such a line.
fn lacks_others(tables: &Tables, relation: &Chars, end: &Result<(), SchemaStop>) -> bool
    ensures no { result ≡ false → ReadsOf (areas_read tables.now (use_of false relation.now ∷ [])) end.now }
    ensures yes { result ≡ true → (need : Needed) × (end.now ≡ Err (stops.Missing need)) × IsElsewhere (relation_named relation.now tables.now) need }
{
    match end {
        Err(Stop::Missing(need)) => !is_read(tables, relation, need),
        _ => false,
    }
}

fn index_defined(
    alloc: Global,
    schema: &Schema,
    standing: &Standing,
    definition: &IndexDefinition,
    known: &Known,
) -> Found
    requires catalog { IsCatalogOfKnown (knows known.now) schema.now }
    requires whole { IsWhole schema.now }
    requires writing { needs_read_write standing.now ≡ None }
    ensures asked { Asks standing.now (said (define_index definition.now)) (knows known.now) result }
    ensures comes { (word : List ℕ) → Comes word standing.now (said (define_index definition.now)) (knows known.now) result }
{
    if !is_index_definition(definition) {
        return Found::Unworked;
    }
    let catalog = schema.catalog();
    match check_index_comes(alloc, catalog, standing, definition) {
        Ok(()) => {}
        Err(stop) => return unchecked(alloc, stop, standing),
    }
    let mut view = Changed::new(alloc, known);
    let end = define_index(alloc, &mut view, schema, definition);
    if lacks_others(&catalog.tables, &definition.relation, &end) {
        return Found::Unworked;
    }
    written(alloc, view, end, standing)
}

fn check_relation_goes(
    alloc: Global,
    catalog: &Catalog,
    standing: &Standing,
    name: &Chars,
) -> Result<(), CheckStop>
    ensures { Finds result (or_else (needs_some name.now (relation_named name.now catalog.now.tables)) (reservation_refusal (reservations_of standing.now) (use_of true name.now ∷ []))) }
{
    check_relation_exists(alloc, &catalog.tables, name)?;
    check_change_reserved(alloc, reservations_of(standing), name)
}

fn relation_deleted(
    alloc: Global,
    catalog: &Catalog,
    standing: &Standing,
    name: &Chars,
    known: &Known,
) -> Found
    requires catalog { IsCatalogOfKnown (knows known.now) catalog.now }
    requires whole { IsWhole catalog.now }
    requires writing { needs_read_write standing.now ≡ None }
    ensures asked { Asks standing.now (said (delete_relation name.now)) (knows known.now) result }
    ensures comes { (word : List ℕ) → Comes word standing.now (said (delete_relation name.now)) (knows known.now) result }
{
    match check_relation_goes(alloc, catalog, standing, name) {
        Ok(()) => {}
        Err(stop) => return unchecked(alloc, stop, standing),
    }
    let mut view = Changed::new(alloc, known);
    let end = delete_relation(alloc, &mut view, catalog, name);
    written(alloc, view, from_deletion(end), standing)
}

fn check_index_goes(
    alloc: Global,
    catalog: &Catalog,
    standing: &Standing,
    name: &Chars,
) -> Result<(), CheckStop>
    ensures { Finds result (or_else (needs_some name.now (find chars_order name.now catalog.now.tables.indexes))
        (reservation_refusal (reservations_of standing.now) (index_uses (find chars_order name.now catalog.now.tables.indexes) catalog.now.tables))) }
{
    let tables = &catalog.tables;
    match tables.indexes.find(name) {
        Some(index) => check_index_reserved(alloc, tables, reservations_of(standing), index),
        None => no_such(alloc, name),
    }
}

fn index_deleted(
    alloc: Global,
    catalog: &Catalog,
    standing: &Standing,
    name: &Chars,
    known: &Known,
) -> Found
    requires catalog { IsCatalogOfKnown (knows known.now) catalog.now }
    requires whole { IsWhole catalog.now }
    requires writing { needs_read_write standing.now ≡ None }
    ensures asked { Asks standing.now (said (delete_index name.now)) (knows known.now) result }
    ensures comes { (word : List ℕ) → Comes word standing.now (said (delete_index name.now)) (knows known.now) result }
{
    match check_index_goes(alloc, catalog, standing, name) {
        Ok(()) => {}
        Err(stop) => return unchecked(alloc, stop, standing),
    }
    let mut view = Changed::new(alloc, known);
    let end = delete_index(alloc, &mut view, catalog, name);
    written(alloc, view, from_deletion(end), standing)
}

// The same, with what is known lent.
fn defined_over(
    alloc: Global,
    schema: &Schema,
    standing: &Standing,
    statement: &Statement,
    known: &Known,
) -> Found
    requires catalog { IsCatalogOfKnown (knows known.now) schema.now }
    requires whole { IsWhole schema.now }
    requires writing { needs_read_write standing.now ≡ None }
    requires defining { IsDefining (command_of statement.now) }
    ensures asked { Asks standing.now (said (command_of statement.now)) (knows known.now) result }
    ensures comes { (word : List ℕ) → Comes word standing.now (said (command_of statement.now)) (knows known.now) result }
{
    let catalog = schema.catalog();
    match statement {
        Statement::DefineField(name, kind) => {
            field_defined(alloc, catalog, standing, name, kind, known)
        }
        Statement::DefineRelation(name, fields) => {
            relation_defined(alloc, catalog, standing, name, fields.as_slice(), known)
        }
        Statement::DeleteRelation(name) => relation_deleted(alloc, catalog, standing, name, known),
        Statement::DeleteIndex(name) => index_deleted(alloc, catalog, standing, name, known),
        Statement::DefineIndex(definition) => {
            index_defined(alloc, schema, standing, definition, known)
        }
        _ => unreachable!(),
    }
}

/// Does a definition or a deletion by the catalog, in a read-write transaction.
pub(crate) fn define_by(
    alloc: Global,
    schema: &Schema,
    standing: &Standing,
    statement: &Statement,
    known: Known,
) -> Returned
    requires catalog { IsCatalogOfKnown (knows known) schema.now }
    requires whole { IsWhole schema.now }
    requires writing { needs_read_write standing.now ≡ None }
    requires defining { IsDefining (command_of statement.now) }
    ensures known { result.known ≡ known }
    ensures asked { Asks standing.now (said (command_of statement.now)) (knows known) result.found }
    ensures comes { (word : List ℕ) → Comes word standing.now (said (command_of statement.now)) (knows known) result.found }
{
    let found = defined_over(alloc, schema, standing, statement, &known);
    Returned { known, found }
}
