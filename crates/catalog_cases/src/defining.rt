// Definitions and deletions over the lines of the catalog.
ghost use Rattle.catalog.specs.Reading.{IsWhole};

use crate::telling::{tell, tell_keys, tell_need, tell_reply, tell_stop, tell_writes};
use crate::world::World;
use catalog::{Catalog, delete_index, delete_relation, read_catalog};
use catalog_definitions::{
    define_field, define_index, define_relation, is_index_definition, is_relation_definition,
};
use catalog_lines::{is_name, is_type};
use line_view::{Stop, View, Writes};
use rdb_types::{Chars, FieldType, Keys, NoMemory};
use rdo_ast::reply::Reply;
use rdo_ast::syntax::{FieldDefinition, IndexDefinition, Statement};
use std::alloc::Global;

fn field<V: View>(
    alloc: Global,
    view: &V,
    catalog: &Catalog,
    name: &Chars,
    kind: &FieldType,
) -> Result<Writes, Stop<Reply>>
    requires { IsWhole catalog.now }
{
    if !is_name(name.as_slice()) || !is_type(*kind) {
        return Err(Stop::NoMemory);
    }
    define_field(alloc, view, catalog, name, kind)
}

fn relation<V: View>(
    alloc: Global,
    view: &V,
    catalog: &Catalog,
    name: &Chars,
    fields: &[FieldDefinition],
) -> Result<Writes, Stop<Reply>>
    requires { IsWhole catalog.now }
{
    if !is_relation_definition(name, fields) {
        return Err(Stop::NoMemory);
    }
    define_relation(alloc, view, catalog, name, fields)
}

fn index<V: View>(
    alloc: Global,
    view: &V,
    catalog: &Catalog,
    definition: &IndexDefinition,
) -> Result<Writes, Stop<Reply>>
    requires { IsWhole catalog.now }
{
    if !is_index_definition(definition) {
        return Err(Stop::NoMemory);
    }
    define_index(alloc, view, catalog, definition)
}

// The writes of a definition; None for another statement.
fn defined<V: View>(
    alloc: Global,
    view: &V,
    catalog: &Catalog,
    statement: &Statement,
) -> Option<Result<Writes, Stop<Reply>>>
    requires { IsWhole catalog.now }
{
    match statement {
        Statement::DefineField(name, kind) => Some(field(alloc, view, catalog, name, kind)),
        Statement::DefineRelation(name, fields) => {
            Some(relation(alloc, view, catalog, name, fields.as_slice()))
        }
        Statement::DefineIndex(definition) => Some(index(alloc, view, catalog, definition)),
        _ => None,
    }
}

// The lines that go by a deletion; None for another statement.
fn deleted(
    alloc: Global,
    catalog: &Catalog,
    statement: &Statement,
) -> Option<Result<Keys, rdb_checks::Stop>> {
    match statement {
        Statement::DeleteRelation(name) => Some(delete_relation(alloc, catalog, name)),
        Statement::DeleteIndex(name) => Some(delete_index(alloc, catalog, name)),
        _ => None,
    }
}

fn tell_undefined(rt: &HostRuntime, stop: &Stop<Reply>) {
    match stop {
        Stop::Missing(need) => tell_need(rt, *need),
        Stop::Bad(key) => tell_keys(rt, "bad line", &[*key]),
        Stop::Own(reply) => tell_reply(rt, reply),
        Stop::NoMemory => tell(rt, "NO MEMORY"),
    }
}

fn lay_defined(
    rt: &HostRuntime,
    world: &mut World,
    defined: &Result<Writes, Stop<Reply>>,
) -> Result<(), NoMemory> {
    match defined {
        Ok(writes) => {
            tell_writes(rt, writes.as_slice());
            world.lay(rt.alloc(), writes)
        }
        Err(stop) => {
            tell_undefined(rt, stop);
            Ok(())
        }
    }
}

fn erase_deleted(
    rt: &HostRuntime,
    world: &mut World,
    deleted: &Result<Keys, rdb_checks::Stop>,
) -> Result<(), NoMemory> {
    match deleted {
        Ok(keys) => {
            tell_keys(rt, "erases", keys.as_slice());
            world.erase(rt.alloc(), keys.as_slice())
        }
        Err(rdb_checks::Stop::Refused(reply)) => {
            tell_reply(rt, reply);
            Ok(())
        }
        Err(rdb_checks::Stop::Memory) => Err(NoMemory {}),
    }
}

fn do_statement(
    rt: &HostRuntime,
    world: &mut World,
    catalog: &Catalog,
    statement: &Statement,
) -> Result<(), NoMemory>
    requires { IsWhole catalog.now }
{
    if let Some(defined) = &defined(rt.alloc(), world, catalog, statement) {
        return lay_defined(rt, world, defined);
    }
    match &deleted(rt.alloc(), catalog, statement) {
        Some(deleted) => erase_deleted(rt, world, deleted),
        None => {
            tell(rt, "NO DEFINITION");
            Ok(())
        }
    }
}

/// Does a statement over the lines, and lays what it writes.
pub fn say_statement(
    rt: &HostRuntime,
    world: &mut World,
    statement: &Statement,
) -> Result<(), NoMemory> {
    match read_catalog(rt.alloc(), world) {
        Ok(catalog) => do_statement(rt, world, &catalog, statement),
        Err(stop) => {
            tell_stop(rt, stop);
            Ok(())
        }
    }
}

/// Tells what a definition needs where no room is known.
pub fn say_without_rooms(
    rt: &HostRuntime,
    world: &World,
    statement: &Statement,
) -> Result<(), NoMemory> {
    match read_catalog(rt.alloc(), &world.known) {
        Ok(catalog) => {
            if let Some(Err(stop)) = &defined(rt.alloc(), &world.known, &catalog, statement) {
                tell_undefined(rt, stop);
            }
            Ok(())
        }
        Err(stop) => {
            tell_stop(rt, stop);
            Ok(())
        }
    }
}
