//! What follows DEFINE.

ghost use Rattle.std.specs.Prelude.{◌<◌, true, false};
ghost use Rattle.rdo_tokens.specs.Input.{Reads};
ghost use Rattle.rdo_parser.specs.Statements as spec;

use rdb_types::{Chars, DataType, FieldType, Items};
use rdo_ast::syntax::{DefinedType, FieldDefinition, IndexDefinition, Statement};
use rdo_grammar::range::only;
use rdo_tokens::token::Kind;
use rdo_tokens::tokens::{Stop, Tokens};
use std::alloc::Global;

const MAX_FIELDS: usize = 50;

const MAX_INDEX_FIELDS: usize = 8;

const MAX_TEXT_SIZE: u64 = 500;

const MAX_SCALE: u64 = 9;

/// `WORD | LONGWORD | QUADWORD`
#[tactic(auto, unfolding(crate::specs::Statements::integer_type))]
fn integer_type(tokens: &mut Tokens<'_>) -> Result<DataType, Stop>
    ensures { Reads (spec.integer_type tokens.old) result tokens.new }
{
    match tokens.peek() {
        Kind::Word => {
            tokens.take();
            Ok(DataType::Word)
        }
        Kind::Longword => {
            tokens.take();
            Ok(DataType::Longword)
        }
        Kind::Quadword => {
            tokens.take();
            Ok(DataType::Quadword)
        }
        _ => Err(Stop::Offending),
    }
}

/// `[ SCALE [ IS ] "-" number ]`
#[tactic(auto, unfolding(crate::specs::Statements::scale))]
fn scale(tokens: &mut Tokens<'_>) -> Result<u8, Stop>
    ensures { Reads (spec.scale tokens.old) result tokens.new }
{
    if tokens.eat(Kind::Scale) {
        tokens.eat(Kind::Is);
        tokens.expect(Kind::Minus)?;
        Ok(tokens.whole_number(0, MAX_SCALE)? as u8)
    } else {
        Ok(0)
    }
}

/// `SIZE IS number [ CHARACTERS ]`
#[tactic(auto, unfolding(crate::specs::Statements::text_type))]
fn text_type(tokens: &mut Tokens<'_>) -> Result<FieldType, Stop>
    ensures { Reads (spec.text_type tokens.old) result tokens.new }
{
    tokens.expect(Kind::Size)?;
    tokens.expect(Kind::Is)?;
    let size = tokens.whole_number(1, MAX_TEXT_SIZE)? as u16;
    tokens.eat(Kind::Characters);
    Ok(FieldType {
        kind: DataType::Text,
        scale: 0,
        size,
    })
}

/// `( WORD | LONGWORD | QUADWORD ) [ SCALE [ IS ] "-" number ]`
#[tactic(auto, unfolding(crate::specs::Statements::signed_type))]
fn signed_type(tokens: &mut Tokens<'_>) -> Result<FieldType, Stop>
    ensures { Reads (spec.signed_type tokens.old) result tokens.new }
{
    let kind = integer_type(tokens)?;
    Ok(FieldType {
        kind,
        scale: scale(tokens)?,
        size: 0,
    })
}

/// What follows DATATYPE.
#[tactic(auto, unfolding(crate::specs::Statements::field_type))]
fn field_type(tokens: &mut Tokens<'_>) -> Result<FieldType, Stop>
    ensures { Reads (spec.field_type tokens.old) result tokens.new }
{
    tokens.expect(Kind::Is)?;
    match tokens.peek() {
        Kind::Text => {
            tokens.take();
            text_type(tokens)
        }
        Kind::Signed => {
            tokens.take();
            signed_type(tokens)
        }
        _ => Err(Stop::Offending),
    }
}

/// `type | BASED ON name`
#[tactic(auto, unfolding(crate::specs::Statements::field_kind))]
fn field_kind(alloc: Global, tokens: &mut Tokens<'_>) -> Result<DefinedType, Stop>
    ensures { Reads (spec.field_kind tokens.old) result tokens.new }
{
    match tokens.peek() {
        Kind::Datatype => {
            tokens.take();
            Ok(DefinedType::Own(field_type(tokens)?))
        }
        Kind::Based => {
            tokens.take();
            tokens.expect(Kind::On)?;
            Ok(DefinedType::BasedOn(tokens.name(alloc)?))
        }
        _ => Err(Stop::Offending),
    }
}

/// `name ( type | BASED ON name )`
#[tactic(auto, unfolding(crate::specs::Statements::field_definition))]
fn field_definition(alloc: Global, tokens: &mut Tokens<'_>) -> Result<FieldDefinition, Stop>
    ensures { Reads (spec.field_definition tokens.old) result tokens.new }
{
    let name = tokens.name(alloc)?;
    Ok(FieldDefinition {
        name,
        kind: field_kind(alloc, tokens)?,
    })
}

/// A field's definition and its point.
#[tactic(auto, unfolding(crate::specs::Statements::pointed_field))]
fn pointed_field(alloc: Global, tokens: &mut Tokens<'_>) -> Result<FieldDefinition, Stop>
    ensures { Reads (spec.pointed_field tokens.old) result tokens.new }
{
    let field = field_definition(alloc, tokens)?;
    tokens.expect(Kind::Dot)?;
    Ok(field)
}

/// `name "."`
#[tactic(auto, unfolding(crate::specs::Statements::pointed_name))]
fn pointed_name(alloc: Global, tokens: &mut Tokens<'_>) -> Result<Chars, Stop>
    ensures { Reads (spec.pointed_name tokens.old) result tokens.new }
{
    let name = tokens.name(alloc)?;
    tokens.expect(Kind::Dot)?;
    Ok(name)
}

/// The fields of a relation, from one to the limit.
#[tactic(auto, unfolding(crate::specs::Statements::fields))]
fn fields(alloc: Global, tokens: &mut Tokens<'_>) -> Result<Items<FieldDefinition>, Stop>
    ensures { Reads (spec.fields tokens.old) result tokens.new }
{
    let mut found = only(alloc, pointed_field(alloc, tokens)?)?;
    for _turn in 1..MAX_FIELDS {
        if !tokens.sees(Kind::Name) {
            return Ok(found);
        }
        found.push(pointed_field(alloc, tokens)?)?;
    }
    Ok(found)
}

/// The fields of an index, from one to the limit.
#[tactic(auto, unfolding(crate::specs::Statements::index_fields))]
fn index_fields(alloc: Global, tokens: &mut Tokens<'_>) -> Result<Items<Chars>, Stop>
    ensures { Reads (spec.index_fields tokens.old) result tokens.new }
{
    let mut found = only(alloc, pointed_name(alloc, tokens)?)?;
    for _turn in 1..MAX_INDEX_FIELDS {
        if !tokens.sees(Kind::Name) {
            return Ok(found);
        }
        found.push(pointed_name(alloc, tokens)?)?;
    }
    Ok(found)
}

/// What follows DEFINE RELATION.
#[tactic(auto, unfolding(crate::specs::Statements::define_relation))]
fn define_relation(alloc: Global, tokens: &mut Tokens<'_>) -> Result<Statement, Stop>
    ensures { Reads (spec.define_relation tokens.old) result tokens.new }
{
    let name = tokens.name(alloc)?;
    tokens.expect(Kind::Dot)?;
    let fields = fields(alloc, tokens)?;
    tokens.expect(Kind::End)?;
    tokens.same_name(name.as_slice())?;
    tokens.expect(Kind::Relation)?;
    Ok(Statement::DefineRelation(name, fields))
}

/// `[ DUPLICATES ARE [ NOT ] ALLOWED ]`: whether they are not.
#[tactic(auto, unfolding(crate::specs::Statements::duplicates))]
fn duplicates(tokens: &mut Tokens<'_>) -> Result<bool, Stop>
    ensures { Reads (spec.duplicates tokens.old) result tokens.new }
{
    if !tokens.eat(Kind::Duplicates) {
        return Ok(false);
    }
    tokens.expect(Kind::Are)?;
    let unique = tokens.eat(Kind::Not);
    tokens.expect(Kind::Allowed)?;
    Ok(unique)
}

/// `[ TYPE IS SORTED ]`
#[tactic(auto, unfolding(crate::specs::Statements::index_type))]
fn index_type(tokens: &mut Tokens<'_>) -> Result<(), Stop>
    ensures { Reads (spec.index_type tokens.old) result tokens.new }
{
    if tokens.eat(Kind::TypeWord) {
        tokens.expect(Kind::Is)?;
        tokens.expect(Kind::Sorted)?;
    }
    Ok(())
}

/// What stands between the name of an index and its END.
#[tactic(auto, unfolding(crate::specs::Statements::index_head))]
fn index_head(alloc: Global, tokens: &mut Tokens<'_>, name: Chars) -> Result<IndexDefinition, Stop>
    ensures { Reads (spec.index_head name tokens.old) result tokens.new }
{
    tokens.expect(Kind::For)?;
    let relation = tokens.name(alloc)?;
    let unique = duplicates(tokens)?;
    index_type(tokens)?;
    tokens.expect(Kind::Dot)?;
    Ok(IndexDefinition {
        name,
        relation,
        unique,
        fields: index_fields(alloc, tokens)?,
    })
}

/// What follows DEFINE INDEX.
#[tactic(auto, unfolding(crate::specs::Statements::define_index))]
fn define_index(alloc: Global, tokens: &mut Tokens<'_>) -> Result<Statement, Stop>
    ensures { Reads (spec.define_index tokens.old) result tokens.new }
{
    let name = tokens.name(alloc)?;
    let index = index_head(alloc, tokens, name)?;
    tokens.expect(Kind::End)?;
    tokens.same_name(index.name.as_slice())?;
    tokens.expect(Kind::Index)?;
    Ok(Statement::DefineIndex(index))
}

/// What follows DEFINE FIELD.
#[tactic(auto, unfolding(crate::specs::Statements::define_field))]
fn define_field(alloc: Global, tokens: &mut Tokens<'_>) -> Result<Statement, Stop>
    ensures { Reads (spec.define_field tokens.old) result tokens.new }
{
    let name = tokens.name(alloc)?;
    tokens.expect(Kind::Datatype)?;
    Ok(Statement::DefineField(name, field_type(tokens)?))
}

/// What follows DEFINE.
#[tactic(auto, unfolding(crate::specs::Statements::define))]
pub fn define(alloc: Global, tokens: &mut Tokens<'_>) -> Result<Statement, Stop>
    ensures { Reads (spec.define tokens.old) result tokens.new }
{
    match tokens.peek() {
        Kind::Field => {
            tokens.take();
            define_field(alloc, tokens)
        }
        Kind::Relation => {
            tokens.take();
            define_relation(alloc, tokens)
        }
        Kind::Index => {
            tokens.take();
            define_index(alloc, tokens)
        }
        _ => Err(Stop::Offending),
    }
}
