//! Refusals of names.
ghost use Rattle.std.specs.Prelude.{Some};
ghost use Rattle.rdo_ast.specs.declared.reply.Reply.TheVariants.{NoSuch as no_such, Exists as exists};
ghost use Rattle.rdo_bind.specs.Answers.{Refuses};

use rdb_checks::Stop;
use rdb_types::{Chars, Copied};
use rdo_ast::reply::Reply;
use std::alloc::Global;

/// The refusal of a name that nothing has.
pub(crate) fn no_such_name(alloc: Global, name: &Chars) -> Stop
    ensures { Refuses result (Some (no_such name.now)) }
{
    match name.copied(alloc) {
        Ok(name) => Stop::Refused(Reply::NoSuch(name)),
        Err(_) => Stop::Memory,
    }
}

/// The refusal of a name that something has already.
pub(crate) fn existing_name(alloc: Global, name: &Chars) -> Stop
    ensures { Refuses result (Some (exists name.now)) }
{
    match name.copied(alloc) {
        Ok(name) => Stop::Refused(Reply::Exists(name)),
        Err(_) => Stop::Memory,
    }
}
