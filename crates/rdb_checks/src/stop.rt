ghost use Rattle.std.specs.Prelude.{◌≡◌, Some};
ghost use Rattle.rdo_ast.specs.declared.reply.Reply.TheVariants.{NoSuch as no_such, Exists as exists, NotReserved as not_reserved};
ghost use Rattle.rdb_checks.specs.Answers.{Finds};

use rdb_types::{Chars, Copied, NoMemory};
use rdo_ast::reply::Reply;
use std::alloc::{AllocError, Global};

/// Why a check ends before all is looked at.
#[derive(Drop)]
pub enum Stop {
    Refused(Reply),
    Memory,
}

impl From<NoMemory> for Stop {
    ghost use Rattle.rdb_checks.specs.declared.stop.Stop.TheVariants.{Memory};

    ghost from_gives = { λ _ e. e ≡ Memory };

    fn from(_e: NoMemory) -> Stop {
        Stop::Memory
    }
}

impl From<AllocError> for Stop {
    ghost use Rattle.rdb_checks.specs.declared.stop.Stop.TheVariants.{Memory};

    ghost from_gives = { λ _ e. e ≡ Memory };

    fn from(_e: AllocError) -> Stop {
        Stop::Memory
    }
}

/// The refusal of a name that nothing has.
pub fn no_such(alloc: Global, name: &Chars) -> Result<(), Stop>
    ensures { Finds result (Some (no_such name.now)) }
{
    let name = name.copied(alloc)?;
    Err(Stop::Refused(Reply::NoSuch(name)))
}

/// The refusal of a name that something has already.
pub fn exists(alloc: Global, name: &Chars) -> Result<(), Stop>
    ensures { Finds result (Some (exists name.now)) }
{
    let name = name.copied(alloc)?;
    Err(Stop::Refused(Reply::Exists(name)))
}

/// The refusal of a use of a relation that isn't reserved for it.
pub fn not_reserved(alloc: Global, relation: &Chars) -> Result<(), Stop>
    ensures { Finds result (Some (not_reserved relation.now)) }
{
    let relation = relation.copied(alloc)?;
    Err(Stop::Refused(Reply::NotReserved(relation)))
}
