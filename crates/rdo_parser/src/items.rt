//! The items of a script.

ghost use Rattle.std.specs.Prelude.{◌≡◌, ◌<◌, ◌≤◌, ◌^◌, [], ◌∷◌, length, take, IfOk, IfSome, OnErr, MatchOption};
ghost use Rattle.rdo_parser.specs.Places.{place_behind};
ghost use Rattle.rdo_parser.specs.Script as spec;

use crate::next::{Parsed, begins_stop, parsed_at};
use crate::place::{Place, line_len};
use rdb_types::{NoMemory, OrMemory};
use rdo_ast::syntax::Item;
use std::alloc::Global;
use std::marker::Model;

/// An item, and how many bytes of its script are behind it.
#[derive(Drop)]
pub struct Found {
    pub item: Item,
    pub next: usize,
}

/// The fault of the token behind the first `offending` bytes of a script, where the first `at` bytes end at this place.
#[tactic(auto, unfolding(crate::specs::Script::syntax_at))]
fn fault(text: &[u8], at: usize, place: Place, offending: usize) -> Found
    requires long { length text.now < 2 ^ 31 }
    requires order { (at ≤ offending) × (offending ≤ length text.now) × (at < length text.now) }
    requires here { place ≡ place_behind (take at text.now) }
    ensures value { result ≡ spec.fault_found (spec.syntax_at text.now offending) }
    ensures moves { (at < result.next) × (result.next ≤ length text.now) }
{
    let place = place.behind(&text[at..offending]);
    Found {
        item: Item::SyntaxAt {
            line: place.line,
            column: place.column,
        },
        next: offending + line_len(&text[offending..]),
    }
}

/// The item behind the first `at` bytes of a script, which end at this place.
#[tactic(auto, unfolding(crate::specs::Script::item_at, crate::specs::Script::next_statement))]
fn item_at(alloc: Global, text: &[u8], at: usize, place: Place) -> Result<Option<Found>, NoMemory>
    requires long { length text.now < 2 ^ 31 }
    requires within { at ≤ length text.now }
    requires here { place ≡ place_behind (take at text.now) }
    ensures value { IfOk result (λ found. found ≡ spec.item_at text.now at) }
    ensures moves { IfOk result (λ found. IfSome found (λ x. (at < x.next) × (x.next ≤ length text.now))) }
{
    match parsed_at(alloc, text, at) {
        Ok(Parsed::End | Parsed::Stop) => Ok(None),
        Ok(Parsed::Statement(statement, next)) => Ok(Some(Found {
            item: Item::Statement(statement),
            next,
        })),
        Err(OrMemory::Memory) => Err(NoMemory {}),
        Err(OrMemory::Other(offending)) => Ok(Some(fault(text, at, place, offending))),
    }
}

/// A script that is read item by item, in a time that grows as its bytes do. Its items end at a `$ STOP`, or with its text. Contracts see
/// the items that are still to come, and whether they end at a `$ STOP`.
#[derive(Drop)]
pub struct Script<'a> {
    text: &'a [u8],
    /// How many bytes are behind.
    at: usize,
    /// Where they end.
    place: Place,
}

impl<'a> Model for Script<'a> {
    ghost use Rattle.rdo_parser.specs.Reader.{Reading};

    ghost Value = { Reading };

    ghost use Rattle.std.specs.Coded.{codes};
    ghost use Rattle.rdo_ast.specs.contracts.syntax.Action as action_type;

    ghost coded = { Prim.hlevel (codes, action_type.the_row.coded) };

    ghost use Rattle.rdo_parser.specs.Reader.{reading_left, IsReady};

    ghost view = { reading_left };

    ghost invariant = { IsReady };
}

impl<'a> Script<'a> {
    /// The items of a text.
    pub fn new(text: &'a [u8]) -> Script<'a>
        requires { length text.now < 2 ^ 31 }
        ensures items { result.items ≡ spec.script_items text.now }
        ensures stops { result.stops ≡ spec.ends_in_stop text.now }
    {
        Script {
            text,
            at: 0,
            place: Place::START,
        }
    }

    /// The next item, or none at the end and at a `$ STOP`. Want of memory leaves the script as it is.
    pub fn next_item(&mut self, alloc: Global) -> Result<Option<Item>, NoMemory>
        ensures ok { IfOk result (λ next. MatchOption next ((self.old.items ≡ []) × (self.new.items ≡ [])) (λ item. self.old.items ≡ item ∷ self.new.items)) }
        ensures err { OnErr result (self.new ≡ self.old) }
        ensures stops { self.new.stops ≡ self.old.stops }
    {
        match item_at(alloc, self.text, self.at, self.place)? {
            None => Ok(None),
            Some(found) => {
                self.place = self.place.behind(&self.text[self.at..found.next]);
                self.at = found.next;
                Ok(Some(found.item))
            }
        }
    }

    /// Whether a `$ STOP` comes next. Where no item is left, that is whether they end at one.
    pub fn stops(&self) -> bool
        ensures { self.now.items ≡ [] → result ≡ self.now.stops }
    {
        begins_stop(&self.text[self.at..])
    }
}
