// A line is looked for that may stand for a room.
ghost use Rattle.std.specs.Prelude.{◌≡◌, ℕ, true, false};
ghost use Rattle.rdb_page.specs.Page.{IsOwner, IsClass};
ghost use Rattle.line_store.specs.Rooms.{IsBehind};
ghost use Rattle.kept_apart.specs.Guards.{line_node as node_at};
ghost use Rattle.lock_tree_laws.specs.Forest.{party_of};
ghost use Rattle.line_store.specs.Seats.{IsMember, IsWriting};
ghost use Rattle.room_steps.specs.Naming.{is_clear_of as is_clear_at, AreClear, IsNamed};

use crate::given::is_of_pages;
use given_rooms::Rooms;
use line_store::LineStore;
use line_view::Room;
use lock_tree::Tree;
use rdb_types::{Dbkey, Level, Node, Session};
use vms_queues::Mode;

/// What came of looking for a line.
#[derive(Clone, Copy, Debug)]
pub(crate) enum Named {
    Line(Dbkey),
    /// The store names no line behind those that others need: this one is waited for.
    Awaited(Dbkey),
    /// The area has as many pages as this limit lets it, and none of their lines is left.
    Full(u32),
    /// No line of such a room stands on pages of its area.
    Unfit,
}

/// The node of a line.
pub(crate) fn line_node(key: Dbkey) -> Node
    ensures { result ≡ node_at key }
{
    Node {
        level: Level::Line,
        area: key.area,
        at: key.page,
        line: key.line,
    }
}

// Whether an owner neither has got a need on the node nor wants one there.
fn is_clear_of(tree: &Tree, owner: u32, node: Node) -> bool
    ensures { result ≡ is_clear_at (party_of tree.now.parties owner) node }
{
    let is_wanted = match tree.wanted(owner) {
        Some(need) => need.node == node,
        None => false,
    };
    match tree.needed_on(owner, node) {
        Mode::NL => !is_wanted,
        _ => false,
    }
}

// Whether no other session has got or wants a need on the node.
fn is_clear(tree: &Tree, s: Session, node: Node) -> bool
    ensures { result ≡ true → AreClear tree.now s.number node }
{
    for owner in 1..17u32 {
        if owner != s.number && !is_clear_of(tree, owner, node) {
            return false;
        }
    }
    true
}

// Whether a line lies behind another.
fn is_behind(from: Option<Dbkey>, key: Dbkey) -> bool
    ensures { result ≡ false → IsBehind from key → ⊥ }
{
    match from {
        Some(from) => from < key,
        None => true,
    }
}

// Looks for a line behind another, as the store names them. A line that another session has got or wants a need on is passed over while
// the store names one behind it, and so is one that was given to another room.
fn look_from<L: LineStore>(
    store: &L,
    tree: &Tree,
    s: Session,
    rooms: &Rooms,
    room: Room,
    from: Option<Dbkey>,
) -> Named
    requires member { IsMember s.number }
    requires writing { IsWriting ((L.sight store.now).stand s.number) }
    requires area { (file : ℕ) × IsOwner file room.area }
    requires class { IsClass room.class }
    ensures { IsNamed (L.sight store.now) tree.now s.number room rooms.now result }
{
    let mut from = from;
    for _ in 0..u64::MAX {
        let key = match store.room(s, room.area, room.class, from) {
            Ok(key) => key,
            Err(full) => return Named::Full(full.limit),
        };
        let is_given = rooms.has(key);
        if is_clear(tree, s, line_node(key)) && !is_given {
            return Named::Line(key);
        }
        if !is_behind(from, key) {
            return if is_given {
                Named::Unfit
            } else {
                Named::Awaited(key)
            };
        }
        from = Some(key);
    }
    Named::Unfit
}

/// Names a line for a room: the first that may be one behind the last line that was given in this area, else the first in all of the
/// area, since lines before that one may have come free.
pub(crate) fn name_line<L: LineStore>(
    store: &L,
    tree: &Tree,
    s: Session,
    rooms: &Rooms,
    room: Room,
) -> Named
    requires member { IsMember s.number }
    requires writing { IsWriting ((L.sight store.now).stand s.number) }
    ensures { IsNamed (L.sight store.now) tree.now s.number room rooms.now result }
{
    if !is_of_pages(room.area, room.class) {
        return Named::Unfit;
    }
    if let Some(last) = rooms.last_in(room.area) {
        let behind = look_from(store, tree, s, rooms, room, Some(last));
        if let Named::Line(_) = behind {
            return behind;
        }
    }
    look_from(store, tree, s, rooms, room, None)
}
