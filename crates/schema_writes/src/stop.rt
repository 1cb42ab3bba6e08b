// Why a definition isn't written.
ghost use Rattle.schema_writes.specs.Stop.{Tells};

use line_view::{Need, Stop};
use rdo_ast::reply::Reply;
use statement_view::Changed;

/// Why a definition isn't made.
#[derive(Drop)]
pub enum SchemaRefusal {
    /// The definition of the language refuses it so.
    Refused(Reply),
    /// There are no more numbers for rooms of the catalog, or of the logical area of a new index.
    NoRoom,
    /// The tree of a new index would have to be higher than 255 levels, or there are no more numbers for rooms of its logical area.
    Full,
}

/// Why the writing of a definition stops.
pub type SchemaStop = Stop<SchemaRefusal>;

/// Why a definition stops, by what is known: rooms have other numbers there than in the view.
pub fn known_stop(view: &Changed<'_>, stop: Stop<Reply>) -> SchemaStop
    ensures { Tells view.now.base stop result }
{
    match stop {
        Stop::Missing(Need::Room(room)) => match view.lacks(room.area, room.class) {
            Some(lacked) => Stop::Missing(Need::Room(lacked)),
            None => Stop::Own(SchemaRefusal::NoRoom),
        },
        Stop::Missing(Need::Line(key)) => Stop::Missing(Need::Line(key)),
        Stop::Missing(Need::Area(area)) => Stop::Missing(Need::Area(area)),
        Stop::Bad(key) => Stop::Bad(key),
        Stop::NoMemory => Stop::NoMemory,
        Stop::Own(reply) => Stop::Own(SchemaRefusal::Refused(reply)),
    }
}
