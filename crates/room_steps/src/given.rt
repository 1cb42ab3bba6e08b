// A room with the line that was named for it.
ghost use Rattle.std.specs.Prelude.{◌≡◌, ℕ, true};
ghost use Rattle.rdb_page.specs.Page.{IsOwner, IsClass};

use area_files::storage_area;
use gathering_steps::Gather;
use line_view::Room;
use rdb_types::Dbkey;

/// A room, and the line that was named for it.
#[derive(Clone, Copy, Debug)]
pub struct Given {
    pub room: Room,
    pub key: Dbkey,
}

impl Given {
    /// The line is locked.
    pub(crate) fn lodging(self) -> Gather
        ensures { result ≡ Gather.Lodging self.room self.key }
    {
        Gather::Lodging(self.room, self.key)
    }
}

/// Whether lines of a class stand on pages of a logical area.
pub(crate) fn is_of_pages(area: u32, class: u16) -> bool
    ensures area { result ≡ true → (file : ℕ) × IsOwner file area }
    ensures class { result ≡ true → IsClass class }
{
    storage_area(area).is_some() && (class == 208 || class == 440)
}
