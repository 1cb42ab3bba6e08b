// Laws of sound maps.
ghost use Rattle.std.specs.Prelude.{◌≡◌, []};
ghost use Rattle.rdb_meaning.specs.declared.tables.Tables.{Tables};
ghost use Rattle.rdb_meaning.specs.Contents.{no_tables};
ghost use Rattle.line_view.specs.Knowledge.{Lines, IsInOrder};
ghost use Rattle.sound_maps.specs.Maps.{IsSoundWith};

/// A sound map is in order.
pub fn sound_maps_are_in_order()
    ensures { (all : Lines) (t : Tables) → IsSoundWith all t → IsInOrder all }
{}

/// The empty map is sound, and has no tables.
pub fn the_empty_map_is_sound()
    ensures { IsSoundWith [] no_tables }
{}
