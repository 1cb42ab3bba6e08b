// What jobs name whose selections indexes serve.
ghost use Rattle.rdo_ast.specs.Tree.{Act};
ghost use Rattle.rdb_meaning.specs.declared.tables.Tables.{Tables as Kept};
ghost use Rattle.line_view.specs.Knowledge.{Knowledge, Lines, Agrees};
ghost use Rattle.sound_maps.specs.Maps.{IsSoundWith};
ghost use Rattle.session_jobs.specs.declared.jobs.Found.{Found as Finding};
ghost use Rattle.rdo_exec.specs.Needed.{ActNeeds};
ghost use Rattle.served_jobs.specs.Served.{IsServedOver, IsSparedOver, IfMissing};

/// Where indexes serve each relation of each selection of an action, over a sound map with which what is known agrees, its job names first what is of the catalog, or what is no area: of the relations of its selections a line of an index, or of a row whose key meets the index's part of the tests.
pub fn indexes_spare_areas_of_jobs()
    ensures { (a : Act) (known : Knowledge) (found : Finding) (all : Lines) (t : Kept) → IsSoundWith all t → Agrees known all → ActNeeds a known found → IsServedOver a known all t → IfMissing (IsSparedOver a known all t) found }
{}
