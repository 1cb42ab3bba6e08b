// What a verification finds behind runs of sessions.
ghost use Rattle.std.specs.Prelude.{List};
ghost use Rattle.rdb_outside.specs.Disk.{Image, IsPending, LeftNow};
ghost use Rattle.rdb_meaning.specs.declared.tables.Tables.{Tables};
ghost use Rattle.rdb_account.specs.Events.{Event};
ghost use Rattle.rdb_account.specs.Places.{Opening};
ghost use Rattle.sound_maps.specs.Maps.{IsSoundWith};
ghost use Rattle.line_runs.specs.Prefix.{HoldsAll, HoldsPrefix, StandsFor};
ghost use Rattle.faultless_databases.specs.Faultless.{HasNoFaults};

use rdb_outside::Disk;

/// An image that stands for tables has no faults to list.
pub fn tables_have_no_fault()
    ensures { (t : Tables) (image : Image) → StandsFor IsSoundWith t image → HasNoFaults image }
{}

/// Behind a run of sessions, whole or stopped, what is read has no faults to list, nor has whatever a crash leaves now, or might have left since the sessions began.
pub fn a_run_leaves_no_fault<D: Disk>(disk: &D)
    ensures read { (o : Opening) (events : List Event) → HoldsPrefix IsSoundWith o (D.view disk.now) events
        → HasNoFaults (D.view disk.now).content }
    ensures now { (o : Opening) (events : List Event) → HoldsPrefix IsSoundWith o (D.view disk.now) events
        → (image : Image) → LeftNow (D.view disk.now) image → HasNoFaults image }
    ensures since { (o : Opening) (events : List Event) → (holds : HoldsPrefix IsSoundWith o (D.view disk.now) events)
        → (image : Image) → (D.view disk.now).left_since holds.began image → HasNoFaults image }
    // Behind a whole one, so has each image that has in each slot what a crash may leave there.
    ensures whole { (o : Opening) (events : List Event) → HoldsAll IsSoundWith o (D.view disk.now) events
        → (image : Image) → IsPending (D.view disk.now) image → HasNoFaults image }
{}
