use std::marker::Brand;

/// What a run began with. It has no call.
pub trait Origin {
    ghost use Rattle.std.specs.Prelude.{ℕ};
    ghost use Rattle.rdb_account.specs.Places.{Opening};

    /// What its account is read beside: the database's word, the scripts, and the tables at the opening.
    ghost opening: { Opening };

    /// How many sessions it has, which are numbered from 1.
    ghost sessions: { ℕ };

    /// How many faults the store's clock had counted before it.
    ghost faults: { ℕ };

    /// Whether the opening told what the store holds.
    ghost told: { Type 0 };
}

impl Origin for Brand {
    ghost use Rattle.std.specs.Prelude.{[], false, true};
    ghost use Rattle.rdb_meaning.specs.Contents.{no_tables};

    ghost opening = { record {
      word = [];
      script = λ s. [];
      stops = λ s. false;
      tables = no_tables;
      limits = record { pages = 0; snapshots = 0; entries = 0; slots = 0 };
      has_owner = λ file page. false;
      group_slots = 0;
      moment = 0;
      may_die = λ s cause. true;
    } };

    ghost sessions = { 0 };

    ghost faults = { 0 };

    ghost told = { Unit {0} };
}
