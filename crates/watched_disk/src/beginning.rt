use std::marker::Brand;

/// The moment from which a disk is watched. It has no call.
pub trait Beginning {
    ghost use Rattle.std.specs.Prelude.{ℕ};

    /// How many faults the disk had counted by then.
    ghost faults: { ℕ };
}

impl Beginning for Brand {
    ghost faults = { 0 };
}
