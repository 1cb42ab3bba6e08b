// What a store was opened over.
use std::marker::Brand;

/// The disk as it was before a store was opened over it. It has no call.
pub trait FormerDisk {
    ghost use Rattle.rdb_outside.specs.Disk.{View};

    ghost former: { View };
}

impl FormerDisk for Brand {
    ghost use Rattle.std.specs.Prelude.{[], false};

    ghost former = { record {
      tells = false;
      content = λ file slot. [];
      left_since = λ t image. ⊥;
      moment = 0;
      faults = 0;
    } };
}
