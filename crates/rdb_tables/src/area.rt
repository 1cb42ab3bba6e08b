ghost use Rattle.std.specs.Ordering.{nat_cmp, on};
ghost use Rattle.std.specs.Cmp.{nat_cmp_total, on_total};

use ordered_entries::Key;
use std::cmp::Ordering;

/// A logical area. The areas of a relation's indexes are in the order of their definition.
#[derive(Clone, Copy)]
pub struct Area {
    pub number: u32,
}

impl Key for Area {
    ghost order = { on (λ a. a.number) nat_cmp };

    ghost total = { on_total (λ a. a.number) nat_cmp_total };

    fn order(&self, other: &Area) -> Ordering {
        self.number.cmp(&other.number)
    }
}
