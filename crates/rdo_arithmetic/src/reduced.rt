//! Rows of values as a set orders them.
use rdb_types::{Row, row_order};
use std::cmp::Ordering;

/// The values of the fields that tuples are reduced to. They are ordered as rows are.
#[derive(Drop)]
pub struct ReducedValues {
    pub values: Row,
}

impl PartialEq for ReducedValues {
    ghost use Rattle.std.specs.Ordering.{is_eq};
    ghost use Rattle.rdb_types.specs.Order.{row_order};
    ghost use Rattle.rdo_arithmetic.specs.RowLaws.{row_partial_equivalence};

    ghost eq = { λ a b. is_eq (row_order a.values b.values) };

    ghost laws = { row_partial_equivalence };

    fn eq(&self, other: &ReducedValues) -> bool {
        row_order(self.values.as_slice(), other.values.as_slice()).is_eq()
    }
}

impl Eq for ReducedValues {
    ghost use Rattle.rdo_arithmetic.specs.RowLaws.{row_equivalence};

    ghost laws = { row_equivalence };
}

impl PartialOrd for ReducedValues {
    ghost use Rattle.std.specs.Prelude.{Some};
    ghost use Rattle.rdb_types.specs.Order.{row_order};
    ghost use Rattle.rdo_arithmetic.specs.RowLaws.{row_partial_order};

    ghost partial_cmp = { λ a b. Some (row_order a.values b.values) };

    ghost laws = { row_partial_order };

    fn partial_cmp(&self, other: &ReducedValues) -> Option<Ordering> {
        Some(row_order(self.values.as_slice(), other.values.as_slice()))
    }
}

impl Ord for ReducedValues {
    ghost use Rattle.std.proofs.Common.{refl};
    ghost use Rattle.rdb_types.specs.Order.{row_order};
    ghost use Rattle.rdo_arithmetic.specs.RowLaws.{reduced_total};

    ghost cmp = { λ a b. row_order a.values b.values };

    ghost total = { reduced_total };

    ghost matches_partial_cmp = { λ a b. refl };

    ghost matches_eq = { λ a b. refl };

    fn cmp(&self, other: &ReducedValues) -> Ordering {
        row_order(self.values.as_slice(), other.values.as_slice())
    }
}
