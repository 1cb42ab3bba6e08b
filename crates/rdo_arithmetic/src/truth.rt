ghost use Rattle.std.specs.Prelude.{◌≡◌};
ghost use Rattle.rdb_meaning.specs.Comparison.{weighed, not_of, and_of, or_of};
ghost use Rattle.rdo_arithmetic.specs.Answers.{truth_of};

/// What a condition says.
#[derive(Clone, Copy, Debug, PartialEq, Eq)]
pub enum Truth {
    True,
    False,
    Missing,
}

/// True or false.
pub fn truth_from(holds: bool) -> Truth
    ensures { truth_of result ≡ weighed holds }
{
    if holds { Truth::True } else { Truth::False }
}

/// NOT.
pub fn opposite(a: Truth) -> Truth
    ensures { truth_of result ≡ not_of (truth_of a) }
{
    match a {
        Truth::True => Truth::False,
        Truth::False => Truth::True,
        Truth::Missing => Truth::Missing,
    }
}

/// AND: false where one is false, else missing where one is missing.
pub fn both(a: Truth, b: Truth) -> Truth
    ensures { truth_of result ≡ and_of (truth_of a) (truth_of b) }
{
    match (a, b) {
        (Truth::False, _) | (_, Truth::False) => Truth::False,
        (Truth::Missing, _) | (_, Truth::Missing) => Truth::Missing,
        (Truth::True, Truth::True) => Truth::True,
    }
}

/// OR: true where one is true, else missing where one is missing.
pub fn either(a: Truth, b: Truth) -> Truth
    ensures { truth_of result ≡ or_of (truth_of a) (truth_of b) }
{
    match (a, b) {
        (Truth::True, _) | (_, Truth::True) => Truth::True,
        (Truth::Missing, _) | (_, Truth::Missing) => Truth::Missing,
        (Truth::False, Truth::False) => Truth::False,
    }
}
