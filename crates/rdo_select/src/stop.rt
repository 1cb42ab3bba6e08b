ghost use Rattle.std.specs.Prelude.{◌≡◌};
ghost use Rattle.rdo_select.specs.Stops.{stop_of_value};

use line_view::Stop;
use rdo_values::Stop as ValueStop;

/// A condition is undecided for some tuple, or a value isn't known, since an expression overflows.
#[derive(Clone, Copy, Debug, PartialEq, Eq)]
pub struct Overflow {}

/// Why a selection over a view stops. A line is bad where its bytes are no row of its relation.
pub type SelectStop = Stop<Overflow>;

pub(crate) fn from_value(stop: ValueStop) -> SelectStop
    ensures { result ≡ stop_of_value stop }
{
    match stop {
        ValueStop::Overflow => Stop::Own(Overflow {}),
        ValueStop::Memory => Stop::NoMemory,
    }
}
