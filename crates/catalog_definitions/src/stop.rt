ghost use Rattle.std.specs.Prelude.{◌≡◌};
ghost use Rattle.catalog_definitions.specs.Causes.{stop_of_check};

use line_view::Stop;
use rdb_checks::Stop as CheckStop;
use rdo_ast::reply::Reply;

/// The stop of a check, which reads no view.
pub(crate) fn from_check(stop: CheckStop) -> Stop<Reply>
    ensures { result ≡ stop_of_check stop }
{
    match stop {
        CheckStop::Refused(reply) => Stop::Own(reply),
        CheckStop::Memory => Stop::NoMemory,
    }
}
