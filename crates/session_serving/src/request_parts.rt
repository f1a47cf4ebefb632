//! What the fault of an input prints.

ghost use Rattle.std.specs.Prelude.{◌≡◌};
ghost use Rattle.byte_streams.specs.Refusals.{parts_in};
ghost use Rattle.session_serving.specs.Serving.{request_fault_parts};

use byte_streams::LineParts;
use session_requests::RequestFault;

/// The parts of what the fault of an input prints.
pub(crate) fn parts_of(fault: RequestFault) -> LineParts
    ensures { parts_in result ≡ request_fault_parts fault }
{
    match fault {
        RequestFault::BadLine => LineParts::without_line("request", "BadLine", 1),
        RequestFault::Cut => LineParts::without_line("request", "Cut", 2),
    }
}
