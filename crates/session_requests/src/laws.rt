//! Laws of requests.

ghost use Rattle.std.specs.Prelude.{◌≡◌, ◌++◌, ℕ, List, None};
ghost use Rattle.std.specs.List.{AllByRecursion, flat_map};
ghost use Rattle.session_requests.specs.Written.{FitsRequest, request_bytes};
ghost use Rattle.session_requests.specs.Requests.{Ask, Is, next_and_rest, all_requests, request_in_bytes, requests_of};

/// A law, and no code: what a client writes for a list of requests is read as that list, and then the input ends. So no
/// byte of a body is ever taken for a request.
#[tactic(auto, using(crate::proofs::RoundTrip::requests_read))]
pub fn written_is_read()
    ensures { (asks : List Ask) → AllByRecursion FitsRequest asks → requests_of (flat_map request_bytes asks) ≡ all_requests asks None }
{}

/// A law, and no code: what an input asks for is its first request, and what the rest asks for.
#[tactic(auto, using(crate::proofs::Steps::requests_step))]
pub fn next_of_input()
    ensures { (bytes : List ℕ) → requests_of bytes ≡ next_and_rest (request_in_bytes bytes) }
{}

/// A law, and no code: a request that is read is one that can be written, and its bytes come first in the input. So
/// only the forms of requests are read.
pub fn read_is_written()
    ensures { (bytes rest : List ℕ) (ask : Ask) → request_in_bytes bytes ≡ Is ask rest → FitsRequest ask × (bytes ≡ request_bytes ask ++ rest) }
{}
