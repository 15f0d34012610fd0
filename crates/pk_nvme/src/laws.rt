//! Laws of requests and records, each as the contract of a function.
ghost use Rattle.std.specs.Prelude.{◌≡◌};

use crate::Request;

/// The entry of a request is read as that request.
pub fn read_back(request: &Request) -> Request
    ensures { result ≡ request.now }
{
    Request::of(&request.entry())
}
