//! Refusals, and their fixed responses.

use crate::route::Route;

/// Why a request isn't done.
#[derive(Clone, Copy, PartialEq, Eq, Debug)]
pub enum Refusal {
    /// 400: the head, a body's length or a clerk's body isn't of its form.
    BadRequest,
    /// 403: the administration has a site, and the request isn't its own.
    ForeignSite,
    /// 404: the target is of no route, or one of its parts hasn't its form.
    NotFound,
    /// 405: the route doesn't have this method.
    NotAllowed(Route),
    /// 411: a body is to be read, and Content-Length is missing or Transfer-Encoding is there.
    LengthRequired,
    /// 413: a body is to be read, and has over 1,048,576 octets.
    TooLarge,
    /// 503: the store failed.
    StoreFailed,
    /// 503: memory ran out.
    OutOfMemory,
}

mod told;
