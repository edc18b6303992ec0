//! Administration over HTTP/1.0 and HTTP/1.1 (RFC 9112), one request a connection: the command that
//! a request's octets ask for, and the octets of each response.
#![tactic(auto)]

ghost use Rattle.adminhttp.specs.Laws.{CommandHasItsLine, HasMeaning, HasOneMeaning};

mod body;
mod command;
mod content;
mod fields;
mod head;
mod lines;
mod no_command;
mod refusal;
mod request;
mod request_line;
mod responses;
mod route;
mod router;
mod sites;
mod target;

pub use content::Content;
pub use refusal::Refusal;
pub use request::{Got, Request};
pub use request_line::{Method, RequestLine};
pub use responses::{policy_response, response};
pub use route::Route;
pub use target::Target;

/// A law: the same octets come to one thing at most, and any octets come to something.
pub fn has_one_meaning()
    ensures one { HasOneMeaning }
    ensures some { HasMeaning }
{}

/// A law: a request that gives a command has that command's line.
pub fn command_has_its_line()
    ensures { CommandHasItsLine }
{}
