//! The head of a request: where it stands, and its parts.

ghost use Rattle.std.specs.Prelude.{◌≡◌, ◌≤◌, ◌+◌, length, take, IfSome};
ghost use Rattle.adminhttp.specs.Lines.{head_from, empty_lines, most_in_head};

use crate::lines::{empty_lines_len, head_len};

/// A head ends within so many octets, empty lines in front of it included.
pub const MAX_HEAD: usize = 8192;

/// A head has at most so many headers.
pub const MAX_HEADERS: usize = 64;

/// A request whose head is whole: its parts.
#[derive(Clone, Copy)]
pub struct Head<'b> {
    /// The head, in which the spans of its headers lie.
    pub text: &'b [u8],
    /// The method.
    pub method: &'b [u8],
    /// The target.
    pub target: &'b [u8],
    /// How many headers there are.
    pub headers: usize,
    /// The octets after the head.
    pub behind: &'b [u8],
}

/// The octets within which a head has to end: the first 8,192, or all.
fn front_of(octets: &[u8]) -> &[u8]
    ensures value { result.now ≡ take most_in_head octets.now }
    ensures short { length result.now ≤ length octets.now }
{
    if octets.len() <= MAX_HEAD {
        return octets;
    }
    &octets[..MAX_HEAD]
}

/// Where the head begins in these octets, and how many it has. `None` if it doesn't end in them.
fn locate(front: &[u8]) -> Option<(usize, usize)>
    ensures value { result ≡ head_from (empty_lines front.now) front.now }
    ensures within { IfSome result (λ place. place.0 + place.1 ≤ length front.now) }
{
    let start = empty_lines_len(front);
    match head_len(&front[start..]) {
        Some(len) => Some((start, len)),
        None => None,
    }
}

mod read;

pub use read::read_head;
