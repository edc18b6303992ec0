//! Names of hosts.
ghost use Rattle.std.specs.Prelude.{◌≡◌, ◌==◌, true, Some};
ghost use Rattle.std.specs.List.{list_all, slice_split};
ghost use Rattle.creds.specs.Names.{is_host_octet, is_host_part, is_host, host_of};

use crate::text::Text;
use std::fmt;
use std::marker::Model;

/// The greatest length of a host name, in octets.
const HOST_LEN: usize = 64;

/// The name of a host: 1 to 64 characters of `a-z`, `0-9`, `.` and `-`, where no part between the
/// dots is empty or has `-` at an end.
#[derive(Clone, Copy, PartialEq, Eq, Debug)]
pub struct HostName {
    text: Text<HOST_LEN>,
}

impl Model for HostName {
    ghost use Rattle.std.specs.Prelude.{◌≡◌, ℕ, List, true};
    ghost use Rattle.creds.specs.Names.{is_host};

    ghost Value = { List ℕ };

    ghost view = { λ h. h.text };

    ghost invariant = { λ h. is_host h.text ≡ true };

    ghost inverse = { λ t. record { text = t } };
}

fn is_host_octet(b: u8) -> bool
    ensures { result ≡ is_host_octet b }
{
    matches!(b, b'a'..=b'z' | b'0'..=b'9' | b'.' | b'-')
}

fn are_host_octets(text: &[u8]) -> bool
    ensures { result ≡ list_all is_host_octet text.now }
{
    text.iter().all(|&b| is_host_octet(b))
}

fn is_host_part(part: &[u8]) -> bool
    ensures { result ≡ is_host_part part.now }
{
    !part.is_empty() && part[0] != b'-' && part[part.len() - 1] != b'-'
}

fn are_host_parts(text: &[u8]) -> bool
    ensures { result ≡ list_all is_host_part (slice_split (λ b. b == 46) text.now) }
{
    text.split(|&b| b == b'.').all(|part| is_host_part(part))
}

impl HostName {
    /// The host name that a text is; `None` if it has not the form of one.
    pub fn read(text: &[u8]) -> Option<HostName>
        ensures { result ≡ host_of text.now }
    {
        if text.is_empty()
            || text.len() > HOST_LEN
            || !are_host_octets(text)
            || !are_host_parts(text)
        {
            return None;
        }
        Some(HostName {
            text: Text::new(text),
        })
    }

    /// The octets of the host name.
    pub fn as_bytes(&self) -> &[u8]
        ensures value { result.now ≡ self.now }
        ensures form { is_host self.now ≡ true }
    {
        self.text.as_bytes()
    }
}

impl fmt::Display for HostName {
    ghost output = { λ h. Some h };

    fn fmt<W: fmt::Write>(&self, f: &mut fmt::Formatter<W>) -> fmt::Result {
        self.text.fmt(f)
    }
}
