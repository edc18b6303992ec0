//! The ids under which deposits act once.
ghost use Rattle.std.specs.Prelude.{◌≡◌, true, Some};
ghost use Rattle.std.specs.List.{list_all};
ghost use Rattle.creds.specs.Names.{is_id_octet, is_deposit_id, deposit_id_of};

use crate::text::Text;
use std::fmt;
use std::marker::Model;

/// The greatest length of a deposit id, in octets.
const ID_LEN: usize = 64;

/// The id of a deposit: 1 to 64 characters of `a-z`, `A-Z`, `0-9`, `-` and `_`.
#[derive(Clone, Copy, PartialEq, Eq, Debug)]
pub struct DepositId {
    text: Text<ID_LEN>,
}

impl Model for DepositId {
    ghost use Rattle.std.specs.Prelude.{◌≡◌, ℕ, List, true};
    ghost use Rattle.creds.specs.Names.{is_deposit_id};

    ghost Value = { List ℕ };

    ghost view = { λ d. d.text };

    ghost invariant = { λ d. is_deposit_id d.text ≡ true };

    ghost inverse = { λ t. record { text = t } };
}

fn is_id_octet(b: u8) -> bool
    ensures { result ≡ is_id_octet b }
{
    matches!(b, b'a'..=b'z' | b'A'..=b'Z' | b'0'..=b'9' | b'-' | b'_')
}

fn are_id_octets(text: &[u8]) -> bool
    ensures { result ≡ list_all is_id_octet text.now }
{
    text.iter().all(|&b| is_id_octet(b))
}

impl DepositId {
    /// The deposit id that a text is; `None` if it has not the form of one.
    pub fn read(text: &[u8]) -> Option<DepositId>
        ensures { result ≡ deposit_id_of text.now }
    {
        if text.is_empty() || text.len() > ID_LEN || !are_id_octets(text) {
            return None;
        }
        Some(DepositId {
            text: Text::new(text),
        })
    }

    /// The octets of the id.
    pub fn as_bytes(&self) -> &[u8]
        ensures value { result.now ≡ self.now }
        ensures form { is_deposit_id self.now ≡ true }
    {
        self.text.as_bytes()
    }

    /// The text of the id.
    pub fn as_str(&self) -> &str
        ensures { result.now ≡ self.now }
    {
        self.text.as_str()
    }
}

impl fmt::Display for DepositId {
    ghost output = { λ d. Some d };

    fn fmt<W: fmt::Write>(&self, f: &mut fmt::Formatter<W>) -> fmt::Result {
        self.text.fmt(f)
    }
}
