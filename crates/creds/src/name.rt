//! Names of clerks, maildrops and rules, and classes.
ghost use Rattle.std.specs.Prelude.{◌≡◌, true, Some};
ghost use Rattle.std.specs.List.{list_all};
ghost use Rattle.creds.specs.Names.{is_name_octet, is_name, name_of};

use crate::text::Text;
use std::fmt;
use std::marker::Model;

/// The greatest length of a name, in octets.
const NAME_LEN: usize = 32;

/// A name of a clerk, a maildrop or a rule, or a class: 1 to 32 characters of `a-z`, `0-9` and `-`.
/// Names are ordered as their octets are.
#[derive(Clone, Copy, PartialEq, Eq, PartialOrd, Ord, Debug)]
pub struct Name {
    text: Text<NAME_LEN>,
}

impl Model for Name {
    ghost use Rattle.std.specs.Prelude.{◌≡◌, ℕ, List, true};
    ghost use Rattle.creds.specs.Names.{is_name};

    ghost Value = { List ℕ };

    ghost view = { λ n. n.text };

    ghost invariant = { λ n. is_name n.text ≡ true };

    ghost inverse = { λ t. record { text = t } };
}

fn is_name_octet(b: u8) -> bool
    ensures { result ≡ is_name_octet b }
{
    matches!(b, b'a'..=b'z' | b'0'..=b'9' | b'-')
}

fn are_name_octets(text: &[u8]) -> bool
    ensures { result ≡ list_all is_name_octet text.now }
{
    text.iter().all(|&b| is_name_octet(b))
}

impl Name {
    /// The name that a text is; `None` if it has not the form of one.
    pub fn read(text: &[u8]) -> Option<Name>
        ensures { result ≡ name_of text.now }
    {
        if text.is_empty() || text.len() > NAME_LEN || !are_name_octets(text) {
            return None;
        }
        Some(Name {
            text: Text::new(text),
        })
    }

    /// The octets of the name.
    pub fn as_bytes(&self) -> &[u8]
        ensures value { result.now ≡ self.now }
        ensures form { is_name self.now ≡ true }
    {
        self.text.as_bytes()
    }

    /// The text of the name.
    pub fn as_str(&self) -> &str
        ensures { result.now ≡ self.now }
    {
        self.text.as_str()
    }
}

impl fmt::Display for Name {
    ghost output = { λ n. Some n };

    fn fmt<W: fmt::Write>(&self, f: &mut fmt::Formatter<W>) -> fmt::Result {
        self.text.fmt(f)
    }
}
