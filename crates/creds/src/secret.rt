//! Secrets and passwords.
ghost use Rattle.std.specs.Prelude.{◌≡◌, true};
ghost use Rattle.std.specs.List.{list_all};
ghost use Rattle.creds.specs.Names.{is_printable, is_secret, secret_of};

use crate::text::Text;
use std::fmt;
use std::marker::Model;

/// The greatest length of a secret, in octets.
const SECRET_LEN: usize = 128;

/// A secret or a password that a clerk is given: 1 to 128 octets from 0x20 to 0x7E.
/// Its `Debug` does not show it, and it has no `Display`.
#[derive(Clone, Copy, PartialEq, Eq)]
pub struct Secret {
    text: Text<SECRET_LEN>,
}

impl Model for Secret {
    ghost use Rattle.std.specs.Prelude.{◌≡◌, ℕ, List, true};
    ghost use Rattle.creds.specs.Names.{is_secret};

    ghost Value = { List ℕ };

    ghost view = { λ s. s.text };

    ghost invariant = { λ s. is_secret s.text ≡ true };

    ghost inverse = { λ t. record { text = t } };
}

fn is_printable(b: u8) -> bool
    ensures { result ≡ is_printable b }
{
    matches!(b, b' '..=b'~')
}

fn are_printable(text: &[u8]) -> bool
    ensures { result ≡ list_all is_printable text.now }
{
    text.iter().all(|&b| is_printable(b))
}

impl Secret {
    /// The secret that a text is; `None` if it has not the form of one.
    pub fn read(text: &[u8]) -> Option<Secret>
        ensures { result ≡ secret_of text.now }
    {
        if text.is_empty() || text.len() > SECRET_LEN || !are_printable(text) {
            return None;
        }
        Some(Secret {
            text: Text::new(text),
        })
    }

    /// The octets of the secret.
    pub fn as_bytes(&self) -> &[u8]
        ensures value { result.now ≡ self.now }
        ensures form { is_secret self.now ≡ true }
    {
        self.text.as_bytes()
    }
}

impl fmt::Debug for Secret {
    fn fmt<W: fmt::Write>(&self, f: &mut fmt::Formatter<W>) -> fmt::Result {
        f.write_str("Secret(..)")
    }
}
