//! Names of spool files.
ghost use Rattle.std.specs.Prelude.{◌≡◌, position};
ghost use Rattle.serving.specs.FileNames.{is_dot, NamesReadBack, NamesHaveOneText};

use creds::{DepositId, Name};
use std::alloc::{AllocError, Global};

/// The name of a spool file, `maildrop.class.id.eml`: into which maildrop it is deposited, under
/// which class and id.
#[derive(Clone, Copy, PartialEq, Eq, Debug)]
pub struct FileName {
    pub maildrop: Name,
    pub class: Name,
    pub id: DepositId,
}

/// Where the first dot of a text is.
fn first_dot(text: &[u8]) -> Option<usize>
    ensures { result ≡ position is_dot text.now }
{
    text.iter().position(|&b| b == b'.')
}

impl FileName {
    ghost use Rattle.std.specs.Prelude.{◌≡◌, IfOk, string_bytes};
    ghost use Rattle.serving.specs.FileNames.{
      file_name_of,
      with_class as with_class_of,
      with_id as
          with_id_of,
      text_of,
    };

    /// The name that a text is; `None` if it isn't of the form.
    #[tactic(auto, unfolding(crate::specs::FileNames::file_name_of))]
    pub fn read(text: &[u8]) -> Option<FileName>
        ensures { result ≡ file_name_of text.now }
    {
        let dot = first_dot(text)?;
        let maildrop = Name::read(&text[..dot])?;
        FileName::with_class(maildrop, &text[dot + 1..])
    }

    /// Reads what is after the maildrop and its dot.
    #[tactic(auto, unfolding(crate::specs::FileNames::with_class))]
    fn with_class(maildrop: Name, text: &[u8]) -> Option<FileName>
        ensures { result ≡ with_class_of maildrop text.now }
    {
        let dot = first_dot(text)?;
        let class = Name::read(&text[..dot])?;
        FileName::with_id(maildrop, class, &text[dot + 1..])
    }

    /// Reads what is after the class and its dot.
    #[tactic(auto, unfolding(crate::specs::FileNames::with_id))]
    fn with_id(maildrop: Name, class: Name, text: &[u8]) -> Option<FileName>
        ensures { result ≡ with_id_of maildrop class text.now }
    {
        let dot = first_dot(text)?;
        let id = DepositId::read(&text[..dot])?;
        if &text[dot + 1..] == b"eml".as_slice() {
            Some(FileName {
                maildrop,
                class,
                id,
            })
        } else {
            None
        }
    }

    /// The text of the name. Its error is [`AllocError`], if memory was refused.
    pub fn text(&self, alloc: Global) -> Result<String, AllocError>
        ensures { IfOk result (λ text. string_bytes text ≡ text_of self.now) }
    {
        let text = format!(in alloc; "{}.{}.{}.eml", self.maildrop, self.class, self.id)?;
        Ok(text)
    }
}

/// A law: the text of a name is read as that name, and no other text is.
pub fn names_read_back()
    ensures names { NamesReadBack }
    ensures texts { NamesHaveOneText }
{}
