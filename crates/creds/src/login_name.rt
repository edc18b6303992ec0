//! Login names: a clerk and a maildrop.
ghost use Rattle.std.specs.Prelude.{◌≡◌, ◌==◌, position};

use crate::name::Name;

/// The name by which a clerk logs in to a maildrop, written as the clerk, `/` and the maildrop.
#[derive(Clone, Copy, PartialEq, Eq, Debug)]
pub struct LoginName {
    /// The clerk who logs in.
    pub clerk: Name,
    /// The maildrop that is opened.
    pub maildrop: Name,
}

fn first_slash(text: &[u8]) -> Option<usize>
    ensures { result ≡ position (λ b. b == 47) text.now }
{
    text.iter().position(|&b| b == b'/')
}

impl LoginName {
    ghost use Rattle.std.specs.Prelude.{◌≡◌};
    ghost use Rattle.creds.specs.LoginName.{login_name};

    /// The login name that a text is; `None` if it has not the form of one.
    #[tactic(auto, unfolding(crate::specs::LoginName::login_name))]
    pub fn read(text: &[u8]) -> Option<LoginName>
        ensures { result ≡ login_name text.now }
    {
        let slash = first_slash(text)?;
        let clerk = Name::read(&text[..slash])?;
        let maildrop = Name::read(&text[slash + 1..])?;
        Some(LoginName { clerk, maildrop })
    }
}
