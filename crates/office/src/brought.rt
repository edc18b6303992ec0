//! What a connection's next line brings before it acts: a login, a QUIT, or something else.
ghost use Rattle.std.specs.Prelude.{◌≡◌};
ghost use Rattle.office.specs.Connections.{reading};
ghost use Rattle.office.specs.Events.{Trace};
ghost use Rattle.office.specs.Stands.{StandsFor};
ghost use Rattle.office.specs.Waiting.{brings as brings_at, brought_by, login_in, is_quit_in};
ghost use Rattle.office.specs.Waiting.{login_asked as login_asked_by, quit_or_other};
ghost use Rattle.office.specs.Waiting.{login_or_other};

use crate::Office;
use crate::command_line::CommandLine;
use creds::LoginName;
use popline::Command;
use vault::Vault;

/// What a connection's next line brings.
#[derive(Clone, Copy)]
pub enum Brought {
    /// No line is whole, or no octets may come.
    Nothing,
    /// A PASS or APOP before a login (RFC 1939, section 7), which would be judged under this name.
    Login(LoginName),
    /// A QUIT of a session, without arguments (RFC 1939, 6).
    Quit,
    /// Another line.
    Other,
}

impl Brought {
    /// Whether it is a QUIT of a session.
    pub fn is_quit(&self) -> bool
        ensures { result ≡ is_quit_in self.now }
    {
        matches!(self, Brought::Quit)
    }

    /// Whom it would log in.
    pub fn login(&self) -> Option<LoginName>
        ensures { result ≡ login_in self.now }
    {
        match self {
            Brought::Login(name) => Some(*name),
            Brought::Nothing | Brought::Quit | Brought::Other => None,
        }
    }
}

/// Whom a line would log in: for a PASS that is the name in force, for an APOP its own.
fn login_asked(line: &CommandLine<'_>, user: Option<LoginName>) -> Option<LoginName>
    ensures { result ≡ login_asked_by (reading line.now) user }
{
    match line.reading() {
        Ok(Command::Pass(_)) => user,
        Ok(Command::Apop(name, _)) => Some(*name),
        _ => None,
    }
}

/// A login under this name, or another line.
fn login_or_other(login: Option<LoginName>) -> Brought
    ensures { result ≡ login_or_other login }
{
    match login {
        Some(name) => Brought::Login(name),
        None => Brought::Other,
    }
}

/// A QUIT, or another line.
fn quit_or_other(is_quit: bool) -> Brought
    ensures { result ≡ quit_or_other is_quit }
{
    if is_quit {
        Brought::Quit
    } else {
        Brought::Other
    }
}

/// What a line brings in a session (`live`), or before one with this login name in force.
pub(crate) fn brought_by(line: &CommandLine<'_>, live: bool, user: Option<LoginName>) -> Brought
    ensures { result ≡ brought_by live user (reading line.now) }
{
    if live {
        return quit_or_other(line.is_quit());
    }
    login_or_other(login_asked(line, user))
}

impl<V: Vault> Office<V> {
    /// What the next line of connection `c` brings, with this piece after what came before; nothing
    /// if no octets may come on it. The piece isn't given yet.
    ///
    /// It reads the line as the office would. It asks no store, takes no memory and changes
    /// nothing: whether there is such a clerk or maildrop isn't looked at. Lines after the next one
    /// aren't looked at either.
    pub fn brings(&self, c: u64, piece: &[u8]) -> Brought
        ensures { (T : Trace) → StandsFor V.holds self.now T → result ≡ brings_at T c piece.now }
    {
        let Some(connection) = self.connections.get(&c) else {
            return Brought::Nothing;
        };
        if !connection.owes_nothing() {
            return Brought::Nothing;
        }
        connection.brings(piece)
    }
}
