//! A command line of a connection, which is read once.
ghost use Rattle.std.specs.Prelude.{◌≡◌, IfOk, IfErr};
ghost use Rattle.popline.specs.Seen.{command_seen, reply_seen};
ghost use Rattle.office.specs.Connections.{is_quit, reading};
ghost use Rattle.office.specs.LongLine.{is_too_long};
ghost use Rattle.office.specs.Permitted.{Permits, Refuses};
ghost use Rattle.office.specs.Replying.{is_allowed as is_allowed_of};

use popline::{Command, Cut, Keyword, LineFault, Reply};
use std::marker::Model;

/// Whether a command may be given: in a session (`live`), or before one with a login name in force
/// (`has_user`) or none.
fn is_allowed(keyword: Keyword, live: bool, has_user: bool) -> bool
    ensures { result ≡ is_allowed_of keyword live has_user }
{
    match keyword {
        Keyword::Capa | Keyword::Quit => true,
        Keyword::User | Keyword::Apop => !live,
        Keyword::Pass => !live && has_user,
        Keyword::Stat | Keyword::List | Keyword::Uidl | Keyword::Retr | Keyword::Top => live,
        Keyword::Dele | Keyword::Rset | Keyword::Noop => live,
    }
}

/// A line of a connection, and what it reads as. Its reply and all that is remembered of it go by
/// this one reading.
#[derive(Drop)]
pub struct CommandLine<'a> {
    cut: Cut<'a>,
    command: Result<Command<'a>, LineFault>,
}

impl<'a> Model for CommandLine<'a> {
    ghost use Rattle.std.specs.Prelude.{◌≡◌};
    ghost use Rattle.popline.specs.Cutting as cutting;
    ghost use Rattle.popline.specs.Seen.{cut_seen, reading_seen};
    ghost use Rattle.office.specs.Connections.{reading};

    ghost Value = { cutting.Cut };

    ghost view = { λ l. cut_seen l.cut };

    ghost invariant = { λ l. reading_seen l.command ≡ reading (cut_seen l.cut) };
}

impl<'a> CommandLine<'a> {
    ghost use Rattle.popline.specs.Seen.{cut_seen, reading_seen};

    /// Reads a line. One that is too long spells nothing.
    pub fn read(cut: Cut<'a>) -> CommandLine<'a>
        ensures { result ≡ cut_seen cut.entry }
    {
        match cut {
            Cut::TooLong => CommandLine {
                cut: Cut::TooLong,
                command: Err(LineFault::Unknown),
            },
            Cut::Line(line) => CommandLine {
                cut: Cut::Line(line),
                command: Command::read(line),
            },
        }
    }

    /// Whether more octets came than a line may have.
    pub fn is_too_long(&self) -> bool
        ensures { result ≡ is_too_long self.now }
    {
        matches!(self.cut, Cut::TooLong)
    }

    /// The command, or why the line isn't one.
    pub fn reading(&self) -> &Result<Command<'a>, LineFault>
        ensures { reading_seen result.now ≡ reading self.now }
    {
        &self.command
    }

    /// The command, if it may be given in a session (`live`), or before one with a login name in
    /// force (`has_user`) or none. The error is the reply that refuses the line: it is too long, or
    /// its keyword is unknown or out of place, or it has bad arguments.
    pub fn permitted(&self, live: bool, has_user: bool) -> Result<&Command<'a>, Reply<'static>>
        ensures ok { IfOk result (λ command. Permits live has_user self.now
            (command_seen command.now)) }
        ensures err { IfErr result (λ reply. Refuses live has_user self.now (reply_seen reply)) }
    {
        if self.is_too_long() {
            return Err(Reply::LineTooLong);
        }
        match &self.command {
            Err(LineFault::Unknown) => Err(Reply::UnknownCommand),
            Err(LineFault::Syntax(keyword)) => {
                if is_allowed(*keyword, live, has_user) {
                    Err(Reply::BadArguments)
                } else {
                    Err(Reply::WrongState)
                }
            }
            Ok(command) => {
                if is_allowed(command.keyword(), live, has_user) {
                    Ok(command)
                } else {
                    Err(Reply::WrongState)
                }
            }
        }
    }

    /// Whether the line is a QUIT without arguments.
    pub fn is_quit(&self) -> bool
        ensures { result ≡ is_quit (reading self.now) }
    {
        matches!(self.command, Ok(Command::Quit))
    }
}
