//! What a command line says (RFC 1939, 3 to 7; RFC 2449, 4 and 5).

ghost use Rattle.std.specs.Prelude.{◌≡◌, map};
ghost use Rattle.popline.specs.Commands.{command_of, command_with, keywords, keyword_in};
ghost use Rattle.popline.specs.Commands.{keyword_of, is_spelled, lowered};
ghost use Rattle.popline.specs.Commands.{alone as alone_of, with_one as with_one_of};
ghost use Rattle.popline.specs.Commands.{with_two as with_two_of, with_password};
ghost use Rattle.popline.specs.Seen.{reading_seen, command_seen, found_seen, keyword_row_seen};

use crate::arguments::{read_digest, read_number, split_once, split_word, without_trailing_spaces};
use creds::LoginName;

/// The first word of a command line, which a client may spell in letters of any case.
#[derive(Clone, Copy, Debug, PartialEq, Eq)]
pub enum Keyword {
    /// Lists the capabilities (RFC 2449, 5).
    Capa,
    /// Names the clerk and the maildrop of a login (RFC 1939, 7).
    User,
    /// Logs in by the password of the clerk that USER named (RFC 1939, 7).
    Pass,
    /// Logs in by a name and a digest (RFC 1939, 7).
    Apop,
    /// Ends the connection (RFC 1939, 4 and 6).
    Quit,
    /// Counts the messages and their octets (RFC 1939, 5).
    Stat,
    /// Lists messages with their octets (RFC 1939, 5).
    List,
    /// Lists messages with their unique-ids (RFC 1939, 7).
    Uidl,
    /// Fetches a message (RFC 1939, 5).
    Retr,
    /// Fetches a message's header and the first lines of its body (RFC 1939, 7).
    Top,
    /// Marks a message, to be removed at QUIT (RFC 1939, 5).
    Dele,
    /// Takes all marks away (RFC 1939, 5).
    Rset,
    /// Nothing (RFC 1939, 5).
    Noop,
}

/// A command with its arguments. A number above 2^64 - 1 is read as 2^64 - 1. There is no `Debug`,
/// since a command may hold a password.
#[derive(Clone, Copy, PartialEq, Eq)]
pub enum Command<'a> {
    /// Lists the capabilities (RFC 2449, 5).
    Capa,
    /// The clerk and the maildrop that PASS will log in (RFC 1939, 7).
    User(LoginName),
    /// The password, of at least one octet, of the clerk that USER named (RFC 1939, 7).
    Pass(&'a [u8]),
    /// A name, and the digest of the greeting's timestamp and the clerk's secret (RFC 1939, 7).
    Apop(LoginName, [u8; 16]),
    /// Ends the connection (RFC 1939, 4 and 6).
    Quit,
    /// Counts the messages and their octets (RFC 1939, 5).
    Stat,
    /// The number of the message to list with its octets; all messages if `None` (RFC 1939, 5).
    List(Option<u64>),
    /// The number of the message to list with its unique-id; all messages if `None` (RFC 1939, 7).
    Uidl(Option<u64>),
    /// The number of the message to fetch (RFC 1939, 5).
    Retr(u64),
    /// A message's number, and how many lines of its body follow the header (RFC 1939, 7).
    Top(u64, u64),
    /// The number of the message to mark, to be removed at QUIT (RFC 1939, 5).
    Dele(u64),
    /// Takes all marks away (RFC 1939, 5).
    Rset,
    /// Nothing (RFC 1939, 5).
    Noop,
}

/// Why a line is no command.
#[derive(Clone, Copy, Debug, PartialEq, Eq)]
pub enum LineFault {
    /// Its first word is no keyword.
    Unknown,
    /// Its arguments don't fit its keyword.
    Syntax(Keyword),
}

impl<'a> Command<'a> {
    /// Reads a command line, given without its CRLF.
    ///
    /// The keyword is the text before the first space. One space stands before each argument;
    /// spaces at the end are ignored. PASS's password is all that follows the first space. Fails
    /// with `Unknown` if the keyword is none of the thirteen, else with `Syntax` if the
    /// arguments don't fit it.
    pub fn read(line: &'a [u8]) -> Result<Command<'a>, LineFault>
        ensures { reading_seen result ≡ command_of line.now }
    {
        let Some(keyword) = Keyword::spelled(split_word(line).0) else {
            return Err(LineFault::Unknown);
        };
        match keyword.command(line) {
            Some(command) => Ok(command),
            None => Err(LineFault::Syntax(keyword)),
        }
    }

    /// The command's keyword.
    pub fn keyword(&self) -> Keyword
        ensures { result ≡ keyword_of (command_seen self.now) }
    {
        match self {
            Command::Capa => Keyword::Capa,
            Command::User(_) => Keyword::User,
            Command::Pass(_) => Keyword::Pass,
            Command::Apop(_, _) => Keyword::Apop,
            Command::Quit => Keyword::Quit,
            Command::Stat => Keyword::Stat,
            Command::List(_) => Keyword::List,
            Command::Uidl(_) => Keyword::Uidl,
            Command::Retr(_) => Keyword::Retr,
            Command::Top(_, _) => Keyword::Top,
            Command::Dele(_) => Keyword::Dele,
            Command::Rset => Keyword::Rset,
            Command::Noop => Keyword::Noop,
        }
    }
}

/// The keywords, as they are spelled.
const KEYWORDS: [(&[u8], Keyword); 13] = [
    (b"capa", Keyword::Capa),
    (b"user", Keyword::User),
    (b"pass", Keyword::Pass),
    (b"apop", Keyword::Apop),
    (b"quit", Keyword::Quit),
    (b"stat", Keyword::Stat),
    (b"list", Keyword::List),
    (b"uidl", Keyword::Uidl),
    (b"retr", Keyword::Retr),
    (b"top", Keyword::Top),
    (b"dele", Keyword::Dele),
    (b"rset", Keyword::Rset),
    (b"noop", Keyword::Noop),
];

/// Whether the text spells the word, in letters of any case.
fn is_spelled(word: &[u8], text: &[u8]) -> bool
    ensures { result ≡ is_spelled (map lowered word.now) text.now }
{
    text.eq_ignore_ascii_case(word)
}

/// The keyword of the first row whose word the text spells, in letters of any case.
fn first_spelled(rows: &[(&[u8], Keyword)], text: &[u8]) -> Option<Keyword>
    ensures { result ≡ keyword_in (map keyword_row_seen rows.now) text.now }
{
    match rows {
        [] => None,
        [(word, keyword), ..] if is_spelled(word, text) => Some(*keyword),
        [_, rows @ ..] => first_spelled(rows, text),
    }
}

impl Keyword {
    /// The keyword that the word spells, in letters of any case.
    fn spelled(word: &[u8]) -> Option<Keyword>
        ensures { result ≡ keyword_in keywords word.now }
    {
        first_spelled(&KEYWORDS, word)
    }

    /// The command of a line with this keyword; `None` if the arguments don't fit.
    fn command<'a>(self, line: &'a [u8]) -> Option<Command<'a>>
        ensures { found_seen result ≡ command_with self line.now }
    {
        if self == Keyword::Pass {
            return password(split_word(line).1);
        }
        let trimmed = without_trailing_spaces(line);
        let Some((_, rest)) = split_once(trimmed) else {
            return self.alone();
        };
        let Some((first, second)) = split_once(rest) else {
            return self.with_one(rest);
        };
        match split_once(second) {
            None => self.with_two(first, second),
            Some(_) => None,
        }
    }

    /// The command of this keyword without arguments.
    fn alone<'a>(self) -> Option<Command<'a>>
        ensures { found_seen result ≡ alone_of self }
    {
        match self {
            Keyword::Capa => Some(Command::Capa),
            Keyword::Quit => Some(Command::Quit),
            Keyword::Stat => Some(Command::Stat),
            Keyword::List => Some(Command::List(None)),
            Keyword::Uidl => Some(Command::Uidl(None)),
            Keyword::Rset => Some(Command::Rset),
            Keyword::Noop => Some(Command::Noop),
            Keyword::User | Keyword::Pass | Keyword::Apop => None,
            Keyword::Retr | Keyword::Top | Keyword::Dele => None,
        }
    }

    /// The command of this keyword with one argument.
    fn with_one<'a>(self, argument: &[u8]) -> Option<Command<'a>>
        ensures { found_seen result ≡ with_one_of self argument.now }
    {
        match self {
            Keyword::User => Some(Command::User(LoginName::read(argument)?)),
            Keyword::List => Some(Command::List(Some(read_number(argument)?))),
            Keyword::Uidl => Some(Command::Uidl(Some(read_number(argument)?))),
            Keyword::Retr => Some(Command::Retr(read_number(argument)?)),
            Keyword::Dele => Some(Command::Dele(read_number(argument)?)),
            Keyword::Capa | Keyword::Pass | Keyword::Apop | Keyword::Quit => None,
            Keyword::Stat | Keyword::Top | Keyword::Rset | Keyword::Noop => None,
        }
    }

    /// The command of this keyword with two arguments.
    fn with_two<'a>(self, first: &[u8], second: &[u8]) -> Option<Command<'a>>
        ensures { found_seen result ≡ with_two_of self first.now second.now }
    {
        match self {
            Keyword::Apop => Some(Command::Apop(LoginName::read(first)?, read_digest(second)?)),
            Keyword::Top => Some(Command::Top(read_number(first)?, read_number(second)?)),
            Keyword::Capa | Keyword::User | Keyword::Pass | Keyword::Quit | Keyword::Stat => None,
            Keyword::List | Keyword::Uidl | Keyword::Retr | Keyword::Dele => None,
            Keyword::Rset | Keyword::Noop => None,
        }
    }
}

/// PASS with its password; `None` if that is empty.
fn password(octets: &[u8]) -> Option<Command<'_>>
    ensures { found_seen result ≡ with_password octets.now }
{
    match octets {
        [] => None,
        _ => Some(Command::Pass(octets)),
    }
}
