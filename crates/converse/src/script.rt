//! Replay scripts: reads a whole script into its events, one a line.
//!
//! Lines end at LF; empty lines and lines that begin with `#` are skipped, and counted.

ghost use Rattle.std.specs.Prelude.{◌≡◌, ◌+◌, ◌<◌, ◌≤◌, ◌++◌, ℕ, length, map, IfOk, OnOk};
ghost use Rattle.std.specs.Prelude.{IsOkAnd, IfErr, Some, None, option_copied, option_map, ok_or};
ghost use Rattle.office.specs.Events.{Admin};
ghost use Rattle.converse.specs.Escapes.{unescaped};
ghost use Rattle.converse.specs.LinePlaces.{clerk_place, command_place, deposit_place};
ghost use Rattle.converse.specs.LinePlaces.{explain_place, maildrop_place, number_first};
ghost use Rattle.converse.specs.LinePlaces.{number_place, place_by, place_of, read_seen};
ghost use Rattle.converse.specs.LinePlaces.{secret_place, text_place};
ghost use Rattle.converse.specs.Script.{Does, script_of, line_asks, line_by, line_seen, line_of};
ghost use Rattle.converse.specs.Script.{word_line};
ghost use Rattle.converse.specs.Script.{text_line, number_line, bytes_line, took_line};
ghost use Rattle.converse.specs.Script.{deposit_line, clerk_command, secret_of_clerk, policy_line};
ghost use Rattle.converse.specs.Script.{command_of, maildrop_command, explain_command};
ghost use Rattle.converse.specs.Script.{is_skipped as is_line_skipped};
ghost use Rattle.converse.specs.declared.script.ScriptFault.TheVariants.{NoMemory};

use crate::check_policy::read_octets;
use crate::fault::Fault;
use crate::fields::{SPACE, cut_at, take_field, take_fields, unescape};
use creds::{Credential, DepositId, Name, Secret, pass_digest};
use office::{AdminCommand, read_number};
use policy::{Action, PolicyFault};
use std::alloc::{AllocError, AllocFailed, Global};

/// What one line of a script asks for. Connections go by their numbers. `Line` has no `Debug`,
/// since it may hold a password or mail.
#[derive(Drop)]
pub enum Line {
    /// `connect`: a connection is opened.
    Connect,
    /// `bytes C TEXT`: a connection's client sends a piece of any octets, also of none.
    Bytes(u64, Vec<u8>),
    /// `took C N`: a connection's client took N octets of what it is owed.
    Took(u64, usize),
    /// `drain C`: a connection's client takes all that it is owed.
    Drain(u64),
    /// `gone C`: a connection's client is gone.
    Gone(u64),
    /// `tick N`: the present moment is N seconds.
    Tick(u64),
    /// `restart N`: the office starts again under the number N.
    Restart(u64),
    /// `deposit MAILDROP CLASS ID TEXT`: a message of any octets, also none, is put into a
    /// maildrop.
    Deposit {
        /// The maildrop's name.
        maildrop: Name,
        /// The message's class.
        class: Name,
        /// The deposit's id.
        id: DepositId,
        /// The message's text.
        text: Vec<u8>,
    },
    /// `maildrops`, `maildrop`, `list`, `clerk`, `policy`, `sessions`, `end` or `explain`: an
    /// administrator asks for something.
    Admin(AdminCommand),
    /// `policy TEXT`, if TEXT is no policy: no event is done; the text's first fault is printed.
    NoPolicy(PolicyFault),
}

/// Why a text isn't a script.
#[derive(Clone, Copy, Debug)]
pub enum ScriptFault {
    /// The line of this number, from 1, is none of the forms of `Line`.
    BadEvent(u64),
    /// Memory ran out.
    NoMemory,
}

impl From<AllocError> for ScriptFault {
    ghost from_gives = { λ _ fault. fault ≡ NoMemory };

    fn from(_: AllocError) -> ScriptFault {
        ScriptFault::NoMemory
    }
}

impl<T: Drop> From<AllocFailed<T>> for ScriptFault {
    ghost from_gives = { λ _ fault. fault ≡ NoMemory };

    fn from(_: AllocFailed<T>) -> ScriptFault {
        ScriptFault::NoMemory
    }
}

/// Reads a whole script. Answers [`ScriptFault::BadEvent`] with the number of the first line that
/// is of no form.
pub fn read_script(alloc: Global, text: &[u8]) -> Result<Vec<Line>, ScriptFault>
    ensures ok { IfOk result (λ lines. script_of text.now ≡ Ok (map line_seen lines.items)) }
    ensures fault { (n : ℕ) → result ≡ Err (ScriptFault.BadEvent n) → script_of text.now ≡ Err n }
    ensures from_one { (n : ℕ) → result ≡ Err (ScriptFault.BadEvent n) → 0 < n }
    ensures within { (n : ℕ) → result ≡ Err (ScriptFault.BadEvent n) → n ≤ length text.now + 1 }
{
    let mut lines = Vec::new(alloc);
    let mut number = 0u64;
    let mut rest = Some(text);
    while let Some(left) = rest {
        let (line, behind) = cut_at(left, b'\n');
        number = number.saturating_add(1);
        read_into(alloc, &mut lines, line, number)?;
        rest = behind;
    }
    Ok(lines)
}

/// Reads the line of this number, and puts it after the lines before it. A line that is empty or
/// a comment is skipped.
fn read_into(
    alloc: Global,
    lines: &mut Vec<Line>,
    line: &[u8],
    number: u64,
) -> Result<(), ScriptFault>
    ensures ok { OnOk result (IsOkAnd (line_asks number line.now)
        (λ asked. map line_seen lines.new.items ≡ map line_seen lines.old.items ++ asked)) }
    ensures fault { (n : ℕ) → result ≡ Err (ScriptFault.BadEvent n) → (n ≡ number)
        × (line_asks number line.now ≡ Err n) }
{
    if is_skipped(line) {
        return Ok(());
    }
    match read_line(alloc, line)? {
        Ok(line) => {
            lines.push(line)?;
            Ok(())
        }
        Err(_) => Err(ScriptFault::BadEvent(number)),
    }
}

/// Whether a line is empty or a comment.
fn is_skipped(line: &[u8]) -> bool
    ensures { result ≡ is_line_skipped line.now }
{
    line.is_empty() || line.starts_with(b"#")
}

/// Reads a line without its LF, which isn't skipped. An inner `Err` says that it is of no form, and
/// which of its words is at fault: the first that isn't there, or else the first that hasn't its
/// form. Words are counted from 0, with one space between them; the last field of a form is all
/// that is left of the line. A word alone that is no event lacks the next one.
pub fn read_line(alloc: Global, line: &[u8]) -> Result<Result<Line, usize>, AllocError>
    ensures ok { IfOk result (λ read. IfOk read (λ asks. line_of line.now
        ≡ Some (line_seen asks))) }
    ensures fault { IfOk result (λ read. IfErr read (λ at. (line_of line.now ≡ None)
        × (place_of line.now ≡ at))) }
{
    let (keyword, rest) = cut_at(line, SPACE);
    read_parts(alloc, keyword, rest)
}

/// Reads a line by its keyword and what stands after that, if something does.
fn read_parts(
    alloc: Global,
    keyword: &[u8],
    rest: Option<&[u8]>,
) -> Result<Result<Line, usize>, AllocError>
    ensures { IfOk result (λ read. read_seen read
        ≡ ok_or (line_by (keyword.now, option_copied rest.entry))
        (place_by (keyword.now, option_copied rest.entry))) }
{
    match rest {
        Some(rest) => read_with_text(alloc, keyword, rest),
        None => Ok(read_word(keyword)),
    }
}

/// Reads a line that is a keyword alone.
fn read_word(keyword: &[u8]) -> Result<Line, usize>
    ensures { read_seen result ≡ ok_or (word_line keyword.now) 1 }
{
    if keyword == b"connect".as_slice() {
        Ok(Line::Connect)
    } else if keyword == b"maildrops".as_slice() {
        Ok(Line::Admin(AdminCommand::ListMaildrops))
    } else if keyword == b"clerks".as_slice() {
        Ok(Line::Admin(AdminCommand::ListClerks))
    } else if keyword == b"policy".as_slice() {
        Ok(Line::Admin(AdminCommand::ShowPolicy))
    } else if keyword == b"groups".as_slice() {
        Ok(Line::Admin(AdminCommand::ListGroups))
    } else if keyword == b"sessions".as_slice() {
        Ok(Line::Admin(AdminCommand::ListSessions))
    } else {
        Err(1)
    }
}

/// Reads a line by its keyword and what stands after that, which can end with a TEXT.
fn read_with_text(
    alloc: Global,
    keyword: &[u8],
    rest: &[u8],
) -> Result<Result<Line, usize>, AllocError>
    ensures { IfOk result (λ read. read_seen read
        ≡ ok_or (text_line keyword.now rest.now) (text_place keyword.now rest.now)) }
{
    if keyword == b"bytes".as_slice() {
        read_bytes(alloc, rest)
    } else if keyword == b"deposit".as_slice() {
        read_deposit(alloc, rest)
    } else if keyword == b"clerk".as_slice() {
        read_clerk(alloc, rest)
    } else if keyword == b"policy".as_slice() {
        read_policy(alloc, rest)
    } else {
        Ok(read_numbers(keyword, rest))
    }
}

/// Reads a line that has no TEXT.
fn read_numbers(keyword: &[u8], rest: &[u8]) -> Result<Line, usize>
    ensures { read_seen result
        ≡ ok_or (number_line keyword.now rest.now) (number_place keyword.now rest.now) }
{
    if keyword == b"took".as_slice() {
        read_took(rest)
    } else if keyword == b"drain".as_slice() {
        Ok(Line::Drain(read_number(rest).ok_or(1usize)?))
    } else if keyword == b"gone".as_slice() {
        Ok(Line::Gone(read_number(rest).ok_or(1usize)?))
    } else if keyword == b"tick".as_slice() {
        Ok(Line::Tick(read_number(rest).ok_or(1usize)?))
    } else if keyword == b"restart".as_slice() {
        Ok(Line::Restart(read_number(rest).ok_or(1usize)?))
    } else {
        read_command(keyword, rest)
    }
}

/// `C TEXT`, after `bytes`.
fn read_bytes(alloc: Global, rest: &[u8]) -> Result<Result<Line, usize>, AllocError>
    ensures { IfOk result (λ read. read_seen read
        ≡ ok_or (bytes_line rest.now) (number_first rest.now)) }
{
    let Some((number, text)) = take_field(rest) else {
        return Ok(Err(2));
    };
    let Some(number) = read_number(number) else {
        return Ok(Err(1));
    };
    let Some(octets) = unescape(alloc, text)? else {
        return Ok(Err(2));
    };
    Ok(Ok(Line::Bytes(number, octets)))
}

/// `C N`, after `took`.
fn read_took(rest: &[u8]) -> Result<Line, usize>
    ensures { read_seen result ≡ ok_or (took_line rest.now) (number_first rest.now) }
{
    let (number, count) = take_field(rest).ok_or(2usize)?;
    let number = read_number(number).ok_or(1usize)?;
    let count = read_number(count).ok_or(2usize)?;
    Ok(Line::Took(number, count as usize))
}

/// `MAILDROP CLASS ID TEXT`, after `deposit`.
fn read_deposit(alloc: Global, rest: &[u8]) -> Result<Result<Line, usize>, AllocError>
    ensures { IfOk result (λ read. read_seen read
        ≡ ok_or (deposit_line rest.now) (deposit_place rest.now)) }
{
    let (maildrop, class, id, text) = match take_fields(rest) {
        Ok(fields) => fields,
        Err(place) => return Ok(Err(place)),
    };
    let Some(maildrop) = Name::read(maildrop) else {
        return Ok(Err(1));
    };
    let Some(class) = Name::read(class) else {
        return Ok(Err(2));
    };
    let Some(id) = DepositId::read(id) else {
        return Ok(Err(3));
    };
    let Some(text) = unescape(alloc, text)? else {
        return Ok(Err(4));
    };
    Ok(Ok(Line::Deposit {
        maildrop,
        class,
        id,
        text,
    }))
}

/// `apop NAME TEXT`, `pass NAME TEXT`, `drop NAME` or `show NAME`, after `clerk`.
fn read_clerk(alloc: Global, rest: &[u8]) -> Result<Result<Line, usize>, AllocError>
    ensures { IfOk result (λ read. read_seen read
        ≡ ok_or (option_map (λ command. Does (Admin command)) (clerk_command rest.now))
        (clerk_place rest.now)) }
{
    let Some((word, rest)) = take_field(rest) else {
        return Ok(Err(2));
    };
    if word == b"apop".as_slice() {
        match read_secret(alloc, rest)? {
            Ok((clerk, secret)) => {
                Ok(Ok(Line::Admin(AdminCommand::PutClerk(clerk, Credential::Apop(secret)))))
            }
            Err(place) => Ok(Err(place)),
        }
    } else if word == b"pass".as_slice() {
        match read_secret(alloc, rest)? {
            Ok((clerk, password)) => {
                let digest = pass_digest(&clerk, password.as_bytes());
                Ok(Ok(Line::Admin(AdminCommand::PutClerk(clerk, Credential::Pass(digest)))))
            }
            Err(place) => Ok(Err(place)),
        }
    } else if word == b"drop".as_slice() {
        let Some(clerk) = Name::read(rest) else {
            return Ok(Err(2));
        };
        Ok(Ok(Line::Admin(AdminCommand::DropClerk(clerk))))
    } else if word == b"show".as_slice() {
        let Some(clerk) = Name::read(rest) else {
            return Ok(Err(2));
        };
        Ok(Ok(Line::Admin(AdminCommand::ShowClerk(clerk))))
    } else {
        Ok(Err(1))
    }
}

/// `NAME TEXT`, after `clerk apop` or `clerk pass`: a clerk's name, and a secret or a password.
fn read_secret(alloc: Global, rest: &[u8]) -> Result<Result<(Name, Secret), usize>, AllocError>
    ensures ok { IfOk result (λ read. IfOk read (λ pair. secret_of_clerk rest.now ≡ Some pair)) }
    ensures fault { IfOk result (λ read. IfErr read (λ at. (secret_of_clerk rest.now ≡ None)
        × (secret_place rest.now ≡ at))) }
{
    let Some((clerk, text)) = take_field(rest) else {
        return Ok(Err(3));
    };
    let Some(secret) = unescape(alloc, text)? else {
        return Ok(Err(3));
    };
    let Some(clerk) = Name::read(clerk) else {
        return Ok(Err(2));
    };
    let Some(secret) = Secret::read(secret.as_slice()) else {
        return Ok(Err(3));
    };
    Ok(Ok((clerk, secret)))
}

/// `TEXT`, after `policy`: a policy's text, or one with a fault.
fn read_policy(alloc: Global, text: &[u8]) -> Result<Result<Line, usize>, AllocError>
    ensures { IfOk result (λ read. read_seen read
        ≡ ok_or (option_map policy_line (unescaped text.now)) 1) }
{
    let Some(octets) = unescape(alloc, text)? else {
        return Ok(Err(1));
    };
    match read_octets(alloc, octets.as_slice()) {
        Ok(policy) => Ok(Ok(Line::Admin(AdminCommand::SetPolicy(policy)))),
        Err(Fault::NoPolicy(fault)) => Ok(Ok(Line::NoPolicy(fault))),
        Err(_) => Err(AllocError),
    }
}

/// A command whose line has no TEXT, by its keyword and what stands after that.
fn read_command(keyword: &[u8], rest: &[u8]) -> Result<Line, usize>
    ensures { read_seen result ≡ ok_or (option_map (λ command. Does (Admin command))
        (command_of keyword.now rest.now)) (command_place keyword.now rest.now) }
{
    if keyword == b"maildrop".as_slice() {
        read_maildrop(rest)
    } else if keyword == b"list".as_slice() {
        let maildrop = Name::read(rest).ok_or(1usize)?;
        Ok(Line::Admin(AdminCommand::ShowMaildrop(maildrop)))
    } else if keyword == b"end".as_slice() {
        let number = read_number(rest).ok_or(1usize)?;
        Ok(Line::Admin(AdminCommand::EndSession(number)))
    } else if keyword == b"explain".as_slice() {
        read_explain(rest)
    } else {
        Err(0)
    }
}

/// `add NAME` or `drop NAME`, after `maildrop`.
fn read_maildrop(rest: &[u8]) -> Result<Line, usize>
    ensures { read_seen result ≡ ok_or (option_map (λ command. Does (Admin command))
        (maildrop_command rest.now)) (maildrop_place rest.now) }
{
    let (word, name) = take_field(rest).ok_or(2usize)?;
    if word == b"add".as_slice() {
        let maildrop = Name::read(name).ok_or(2usize)?;
        Ok(Line::Admin(AdminCommand::AddMaildrop(maildrop)))
    } else if word == b"drop".as_slice() {
        let maildrop = Name::read(name).ok_or(2usize)?;
        Ok(Line::Admin(AdminCommand::DropMaildrop(maildrop)))
    } else {
        Err(1)
    }
}

/// `CLERK MAILDROP CLASS ACTION`, after `explain`.
fn read_explain(rest: &[u8]) -> Result<Line, usize>
    ensures { read_seen result ≡ ok_or (option_map (λ command. Does (Admin command))
        (explain_command rest.now)) (explain_place rest.now) }
{
    let (clerk, maildrop, class, action) = take_fields(rest)?;
    let clerk = Name::read(clerk).ok_or(1usize)?;
    let maildrop = Name::read(maildrop).ok_or(2usize)?;
    let class = Name::read(class).ok_or(3usize)?;
    let action = Action::read(action).ok_or(4usize)?;
    Ok(Line::Admin(AdminCommand::Explain {
        clerk,
        maildrop,
        class,
        action,
    }))
}
