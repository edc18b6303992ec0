//! The line of what the office judged.
ghost use Rattle.std.specs.Prelude.{◌≡◌, IfOk, Some, true, string_bytes};
ghost use Rattle.journal.specs.Lines.{name_text as name_words, way_text, verdict_text};
ghost use Rattle.journal.specs.Lines.{farewell_text, login_text as login_line, command_text};
ghost use Rattle.journal.specs.Lines.{retr_text as retr_line, denied_text as denied_line};
ghost use Rattle.journal.specs.Lines.{quit_text as quit_line, account_text, is_told};
ghost use Rattle.journal.specs.Lines.{cause_text as cause_words, refusal_text as refusal_words};

use creds::{LoginName, Name, Uid};
use office::{Account, End, MessageCommand, MessageRow, Removal, Verdict, Way};
use serving::Refusal;
use std::alloc::{AllocError, Global};

/// By which command a login came.
fn way_word(by: Way) -> &'static str
    ensures { result.now ≡ way_text by }
{
    match by {
        Way::Pass => "pass",
        Way::Apop => "apop",
    }
}

/// The values of a login name.
pub(crate) fn name_text(alloc: Global, name: LoginName) -> Result<String, AllocError>
    ensures { IfOk result (λ text. string_bytes text ≡ name_words name) }
{
    let text = format!(in alloc; "clerk={} maildrop={}", name.clerk, name.maildrop)?;
    Ok(text)
}

/// How a login was judged, as a line says it: by the reply's own words.
fn judged_text(alloc: Global, verdict: Verdict) -> Result<String, AllocError>
    ensures { IfOk result (λ text. string_bytes text ≡ verdict_text verdict) }
{
    match verdict {
        Verdict::Accepted(rule) => accepted_text(alloc, rule),
        Verdict::WrongCredential => {
            String::from_str(alloc, "answer=refused reason=\"login failed\"")
        }
        Verdict::ThirdWrongCredential => {
            String::from_str(alloc, "answer=refused reason=\"login failed, closing\"")
        }
        Verdict::Denied(rule) => denial_text(alloc, rule),
        Verdict::NoSuchMaildrop => {
            String::from_str(alloc, "answer=refused reason=\"no such maildrop\"")
        }
        Verdict::InUse => {
            String::from_str(
                alloc,
                "answer=refused reason=\"[IN-USE] maildrop is in use\"",
            )
        }
        Verdict::StoreFailed => {
            String::from_str(alloc, "answer=refused reason=\"store failed\"")
        }
    }
}

/// A login that was accepted, as a line says it: by which rule.
fn accepted_text(alloc: Global, rule: Name) -> Result<String, AllocError>
    ensures { IfOk result (λ text. string_bytes text ≡ verdict_text (Verdict.Accepted rule)) }
{
    let text = format!(in alloc; "answer=accepted rule={rule}")?;
    Ok(text)
}

/// A login that a rule denied, as a line says it.
fn denial_text(alloc: Global, rule: Name) -> Result<String, AllocError>
    ensures { IfOk result (λ text. string_bytes text ≡ verdict_text (Verdict.Denied rule)) }
{
    let text = format!(in alloc; "answer=refused reason=\"denied by rule {rule}\"")?;
    Ok(text)
}

/// The farewell of a session, as a line says it.
fn bye_text(alloc: Global, is_done: bool, denied: Option<Name>) -> Result<String, AllocError>
    ensures { IfOk result (λ text. string_bytes text ≡ farewell_text is_done denied) }
{
    if !is_done {
        return String::from_str(alloc, "answer=\"some deleted messages not removed\"");
    }
    match denied {
        None => String::from_str(alloc, "answer=\"bye\""),
        Some(rule) => kept_text(alloc, rule),
    }
}

/// The farewell if a rule kept a message.
fn kept_text(alloc: Global, rule: Name) -> Result<String, AllocError>
    ensures { IfOk result (λ text. string_bytes text ≡ farewell_text true (Some rule)) }
{
    let text = format!(in alloc;
        "answer=\"some deleted messages not removed, denied by rule {rule}\""
    )?;
    Ok(text)
}

/// The line of a login that was judged.
fn login_text(
    alloc: Global,
    who: &str,
    name: LoginName,
    by: Way,
    verdict: Verdict,
) -> Result<String, AllocError>
    ensures { IfOk result (λ text. string_bytes text ≡ login_line who.now name by verdict) }
{
    let name = name_text(alloc, name)?;
    let by = way_word(by);
    let judged = judged_text(alloc, verdict)?;
    let text = format!(in alloc; "event=login {who} {name} by={by} {judged}")?;
    Ok(text)
}

/// The line of a session's QUIT.
fn quit_text(alloc: Global, who: &str, removal: &Removal) -> Result<String, AllocError>
    ensures { IfOk result (λ text. string_bytes text ≡ quit_line who.now removal.now) }
{
    let name = name_text(alloc, removal.name)?;
    let marked = removal.marked;
    let bye = bye_text(alloc, removal.is_done, removal.denied)?;
    let text = format!(in alloc; "event=quit {who} {name} marked={marked} {bye}")?;
    Ok(text)
}

/// The line of a login that named nobody.
fn nameless_text(alloc: Global, who: &str) -> Result<String, AllocError>
    ensures { IfOk result (λ text. string_bytes text ≡ account_text who.now Account.NoName) }
{
    let text = format!(in alloc; "event=login {who} answer=refused reason=\"bad arguments\"")?;
    Ok(text)
}

/// The line of a QUIT before a login.
fn early_text(alloc: Global, who: &str) -> Result<String, AllocError>
    ensures { IfOk result (λ text. string_bytes text ≡ account_text who.now
        Account.QuitBeforeLogin) }
{
    let text = format!(in alloc; "event=quit {who} answer=\"bye\"")?;
    Ok(text)
}

/// A command that names a message.
pub fn command_word(command: MessageCommand) -> &'static str
    ensures { result.now ≡ command_text command }
{
    match command {
        MessageCommand::Dele => "dele",
        MessageCommand::Retr => "retr",
        MessageCommand::Top => "top",
    }
}

/// The line of a message that a RETR began to send, by which rule.
fn retr_text(
    alloc: Global,
    who: &str,
    message: MessageRow,
    rule: Name,
) -> Result<String, AllocError>
    ensures { IfOk result (λ text. string_bytes text ≡ retr_line who.now message rule) }
{
    let MessageRow { uid, octets } = message;
    let text = format!(in alloc; "event=retr {who} uid={uid} octets={octets} rule={rule}")?;
    Ok(text)
}

/// The line of a command that a rule denied for a message.
fn denied_text(
    alloc: Global,
    who: &str,
    command: MessageCommand,
    uid: Uid,
    rule: Name,
) -> Result<String, AllocError>
    ensures { IfOk result (λ text. string_bytes text ≡ denied_line who.now command uid rule) }
{
    let command = command_word(command);
    let text = format!(in alloc; "event=denied {who} command={command} uid={uid} rule={rule}")?;
    Ok(text)
}

/// Whether an account may have a line: that of a RETR has one if `reads` says that each RETR is to
/// have one.
pub fn has_line(account: &Account, reads: bool) -> bool
    ensures { result ≡ is_told reads account.now }
{
    match account {
        Account::Login(_, _, _) | Account::NoName | Account::Denied(_, _, _) => true,
        Account::Quit(_) | Account::QuitBeforeLogin => true,
        Account::Retrieved(_, _) => reads,
        Account::Nothing | Account::Marked | Account::Unmarked | Account::Ended(_) => false,
        Account::Topped(_, _) | Account::Taken => false,
    }
}

/// An account's line, after the connection and the client's address; without text for one that has
/// none.
pub fn line_of(alloc: Global, who: &str, account: &Account) -> Result<String, AllocError>
    ensures { IfOk result (λ text. string_bytes text ≡ account_text who.now account.now) }
{
    match account {
        Account::Login(name, by, verdict) => login_text(alloc, who, *name, *by, *verdict),
        Account::NoName => nameless_text(alloc, who),
        Account::Quit(removal) => quit_text(alloc, who, removal),
        Account::QuitBeforeLogin => early_text(alloc, who),
        Account::Retrieved(message, rule) => retr_text(alloc, who, *message, *rule),
        Account::Denied(command, uid, rule) => denied_text(alloc, who, *command, *uid, *rule),
        Account::Nothing | Account::Marked | Account::Unmarked | Account::Ended(_) => {
            Ok(String::new(alloc))
        }
        Account::Topped(_, _) | Account::Taken => Ok(String::new(alloc)),
    }
}

/// Why a connection ended, as the line of its end says it; without text for an account that
/// doesn't say so.
pub fn cause_text(account: &Account) -> &'static str
    ensures { result.now ≡ cause_words account.now }
{
    match account {
        Account::Ended(End::Gone) => " cause=gone",
        Account::Ended(End::NoMemory) => " cause=\"out of memory\"",
        Account::Ended(End::NoMemoryForLine) => " cause=\"out of memory\"",
        Account::Ended(End::StoreFailed) => " cause=\"store failed\"",
        Account::Ended(End::SessionEnded) => " cause=\"session ended\"",
        Account::Ended(End::Idle) => " cause=idle",
        Account::Ended(End::TooLate) => " cause=\"too late to log in\"",
        Account::Ended(End::FullHouse) => " cause=\"no login while all places were taken\"",
        Account::Login(_, _, Verdict::ThirdWrongCredential) => " cause=\"login failed, closing\"",
        Account::Login(_, _, Verdict::Accepted(_) | Verdict::WrongCredential) => "",
        Account::Login(_, _, Verdict::Denied(_) | Verdict::NoSuchMaildrop) => "",
        Account::Login(_, _, Verdict::InUse | Verdict::StoreFailed) => "",
        Account::NoName | Account::Quit(_) | Account::QuitBeforeLogin => "",
        Account::Nothing | Account::Marked | Account::Unmarked | Account::Taken => "",
        Account::Retrieved(_, _) | Account::Topped(_, _) | Account::Denied(_, _, _) => "",
    }
}

/// Why a link was refused for its first line, as the line of its end says it.
pub fn refusal_text(refusal: Refusal) -> &'static str
    ensures { result.now ≡ refusal_words refusal }
{
    match refusal {
        Refusal::NoLine => " cause=\"no PROXY line\"",
        Refusal::TooLate => " cause=\"no PROXY line in time\"",
        Refusal::NoMemory => " cause=\"out of memory\"",
    }
}
