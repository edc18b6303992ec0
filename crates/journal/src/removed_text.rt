//! The lines of what a QUIT removed.
ghost use Rattle.std.specs.Prelude.{◌≡◌, ◌++◌, take, drop, length, slice_get};
ghost use Rattle.std.specs.Prelude.{IfOk, OnOk, string_bytes};
ghost use Rattle.journal.specs.Lines.{comma_at, message_words, messages_text as messages_words};
ghost use Rattle.journal.specs.Lines.{most_on_a_line, removed_text, removed_by};

use super::account_text::name_text;
use office::{Account, Removal};
use session::{Removed, RemovedMessage};
use std::alloc::{AllocError, Global};

/// How many messages are on a line at most, so that it has fewer than 4,096 octets.
pub const MOST_ON_A_LINE: usize = 32;

/// How many messages the lines of an account have: as many as a QUIT removed.
pub fn count_removed(account: &Account) -> usize
    ensures { result ≡ length (removed_by account.now) }
{
    match account {
        Account::Quit(removal) if removal.is_done => removal.removed.len(),
        _ => 0,
    }
}

/// The message so many places after another.
fn message_at(removed: &Removed, from: usize, n: usize) -> Option<RemovedMessage>
    ensures { result ≡ slice_get (drop from removed.now) n }
{
    let place = from.saturating_add(n);
    if place >= removed.len() {
        return None;
    }
    removed.get(place)
}

/// What stands before the message at a place of a line: a comma, but before the first nothing.
fn comma_before(n: usize) -> &'static str
    ensures { result.now ≡ comma_at n }
{
    if n == 0 { "" } else { "," }
}

/// Appends the message at a place of a line, if there is one: its unique-id, and the rule that let
/// the clerk remove it.
fn put_message(
    alloc: Global,
    text: &mut String,
    n: usize,
    message: Option<RemovedMessage>,
) -> Result<(), AllocError>
    ensures { OnOk result (string_bytes text.new
        ≡ string_bytes text.old ++ message_words n message) }
{
    match message {
        None => Ok(()),
        Some(RemovedMessage { uid, rule }) => {
            let comma = comma_before(n);
            let more = format!(in alloc; "{comma}{uid}={rule}")?;
            text.push_str(more.as_str())?;
            Ok(())
        }
    }
}

/// The messages of a line, from a place on.
fn messages_text(alloc: Global, removed: &Removed, from: usize) -> Result<String, AllocError>
    ensures { IfOk result (λ text. string_bytes text
        ≡ messages_words (take most_on_a_line (drop from removed.now))) }
{
    let mut text = String::new(alloc);
    for n in 0..MOST_ON_A_LINE {
        put_message(alloc, &mut text, n, message_at(removed, from, n))?;
    }
    Ok(text)
}

/// The line of some of the messages that a QUIT removed on a connection: of those from a place on,
/// 32 at most.
pub fn removed_line(
    alloc: Global,
    connection: u64,
    removal: &Removal,
    from: usize,
) -> Result<String, AllocError>
    ensures { IfOk result (λ text. string_bytes text ≡ removed_text connection removal.now.name
        (take most_on_a_line (drop from removal.now.removed))) }
{
    let name = name_text(alloc, removal.name)?;
    let messages = messages_text(alloc, &removal.removed, from)?;
    let text = format!(in alloc; "event=removed connection={connection} {name} uids={messages}")?;
    Ok(text)
}
