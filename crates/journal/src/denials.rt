//! Which denials of a connection have a line in the log.
ghost use Rattle.std.specs.Prelude.{◌≡◌, ◌∷◌, ◌++◌, [], true, false, IfOk};
ghost use Rattle.journal.specs.Counts.{is_uid, is_command, is_of, is_same, is_among, gets_a_line};

use super::account_text::command_word;
use creds::{Name, Uid};
use office::MessageCommand;
use std::alloc::{AllocError, Global};

/// How many denials of a connection have a line at most.
pub const MOST_DENIALS: usize = 64;

/// A command that a rule denied for a message.
#[derive(Clone, Copy)]
pub(crate) struct Denial {
    pub command: MessageCommand,
    pub uid: Uid,
    pub rule: Name,
}

/// Whether two unique-ids are the same.
fn is_uid(a: &Uid, b: &Uid) -> bool
    ensures { result ≡ is_uid a.now b.now }
{
    a.class == b.class && a.k == b.k
}

/// Whether two commands are the same.
fn is_command(a: MessageCommand, b: MessageCommand) -> bool
    ensures { result ≡ is_command a b }
{
    command_word(a) == command_word(b)
}

/// Whether two denials are of the same message and rule.
fn is_of(a: &Denial, b: &Denial) -> bool
    ensures { result ≡ is_of a.now b.now }
{
    is_uid(&a.uid, &b.uid) && a.rule == b.rule
}

/// Whether two denials are of the same command, message and rule.
fn is_same(a: &Denial, b: &Denial) -> bool
    ensures { result ≡ is_same a.now b.now }
{
    is_command(a.command, b.command) && is_of(a, b)
}

/// The denials of a connection that have a line.
#[derive(Drop)]
pub(crate) struct Denials {
    told: Vec<Denial>,
}

impl Denials {
    /// No denial has a line.
    pub fn none(alloc: Global) -> Denials
        ensures { result.told.items ≡ [] }
    {
        Denials {
            told: Vec::new(alloc),
        }
    }

    /// Whether a denial has a line.
    fn has(&self, denial: &Denial) -> bool
        ensures { result ≡ is_among denial.now self.now.told.items }
    {
        self.told.iter().any(|told| is_same(told, denial))
    }

    /// Takes a denial. Whether it gets a line: no denial of the same command, message and rule has
    /// one, and fewer than 64 have one. Its error is want of memory.
    pub fn take(&mut self, denial: Denial) -> Result<bool, AllocError>
        ensures ok { IfOk result (λ told. told ≡ gets_a_line denial self.old.told.items) }
        ensures taken { IfOk result (λ told. told ≡ true
            → self.new.told.items ≡ self.old.told.items ++ denial ∷ []) }
        ensures kept { IfOk result (λ told. told ≡ false → self.new ≡ self.old) }
    {
        if self.told.len() >= MOST_DENIALS {
            return Ok(false);
        }
        if self.has(&denial) {
            return Ok(false);
        }
        self.told.push(denial)?;
        Ok(true)
    }
}
