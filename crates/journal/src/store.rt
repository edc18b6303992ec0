//! A vault whose deposits, removals and refusals are noted.
ghost use Rattle.std.specs.Prelude.{◌≡◌, []};

use super::journal::{Journal, Told};
use super::message_ids::message_id;
use creds::{Credential, DepositId, Name};
use mailtext::MailText;
use policy::Policy;
use std::alloc::{AllocError, Global};
use vault::{ClerkKind, Deposited, Head, MessageKey, Progress, Total, Vault, VaultFault};

/// A vault that does what the one inside does, and notes each deposit and removal with its answer,
/// and each refusal of the store or of memory with its cause.
#[derive(Drop)]
pub struct LoggedVault<'a, V: Vault> {
    pub vault: V,
    pub journal: Journal<'a>,
    pub told: Told,
    /// Whether a deposit's line has the Message-ID.
    pub message_ids: bool,
}

/// Whether a fault says that the store or memory refused, and isn't an answer to the call.
fn is_refusal(fault: VaultFault) -> bool {
    matches!(
        fault,
        VaultFault::Store | VaultFault::NoMemory | VaultFault::NotOurs | VaultFault::OldVersion
    )
}

/// The line of a refusal.
fn refusal(alloc: Global, call: &str, fault: VaultFault) -> Result<String, AllocError> {
    format!(in alloc; "event=refused call={call} cause=\"{fault}\"")
}

/// Hands an answer on, and notes a refusal.
fn told<T>(
    journal: &Journal<'_>,
    call: &str,
    answer: Result<T, VaultFault>,
) -> Result<T, VaultFault>
    ensures { result ≡ answer }
{
    match answer {
        Ok(value) => Ok(value),
        Err(fault) => {
            if journal.is_on() && is_refusal(fault) {
                journal.note(refusal(journal.alloc(), call, fault));
            }
            Err(fault)
        }
    }
}

/// What became of a deposit.
fn answer_text(
    answer: &Result<Deposited, VaultFault>,
    alloc: Global,
) -> Result<String, AllocError> {
    match answer {
        Ok(Deposited::New(uid)) => format!(in alloc; "answer=new uid={uid}"),
        Ok(Deposited::Known(uid)) => format!(in alloc; "answer=known uid={uid}"),
        Err(fault) => format!(in alloc; "answer=\"{fault}\""),
    }
}

/// The Message-ID of a mail, as a value of a line; empty if its head doesn't have it plainly.
fn message_id_text(alloc: Global, text: &MailText) -> Result<String, AllocError> {
    match message_id(text.top(0)) {
        Some(id) => match str::from_utf8(id) {
            Ok(id) => format!(in alloc; " message-id={id}"),
            Err(_) => Ok(String::new(alloc)),
        },
        None => Ok(String::new(alloc)),
    }
}

/// The line of a deposit, by the file that it came in.
fn deposit_text(
    alloc: Global,
    maildrop: &Name,
    class: &Name,
    id: &DepositId,
    message_id: Result<String, AllocError>,
    answer: &Result<Deposited, VaultFault>,
) -> Result<String, AllocError> {
    let answer = answer_text(answer, alloc)?;
    let message_id = message_id?;
    format!(in alloc; "event=deposit file={maildrop}.{class}.{id}.eml {answer}{message_id}")
}

/// The line of a removal, by a session in the maildrop.
fn removal_text(
    alloc: Global,
    session: &str,
    maildrop: &Name,
    messages: usize,
    answer: &Result<(), VaultFault>,
) -> Result<String, AllocError> {
    match answer {
        Ok(()) => format!(in alloc;
            "event=remove{session} maildrop={maildrop} messages={messages} answer=done"
        ),
        Err(fault) => format!(in alloc;
            "event=remove{session} maildrop={maildrop} messages={messages} answer=\"{fault}\""
        ),
    }
}

/// Whether a deposit's answer may come each second again, as long as its file stays in the spool.
fn comes_again(answer: &Result<Deposited, VaultFault>) -> bool {
    !matches!(answer, Ok(Deposited::New(_)) | Err(VaultFault::Conflict))
}

/// Notes a deposit. An answer that may come each second again is written once.
fn note_deposit(
    journal: Journal<'_>,
    told: &mut Told,
    maildrop: &Name,
    class: &Name,
    id: &DepositId,
    message_id: Result<String, AllocError>,
    answer: &Result<Deposited, VaultFault>,
) {
    if !journal.is_on() {
        return;
    }
    let text = deposit_text(journal.alloc(), maildrop, class, id, message_id, answer);
    if comes_again(answer) {
        told.note_once(&journal, text);
    } else {
        journal.note(text);
    }
}

/// Notes a removal, with who asked for it.
fn note_removal(
    journal: Journal<'_>,
    maildrop: &Name,
    messages: usize,
    answer: &Result<(), VaultFault>,
) {
    if !journal.is_on() {
        return;
    }
    let session = journal
        .holder(maildrop)
        .unwrap_or(String::new(journal.alloc()));
    let text = removal_text(
        journal.alloc(),
        session.as_str(),
        maildrop,
        messages,
        answer,
    );
    journal.note(text);
}

/// Keeps the name of a policy that is in force, if the store gave it.
fn keep_policy(journal: &Journal<'_>, answer: &Result<Policy, VaultFault>) {
    if let Ok(policy) = answer {
        journal.keep_policy(policy);
    }
}

/// Keeps the name of a policy that was set, if the store has done so.
fn keep_set_policy(journal: &Journal<'_>, policy: &Policy, answer: &Result<(), VaultFault>) {
    if let Ok(()) = answer {
        journal.keep_policy(policy);
    }
}

impl<'a, V: Vault> LoggedVault<'a, V> {
    /// A vault around this one. `message_ids`: a deposit's line tells the Message-ID.
    pub fn new(vault: V, journal: Journal<'a>, message_ids: bool) -> LoggedVault<'a, V>
        ensures vault { result.vault ≡ vault }
        ensures journal { result.journal ≡ journal.exit }
        ensures told { result.told.lines.items ≡ [] }
        ensures message_ids { result.message_ids ≡ message_ids }
    {
        LoggedVault {
            vault,
            journal,
            told: Told::new(journal.alloc()),
            message_ids,
        }
    }

    /// The Message-ID of a mail, as a value of its deposit's line; empty if it isn't logged.
    fn message_id_text(&self, text: &MailText) -> Result<String, AllocError> {
        let alloc = self.journal.alloc();
        if !self.message_ids || !self.journal.is_on() {
            return Ok(String::new(alloc));
        }
        message_id_text(alloc, text)
    }

    /// The vault inside.
    pub fn into_vault(self) -> V
        ensures { result ≡ self.entry.vault }
    {
        let LoggedVault {
            vault,
            journal: _,
            told: _,
            message_ids: _,
        } = self;
        vault
    }
}

/// Each call as in the vault inside.
impl<V: Vault> Vault for LoggedVault<'_, V> {
    ghost holds = { λ r. V.holds r.vault };

    ghost faults = { λ r. V.faults r.vault };

    ghost is_clean = { λ r. V.is_clean r.vault };

    ghost is_up = { λ r. V.is_up r.vault };

    ghost may_leave = { λ r. V.may_leave r.vault };

    ghost sound = { λ r. V.sound r.vault };

    ghost settled = { λ r. V.settled r.vault };

    fn deposit(
        &mut self,
        maildrop: &Name,
        class: &Name,
        id: &DepositId,
        text: &MailText,
    ) -> Result<Deposited, VaultFault> {
        let answer = self.vault.deposit(maildrop, class, id, text);
        let message_id = self.message_id_text(text);
        let told = &mut self.told;
        note_deposit(self.journal, told, maildrop, class, id, message_id, &answer);
        answer
    }

    fn remove(&mut self, maildrop: &Name, keys: &[MessageKey]) -> Result<(), VaultFault> {
        let answer = self.vault.remove(maildrop, keys);
        note_removal(self.journal, maildrop, keys.len(), &answer);
        answer
    }

    fn prepare_removal(
        &mut self,
        maildrop: &Name,
        keys: &[MessageKey],
    ) -> Result<Progress, VaultFault> {
        let answer = self.vault.prepare_removal(maildrop, keys);
        told(&self.journal, "prepare_removal", answer)
    }

    fn prepare_deposit(
        &mut self,
        maildrop: &Name,
        class: &Name,
        id: &DepositId,
        text: &MailText,
    ) -> Result<Progress, VaultFault> {
        let answer = self.vault.prepare_deposit(maildrop, class, id, text);
        told(&self.journal, "prepare_deposit", answer)
    }

    fn page(&mut self, key: MessageKey, from: u64, buffer: &mut [u8]) -> Result<usize, VaultFault> {
        let answer = self.vault.page(key, from, buffer);
        told(&self.journal, "page", answer)
    }

    fn heads(&mut self, maildrop: &Name) -> Result<Vec<Head>, VaultFault> {
        let answer = self.vault.heads(maildrop);
        told(&self.journal, "heads", answer)
    }

    fn maildrops(&mut self) -> Result<Vec<Total>, VaultFault> {
        let answer = self.vault.maildrops();
        told(&self.journal, "maildrops", answer)
    }

    fn credential(&mut self, clerk: &Name) -> Result<Option<Credential>, VaultFault> {
        let answer = self.vault.credential(clerk);
        told(&self.journal, "credential", answer)
    }

    fn clerks(&mut self) -> Result<Vec<ClerkKind>, VaultFault> {
        let answer = self.vault.clerks();
        told(&self.journal, "clerks", answer)
    }

    fn put_clerk(&mut self, clerk: &Name, credential: &Credential) -> Result<bool, VaultFault> {
        let answer = self.vault.put_clerk(clerk, credential);
        told(&self.journal, "put_clerk", answer)
    }

    fn drop_clerk(&mut self, clerk: &Name) -> Result<(), VaultFault> {
        let answer = self.vault.drop_clerk(clerk);
        told(&self.journal, "drop_clerk", answer)
    }

    fn add_maildrop(&mut self, maildrop: &Name) -> Result<bool, VaultFault> {
        let answer = self.vault.add_maildrop(maildrop);
        told(&self.journal, "add_maildrop", answer)
    }

    fn drop_maildrop(&mut self, maildrop: &Name) -> Result<(), VaultFault> {
        let answer = self.vault.drop_maildrop(maildrop);
        told(&self.journal, "drop_maildrop", answer)
    }

    fn policy(&mut self) -> Result<Policy, VaultFault> {
        let answer = self.vault.policy();
        keep_policy(&self.journal, &answer);
        told(&self.journal, "policy", answer)
    }

    fn set_policy(&mut self, policy: &Policy) -> Result<(), VaultFault> {
        let answer = self.vault.set_policy(policy);
        keep_set_policy(&self.journal, policy, &answer);
        told(&self.journal, "set_policy", answer)
    }

    fn maintain(&mut self) -> Result<(), VaultFault> {
        let answer = self.vault.maintain();
        told(&self.journal, "maintain", answer)
    }
}
