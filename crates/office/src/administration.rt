//! What an administrator asks for.
ghost use Rattle.std.specs.Prelude.{◌≡◌, ◌⊎◌, true, length, map, IfOk};
ghost use Rattle.creds.specs.Names.{is_name};
ghost use Rattle.vault.specs.Records.{is_sound_credential};
ghost use Rattle.vault.specs.Calls.{seen_as};
ghost use Rattle.office.specs.Events as event;
ghost use Rattle.office.specs.Events.{Trace};
ghost use Rattle.office.specs.Log.{access_in};
ghost use Rattle.office.specs.Stands.{StandsFor};
ghost use Rattle.office.specs.Answers as asked;
ghost use Rattle.office.specs.Seen.{outcome_seen, command_seen, row_seen};
ghost use Rattle.office.specs.Outcomes as outcomes;
ghost use Rattle.office.specs.AfterEvent.{AfterEvent};
ghost use Rattle.office.specs.VaultAnswers as by_vault;

use crate::deposits::refused;
use crate::{
    AdminAccess, AdminCommand, Answer, Clerks, MessageRow, Messages, Office, Outcome, Totals,
};
use creds::{Credential, Name, Uid};
use policy::Action;
use std::alloc::{AllocError, Global};
use vault::{ClerkKind, Head, Total, Vault, VaultFault};

/// A fact for the proofs: each name has its form. The body does nothing.
fn name_has_form(name: &Name)
    ensures { is_name name.now ≡ true }
{
    let _ = name.as_bytes();
}

/// A fact for the proofs: a digest has 32 octets.
fn is_whole(digest: [u8; 32])
    ensures { length digest ≡ 32 }
{
    let _ = digest;
}

/// A fact for the proofs: each credential has its form.
fn credential_has_form(credential: &Credential)
    ensures { is_sound_credential credential.now ≡ true }
{
    match credential {
        Credential::Apop(secret) => {
            let _ = secret.as_bytes();
        }
        Credential::Pass(digest) => is_whole(*digest),
    }
}

/// The answer to a list of the maildrops, by the vault's answer.
fn listed(answered: Result<Vec<Total>, VaultFault>) -> Outcome
    ensures { outcome_seen result ≡ by_vault.listed (seen_as answered (λ v. v.items)) }
{
    match answered {
        Ok(totals) => Outcome::Answered(Answer::Maildrops(Totals::new(totals))),
        Err(fault) => refused(fault),
    }
}

/// A message's unique-id and octets, as its head has them.
fn row_of(head: &Head) -> MessageRow
    ensures { row_seen result ≡ by_vault.row_of_head head.now }
{
    MessageRow {
        uid: Uid {
            class: head.class,
            k: head.k,
        },
        octets: head.octets,
    }
}

/// The same of each message.
fn rows_of(alloc: Global, heads: &[Head]) -> Result<Vec<MessageRow>, AllocError>
    ensures { IfOk result (λ rows. map row_seen rows.items ≡ map by_vault.row_of_head heads.now) }
{
    let mut rows = Vec::with_capacity(alloc, heads.len())?;
    for head in heads {
        rows.push(row_of(head))?;
    }
    Ok(rows)
}

/// The answer to a look at a maildrop, by the vault's answer; or want of memory.
fn maildrop_shown(alloc: Global, answered: Result<Vec<Head>, VaultFault>) -> Outcome
    ensures { (outcome_seen result ≡ by_vault.maildrop_shown (seen_as answered (λ v. v.items)))
        ⊎ (outcome_seen result ≡ outcomes.NoMemory) }
{
    match answered {
        Ok(heads) => match rows_of(alloc, &heads) {
            Ok(rows) => Outcome::Answered(Answer::Messages(Messages::new(rows))),
            Err(_) => Outcome::NoMemory,
        },
        Err(VaultFault::NoMaildrop) => Outcome::Answered(Answer::NoSuchMaildrop),
        Err(fault) => refused(fault),
    }
}

/// The answer to the adding of a maildrop, by the vault's answer.
fn added(answered: Result<bool, VaultFault>) -> Outcome
    ensures { outcome_seen result ≡ by_vault.put asked.WasThere answered }
{
    match answered {
        Ok(true) => Outcome::Answered(Answer::Added),
        Ok(false) => Outcome::Answered(Answer::WasThere),
        Err(VaultFault::Full) => Outcome::Answered(Answer::Full),
        Err(fault) => refused(fault),
    }
}

/// The answer to the dropping of a maildrop, by the vault's answer.
fn maildrop_dropped(answered: Result<(), VaultFault>) -> Outcome
    ensures { outcome_seen result ≡ by_vault.maildrop_dropped answered }
{
    match answered {
        Ok(()) => Outcome::Answered(Answer::Dropped),
        Err(VaultFault::NoMaildrop) => Outcome::Answered(Answer::NoSuchMaildrop),
        Err(VaultFault::NotEmpty) => Outcome::Answered(Answer::NotEmpty),
        Err(fault) => refused(fault),
    }
}

/// The answer to a list of the clerks, by the vault's answer.
fn clerks_listed(answered: Result<Vec<ClerkKind>, VaultFault>) -> Outcome
    ensures { outcome_seen result ≡ by_vault.clerks_listed (seen_as answered (λ v. v.items)) }
{
    match answered {
        Ok(rows) => Outcome::Answered(Answer::Clerks(Clerks::new(rows))),
        Err(fault) => refused(fault),
    }
}

/// The answer to a look at a clerk, by the vault's answer.
fn credential_told(answered: Result<Option<Credential>, VaultFault>) -> Outcome
    ensures { outcome_seen result ≡ by_vault.credential_told answered }
{
    match answered {
        Ok(None) => Outcome::Answered(Answer::NoSuchClerk),
        Ok(Some(Credential::Apop(_))) => Outcome::Answered(Answer::ByApopSecret),
        Ok(Some(Credential::Pass(_))) => Outcome::Answered(Answer::ByPassword),
        Err(fault) => refused(fault),
    }
}

/// The answer to the putting of a clerk, by the vault's answer.
fn clerk_put(answered: Result<bool, VaultFault>) -> Outcome
    ensures { outcome_seen result ≡ by_vault.put asked.Replaced answered }
{
    match answered {
        Ok(true) => Outcome::Answered(Answer::Added),
        Ok(false) => Outcome::Answered(Answer::Replaced),
        Err(VaultFault::Full) => Outcome::Answered(Answer::Full),
        Err(fault) => refused(fault),
    }
}

/// The answer to the dropping of a clerk, by the vault's answer.
fn clerk_dropped(answered: Result<(), VaultFault>) -> Outcome
    ensures { outcome_seen result ≡ by_vault.clerk_dropped answered }
{
    match answered {
        Ok(()) => Outcome::Answered(Answer::Dropped),
        Err(VaultFault::NoClerk) => Outcome::Answered(Answer::NoSuchClerk),
        Err(fault) => refused(fault),
    }
}

impl<V: Vault> Office<V> {
    /// Which requests of its administration it was opened to answer. The reader of the requests
    /// asks for it: [`Office::step`] answers each command.
    pub fn admin_access(&self) -> AdminAccess
        ensures { (T : Trace) → StandsFor V.holds self.now T → result ≡ access_in T.log }
    {
        self.limits.access()
    }

    /// Each maildrop, with the number of its messages and their octets.
    fn list_maildrops(&mut self) -> Outcome
        ensures { AfterEvent V.Vault self.old self.new (event.Admin asked.ListMaildrops)
            (outcome_seen result) }
    {
        listed(self.vault.maildrops())
    }

    /// A maildrop's messages.
    fn show_maildrop(&mut self, maildrop: &Name) -> Outcome
        ensures { AfterEvent V.Vault self.old self.new
            (event.Admin (asked.ShowMaildrop maildrop.now)) (outcome_seen result) }
    {
        maildrop_shown(self.alloc, self.vault.heads(maildrop))
    }

    /// Adds a maildrop.
    fn add_maildrop(&mut self, maildrop: &Name) -> Outcome
        ensures { AfterEvent V.Vault self.old self.new
            (event.Admin (asked.AddMaildrop maildrop.now)) (outcome_seen result) }
    {
        name_has_form(maildrop);
        added(self.vault.add_maildrop(maildrop))
    }

    /// Drops an empty maildrop that no session holds.
    fn drop_maildrop(&mut self, maildrop: &Name) -> Outcome
        ensures { AfterEvent V.Vault self.old self.new
            (event.Admin (asked.DropMaildrop maildrop.now)) (outcome_seen result) }
    {
        if self.locks.contains_key(maildrop) {
            return Outcome::Answered(Answer::MaildropInUse);
        }
        maildrop_dropped(self.vault.drop_maildrop(maildrop))
    }

    /// Each clerk, with the kind of the credential.
    fn list_clerks(&mut self) -> Outcome
        ensures { AfterEvent V.Vault self.old self.new (event.Admin asked.ListClerks)
            (outcome_seen result) }
    {
        clerks_listed(self.vault.clerks())
    }

    /// Which kind of credential a clerk has.
    fn show_clerk(&mut self, clerk: &Name) -> Outcome
        ensures { AfterEvent V.Vault self.old self.new (event.Admin (asked.ShowClerk clerk.now))
            (outcome_seen result) }
    {
        credential_told(self.vault.credential(clerk))
    }

    /// Puts a clerk's credential.
    fn put_clerk(&mut self, clerk: &Name, credential: &Credential) -> Outcome
        ensures { AfterEvent V.Vault self.old self.new
            (event.Admin (asked.PutClerk clerk.now credential.now)) (outcome_seen result) }
    {
        name_has_form(clerk);
        credential_has_form(credential);
        let put = self.vault.put_clerk(clerk, credential);
        clerk_put(put)
    }

    /// Drops a clerk.
    fn drop_clerk(&mut self, clerk: &Name) -> Outcome
        ensures { AfterEvent V.Vault self.old self.new (event.Admin (asked.DropClerk clerk.now))
            (outcome_seen result) }
    {
        clerk_dropped(self.vault.drop_clerk(clerk))
    }

    /// Whether the policy in force lets a clerk do this, and by which rule.
    fn explain(&mut self, clerk: &Name, maildrop: &Name, class: &Name, action: Action) -> Outcome
        ensures { AfterEvent V.Vault self.old self.new
            (event.Admin (asked.Explain clerk.now maildrop.now class.now action))
            (outcome_seen result) }
    {
        let decision = self.policy.decide(clerk, maildrop, class, action);
        Outcome::Answered(Answer::Explained(decision))
    }

    /// Does an administrator's command, and answers it.
    pub(crate) fn administer(&mut self, command: &AdminCommand) -> Outcome
        ensures { AfterEvent V.Vault self.old self.new (event.Admin (command_seen command.now))
            (outcome_seen result) }
    {
        match command {
            AdminCommand::ListMaildrops => self.list_maildrops(),
            AdminCommand::ShowMaildrop(maildrop) => self.show_maildrop(maildrop),
            AdminCommand::AddMaildrop(maildrop) => self.add_maildrop(maildrop),
            AdminCommand::DropMaildrop(maildrop) => self.drop_maildrop(maildrop),
            AdminCommand::ListClerks => self.list_clerks(),
            AdminCommand::ShowClerk(clerk) => self.show_clerk(clerk),
            AdminCommand::PutClerk(clerk, credential) => self.put_clerk(clerk, credential),
            AdminCommand::DropClerk(clerk) => self.drop_clerk(clerk),
            AdminCommand::ShowPolicy => self.show_policy(),
            AdminCommand::SetPolicy(policy) => self.set_policy(policy),
            AdminCommand::ListGroups => self.list_groups(),
            AdminCommand::ListSessions => self.list_sessions(),
            AdminCommand::EndSession(c) => self.end_session(*c),
            AdminCommand::Explain {
                clerk,
                maildrop,
                class,
                action,
            } => self.explain(clerk, maildrop, class, *action),
        }
    }
}
