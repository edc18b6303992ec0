//! A mail store in memory.
ghost use Rattle.std.specs.Prelude.{◌≡◌, ◌≢◌, true, Ok, is_ok};
ghost use Rattle.std.proofs.Common.{◌∙◌, sym};
ghost use Rattle.vault.specs.Stops.{says_same};
ghost use Rattle.vault.specs.Plain.{HoldsKept, LooksKept, CommitsKept, no_contents};
ghost use Rattle.vault.specs.Calls.{IsAnswer, IsPaged, AreRemoved, IsCredential, IsClerkDropped};
ghost use Rattle.vault.specs.Calls.{IsMaildropDropped, IsPrepared};
ghost use Rattle.vault.specs.declared.answer.Progress.TheVariants.{Ready};
ghost use Rattle.vault.specs.Changes.{Contents};

use crate::answer::{ClerkKind, Deposited, Head, Progress, Total};
use crate::clerks::{credential_of, drop_credential, has_form, list_clerks, put_credential};
use crate::deposits::{accept, ask, judge};
use crate::fault::VaultFault;
use crate::lists::{drop_name, put_name, totals_of};
use crate::mail::{heads_of, read_page, remove_named};
use crate::message_key::MessageKey;
use crate::record::{Clerk, Keyed, Receipt};
use crate::vault::Vault;
use creds::{Credential, DepositId, Name};
use mailtext::MailText;
use policy::Policy;
use std::alloc::Global;
use std::marker::Model;

/// A mail store in vectors, which ends with the process. It is always clean, and its count of
/// faults stays 0. Contracts see its contents. It stands on no device, so its contracts know of no
/// stop.
#[derive(Drop)]
pub struct PlainVault {
    alloc: Global,
    clerks: Vec<Clerk>,
    maildrops: Vec<Name>,
    messages: Vec<Keyed>,
    deposits: Vec<Receipt>,
    policy: Policy,
}

impl Model for PlainVault {
    ghost use Rattle.vault.specs.Changes.{Contents};

    ghost Value = { Contents };

    ghost view = { λ v. record {
      clerks = v.clerks.items;
      maildrops = v.maildrops.items;
      messages = v.messages.items;
      deposits = v.deposits.items;
      policy = v.policy;
    } };
}

impl PlainVault {
    /// An empty store, with a policy without rules. It takes no memory.
    pub fn new(alloc: Global) -> PlainVault
        ensures { HoldsKept result no_contents }
    {
        PlainVault {
            alloc,
            clerks: Vec::new(alloc),
            maildrops: Vec::new(alloc),
            messages: Vec::new(alloc),
            deposits: Vec::new(alloc),
            policy: Policy::new(alloc),
        }
    }
}

impl Vault for PlainVault {
    ghost holds = { HoldsKept };

    ghost faults = { λ _. 0 };

    ghost is_clean = { λ _. Unit {0} };

    ghost is_up = { λ _. Unit {0} };

    ghost may_leave = { λ vault left. left ≡ vault };

    ghost sound = { λ vault c held clean. held.sound };

    ghost settled = { λ vault c clean up held left same. says_same left c (same ∙ sym held.same) };

    fn deposit(
        &mut self,
        maildrop: &Name,
        class: &Name,
        id: &DepositId,
        text: &MailText,
    ) -> Result<Deposited, VaultFault> {
        let asked = ask(maildrop, class, id, text);
        match judge(&self.maildrops, &self.messages, &self.deposits, &asked)? {
            Deposited::Known(uid) => Ok(Deposited::Known(uid)),
            Deposited::New(uid) => {
                accept(
                    self.alloc,
                    &mut self.messages,
                    &mut self.deposits,
                    &asked,
                    uid.k,
                    text,
                )?;
                Ok(Deposited::New(uid))
            }
        }
    }

    fn heads(&mut self, maildrop: &Name) -> Result<Vec<Head>, VaultFault> {
        heads_of(self.alloc, &self.maildrops, &self.messages, maildrop)
    }

    /// It is never refused: it takes no memory.
    fn page(&mut self, key: MessageKey, from: u64, buffer: &mut [u8]) -> Result<usize, VaultFault>
        ensures done { (c : Contents) → HoldsKept self.old c → Unit {0}
            → IsPaged (HoldsKept self.new) c key from buffer.new result }
        ensures looks { LooksKept self.old self.new result }
        ensures succeeds { is_ok result ≡ true }
    {
        Ok(read_page(&self.messages, key, from, buffer))
    }

    /// It is never refused: it takes no memory.
    fn remove(&mut self, maildrop: &Name, keys: &[MessageKey]) -> Result<(), VaultFault>
        ensures done { (c : Contents) → HoldsKept self.old c → Unit {0}
            → AreRemoved (HoldsKept self.new) c maildrop.now keys.now result }
        ensures commits { CommitsKept self.old self.new
            (λ c Held. AreRemoved Held c maildrop.now keys.now) result }
        ensures succeeds { is_ok result ≡ true }
    {
        remove_named(&mut self.messages, maildrop, keys);
        Ok(())
    }

    /// There is nothing to prepare.
    fn prepare_removal(
        &mut self,
        _maildrop: &Name,
        _keys: &[MessageKey],
    ) -> Result<Progress, VaultFault>
        ensures answer { IsPrepared result }
        ensures looks { LooksKept self.old self.new result }
        ensures ready { result ≡ Ok Ready }
    {
        Ok(Progress::Ready)
    }

    /// There is nothing to prepare.
    fn prepare_deposit(
        &mut self,
        _maildrop: &Name,
        _class: &Name,
        _id: &DepositId,
        _text: &MailText,
    ) -> Result<Progress, VaultFault>
        ensures answer { IsPrepared result }
        ensures looks { LooksKept self.old self.new result }
        ensures ready { result ≡ Ok Ready }
    {
        Ok(Progress::Ready)
    }

    fn maildrops(&mut self) -> Result<Vec<Total>, VaultFault> {
        totals_of(self.alloc, &self.maildrops, &self.messages)
    }

    /// It is never refused: it takes no memory.
    fn credential(&mut self, clerk: &Name) -> Result<Option<Credential>, VaultFault>
        ensures done { (c : Contents) → HoldsKept self.old c → Unit {0}
            → IsCredential (HoldsKept self.new) c clerk.now result }
        ensures looks { LooksKept self.old self.new result }
        ensures succeeds { is_ok result ≡ true }
    {
        Ok(credential_of(&self.clerks, clerk))
    }

    fn clerks(&mut self) -> Result<Vec<ClerkKind>, VaultFault> {
        list_clerks(self.alloc, &self.clerks)
    }

    fn put_clerk(&mut self, clerk: &Name, credential: &Credential) -> Result<bool, VaultFault> {
        has_form(credential);
        put_credential(&mut self.clerks, clerk, credential)
    }

    /// It takes no memory.
    fn drop_clerk(&mut self, clerk: &Name) -> Result<(), VaultFault>
        ensures done { (c : Contents) → HoldsKept self.old c → Unit {0}
            → IsClerkDropped (HoldsKept self.new) c clerk.now result }
        ensures commits { CommitsKept self.old self.new
            (λ c Held. IsClerkDropped Held c clerk.now) result }
        ensures has_memory { result ≢ Err VaultFault.NoMemory }
    {
        drop_credential(&mut self.clerks, clerk)
    }

    fn add_maildrop(&mut self, maildrop: &Name) -> Result<bool, VaultFault> {
        put_name(&mut self.maildrops, maildrop)
    }

    /// It takes no memory.
    fn drop_maildrop(&mut self, maildrop: &Name) -> Result<(), VaultFault>
        ensures done { (c : Contents) → HoldsKept self.old c → Unit {0}
            → IsMaildropDropped (HoldsKept self.new) c maildrop.now result }
        ensures commits { CommitsKept self.old self.new
            (λ c Held. IsMaildropDropped Held c maildrop.now) result }
        ensures has_memory { result ≢ Err VaultFault.NoMemory }
    {
        drop_name(&mut self.maildrops, &self.messages, maildrop)
    }

    fn policy(&mut self) -> Result<Policy, VaultFault> {
        Ok(self.policy.try_copy()?)
    }

    fn set_policy(&mut self, policy: &Policy) -> Result<(), VaultFault> {
        // For the proof: a policy is sound.
        let _ = policy.rules();
        self.policy = policy.try_copy()?;
        Ok(())
    }

    /// It is never refused: nothing was put off.
    fn maintain(&mut self) -> Result<(), VaultFault>
        ensures answer { IsAnswer (Ok tt) result }
        ensures looks { LooksKept self.old self.new result }
        ensures succeeds { is_ok result ≡ true }
    {
        Ok(())
    }
}
