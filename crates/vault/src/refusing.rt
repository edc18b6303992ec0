//! A vault that refuses one of its calls, to test the layers above a vault.
ghost use Rattle.std.specs.Prelude.{◌≡◌, ◌-◌, Ok, if◌then◌else◌};
ghost use Rattle.vault.specs.Changes.{Contents};
ghost use Rattle.vault.specs.Call.{Looks, Commits};
ghost use Rattle.vault.specs.Calls.{seen_as, IsAnswer, IsDeposited, AreHeads, IsPaged, AreRemoved};
ghost use Rattle.vault.specs.Calls.{IsCredential, IsClerkPut, IsClerkDropped, IsMaildropAdded};
ghost use Rattle.vault.specs.Calls.{IsMaildropDropped, IsPrepared, AreTotals, IsPolicy};
ghost use Rattle.vault.specs.Calls.{IsPolicySet};
ghost use Rattle.vault.specs.Clerks.{AreClerkKinds};
ghost use Rattle.vault.specs.Refusals.{refusing_call, is_next, one_more, faults_of, over, IsInTurn};

use crate::answer::{ClerkKind, Deposited, Head, Progress, Total};
use crate::fault::VaultFault;
use crate::message_key::MessageKey;
use crate::vault::Vault;
use creds::{Credential, DepositId, Name};
use mailtext::MailText;
use policy::Policy;
use std::marker::Model;

/// Counts down to the refused call.
#[derive(Clone, Copy)]
struct Countdown {
    /// How many calls are to come, the refused one counted; 0 if none will be refused.
    to_come: u64,
    /// How many calls were refused. The count stops at 2^64 - 1.
    refusals: u64,
}

impl Countdown {
    /// Counts a call. Returns whether it is the one to refuse.
    fn is_due(&mut self) -> bool
        ensures due { result ≡ is_next self.old.to_come }
        ensures to_come { self.new.to_come ≡ self.old.to_come - 1 }
        ensures refusals { self.new.refusals
            ≡ (if is_next self.old.to_come then one_more self.old.refusals else self.old.refusals) }
    {
        let is_due = self.to_come == 1;
        self.to_come = self.to_come.saturating_sub(1);
        if is_due {
            self.refusals = self.refusals.saturating_add(1);
        }
        is_due
    }
}

/// Refuses one call: that call answers [`VaultFault::Store`], counts as a fault and changes
/// nothing. All others go to the vault inside. Contracts see that vault, how many calls are to come
/// up to the refused one, and how many were refused.
#[derive(Drop)]
pub struct Refusing<V: Vault> {
    vault: V,
    countdown: Countdown,
}

impl<V: Vault> Model for Refusing<V> {
    ghost use Rattle.vault.specs.Refusals.{Refusals};

    ghost Value = { Refusals V };

    ghost view = { λ r. record {
      vault = r.vault;
      to_come = r.countdown.to_come;
      refusals = r.countdown.refusals;
    } };
}

impl<V: Vault> Refusing<V> {
    /// Refuses call number `n`, counted from 1 over all calls; 0 refuses none.
    pub fn new(vault: V, n: u64) -> Refusing<V>
        ensures { result ≡ refusing_call vault n }
    {
        Refusing {
            vault,
            countdown: Countdown {
                to_come: n,
                refusals: 0,
            },
        }
    }

    /// How many calls were refused. The vault inside never saw them.
    pub fn refusals(&self) -> u64
        ensures { result ≡ self.now.refusals }
    {
        self.countdown.refusals
    }
}

/// Every call but the refused one goes to the vault inside.
impl<V: Vault> Vault for Refusing<V> {
    ghost holds = { λ r. V.holds r.vault };

    ghost faults = { faults_of V.faults };

    ghost is_clean = { λ r. V.is_clean r.vault };

    ghost is_up = { λ r. V.is_up r.vault };

    ghost may_leave = { λ r. V.may_leave r.vault };

    ghost sound = { λ r. V.sound r.vault };

    ghost settled = { λ r. V.settled r.vault };

    fn deposit(
        &mut self,
        maildrop: &Name,
        class: &Name,
        id: &DepositId,
        text: &MailText,
    ) -> Result<Deposited, VaultFault>
        ensures done { (c : Contents) → V.holds self.old.vault c → V.is_clean self.new.vault
            → IsDeposited (V.holds self.new.vault) c maildrop.now class.now id.now text.now result }
        ensures commits { Commits (over V.holds) (faults_of V.faults) (over V.is_clean)
            (over V.is_up) (over V.may_leave) self.old self.new
            (λ c Held. IsDeposited Held c maildrop.now class.now id.now text.now) result }
        ensures turn { IsInTurn V.faults self.old self.new result }
    {
        if self.countdown.is_due() {
            return Err(VaultFault::Store);
        }
        self.vault.deposit(maildrop, class, id, text)
    }

    fn heads(&mut self, maildrop: &Name) -> Result<Vec<Head>, VaultFault>
        ensures done { (c : Contents) → V.holds self.old.vault c → V.is_clean self.new.vault
            → AreHeads (V.holds self.new.vault) c maildrop.now (seen_as result (λ v. v.items)) }
        ensures looks { Looks (over V.holds) (faults_of V.faults) (over V.is_clean)
            (over V.is_up) (over V.may_leave) self.old self.new result }
        ensures turn { IsInTurn V.faults self.old self.new result }
    {
        if self.countdown.is_due() {
            return Err(VaultFault::Store);
        }
        self.vault.heads(maildrop)
    }

    fn page(&mut self, key: MessageKey, from: u64, buffer: &mut [u8]) -> Result<usize, VaultFault>
        ensures done { (c : Contents) → V.holds self.old.vault c → V.is_clean self.new.vault
            → IsPaged (V.holds self.new.vault) c key from buffer.new result }
        ensures looks { Looks (over V.holds) (faults_of V.faults) (over V.is_clean)
            (over V.is_up) (over V.may_leave) self.old self.new result }
        ensures turn { IsInTurn V.faults self.old self.new result }
    {
        if self.countdown.is_due() {
            return Err(VaultFault::Store);
        }
        self.vault.page(key, from, buffer)
    }

    fn remove(&mut self, maildrop: &Name, keys: &[MessageKey]) -> Result<(), VaultFault>
        ensures done { (c : Contents) → V.holds self.old.vault c → V.is_clean self.new.vault
            → AreRemoved (V.holds self.new.vault) c maildrop.now keys.now result }
        ensures commits { Commits (over V.holds) (faults_of V.faults) (over V.is_clean)
            (over V.is_up) (over V.may_leave) self.old self.new
            (λ c Held. AreRemoved Held c maildrop.now keys.now) result }
        ensures turn { IsInTurn V.faults self.old self.new result }
    {
        if self.countdown.is_due() {
            return Err(VaultFault::Store);
        }
        self.vault.remove(maildrop, keys)
    }

    fn prepare_removal(
        &mut self,
        maildrop: &Name,
        keys: &[MessageKey],
    ) -> Result<Progress, VaultFault>
        ensures answer { IsPrepared result }
        ensures looks { Looks (over V.holds) (faults_of V.faults) (over V.is_clean)
            (over V.is_up) (over V.may_leave) self.old self.new result }
        ensures turn { IsInTurn V.faults self.old self.new result }
    {
        if self.countdown.is_due() {
            return Err(VaultFault::Store);
        }
        self.vault.prepare_removal(maildrop, keys)
    }

    fn prepare_deposit(
        &mut self,
        maildrop: &Name,
        class: &Name,
        id: &DepositId,
        text: &MailText,
    ) -> Result<Progress, VaultFault>
        ensures answer { IsPrepared result }
        ensures looks { Looks (over V.holds) (faults_of V.faults) (over V.is_clean)
            (over V.is_up) (over V.may_leave) self.old self.new result }
        ensures turn { IsInTurn V.faults self.old self.new result }
    {
        if self.countdown.is_due() {
            return Err(VaultFault::Store);
        }
        self.vault.prepare_deposit(maildrop, class, id, text)
    }

    fn maildrops(&mut self) -> Result<Vec<Total>, VaultFault>
        ensures done { (c : Contents) → V.holds self.old.vault c → V.is_clean self.new.vault
            → AreTotals (V.holds self.new.vault) c (seen_as result (λ v. v.items)) }
        ensures looks { Looks (over V.holds) (faults_of V.faults) (over V.is_clean)
            (over V.is_up) (over V.may_leave) self.old self.new result }
        ensures turn { IsInTurn V.faults self.old self.new result }
    {
        if self.countdown.is_due() {
            return Err(VaultFault::Store);
        }
        self.vault.maildrops()
    }

    fn credential(&mut self, clerk: &Name) -> Result<Option<Credential>, VaultFault>
        ensures done { (c : Contents) → V.holds self.old.vault c → V.is_clean self.new.vault
            → IsCredential (V.holds self.new.vault) c clerk.now result }
        ensures looks { Looks (over V.holds) (faults_of V.faults) (over V.is_clean)
            (over V.is_up) (over V.may_leave) self.old self.new result }
        ensures turn { IsInTurn V.faults self.old self.new result }
    {
        if self.countdown.is_due() {
            return Err(VaultFault::Store);
        }
        self.vault.credential(clerk)
    }

    fn clerks(&mut self) -> Result<Vec<ClerkKind>, VaultFault>
        ensures done { (c : Contents) → V.holds self.old.vault c → V.is_clean self.new.vault
            → AreClerkKinds (V.holds self.new.vault) c (seen_as result (λ v. v.items)) }
        ensures looks { Looks (over V.holds) (faults_of V.faults) (over V.is_clean)
            (over V.is_up) (over V.may_leave) self.old self.new result }
        ensures turn { IsInTurn V.faults self.old self.new result }
    {
        if self.countdown.is_due() {
            return Err(VaultFault::Store);
        }
        self.vault.clerks()
    }

    fn put_clerk(&mut self, clerk: &Name, credential: &Credential) -> Result<bool, VaultFault>
        ensures done { (c : Contents) → V.holds self.old.vault c → V.is_clean self.new.vault
            → IsClerkPut (V.holds self.new.vault) c clerk.now credential.now result }
        ensures commits { Commits (over V.holds) (faults_of V.faults) (over V.is_clean)
            (over V.is_up) (over V.may_leave) self.old self.new
            (λ c Held. IsClerkPut Held c clerk.now credential.now) result }
        ensures turn { IsInTurn V.faults self.old self.new result }
    {
        if self.countdown.is_due() {
            return Err(VaultFault::Store);
        }
        self.vault.put_clerk(clerk, credential)
    }

    fn drop_clerk(&mut self, clerk: &Name) -> Result<(), VaultFault>
        ensures done { (c : Contents) → V.holds self.old.vault c → V.is_clean self.new.vault
            → IsClerkDropped (V.holds self.new.vault) c clerk.now result }
        ensures commits { Commits (over V.holds) (faults_of V.faults) (over V.is_clean)
            (over V.is_up) (over V.may_leave) self.old self.new
            (λ c Held. IsClerkDropped Held c clerk.now) result }
        ensures turn { IsInTurn V.faults self.old self.new result }
    {
        if self.countdown.is_due() {
            return Err(VaultFault::Store);
        }
        self.vault.drop_clerk(clerk)
    }

    fn add_maildrop(&mut self, maildrop: &Name) -> Result<bool, VaultFault>
        ensures done { (c : Contents) → V.holds self.old.vault c → V.is_clean self.new.vault
            → IsMaildropAdded (V.holds self.new.vault) c maildrop.now result }
        ensures commits { Commits (over V.holds) (faults_of V.faults) (over V.is_clean)
            (over V.is_up) (over V.may_leave) self.old self.new
            (λ c Held. IsMaildropAdded Held c maildrop.now) result }
        ensures turn { IsInTurn V.faults self.old self.new result }
    {
        if self.countdown.is_due() {
            return Err(VaultFault::Store);
        }
        self.vault.add_maildrop(maildrop)
    }

    fn drop_maildrop(&mut self, maildrop: &Name) -> Result<(), VaultFault>
        ensures done { (c : Contents) → V.holds self.old.vault c → V.is_clean self.new.vault
            → IsMaildropDropped (V.holds self.new.vault) c maildrop.now result }
        ensures commits { Commits (over V.holds) (faults_of V.faults) (over V.is_clean)
            (over V.is_up) (over V.may_leave) self.old self.new
            (λ c Held. IsMaildropDropped Held c maildrop.now) result }
        ensures turn { IsInTurn V.faults self.old self.new result }
    {
        if self.countdown.is_due() {
            return Err(VaultFault::Store);
        }
        self.vault.drop_maildrop(maildrop)
    }

    fn policy(&mut self) -> Result<Policy, VaultFault>
        ensures done { (c : Contents) → V.holds self.old.vault c → V.is_clean self.new.vault
            → IsPolicy (V.holds self.new.vault) c result }
        ensures looks { Looks (over V.holds) (faults_of V.faults) (over V.is_clean)
            (over V.is_up) (over V.may_leave) self.old self.new result }
        ensures turn { IsInTurn V.faults self.old self.new result }
    {
        if self.countdown.is_due() {
            return Err(VaultFault::Store);
        }
        self.vault.policy()
    }

    fn set_policy(&mut self, policy: &Policy) -> Result<(), VaultFault>
        ensures done { (c : Contents) → V.holds self.old.vault c → V.is_clean self.new.vault
            → IsPolicySet (V.holds self.new.vault) c policy.now result }
        ensures commits { Commits (over V.holds) (faults_of V.faults) (over V.is_clean)
            (over V.is_up) (over V.may_leave) self.old self.new
            (λ c Held. IsPolicySet Held c policy.now) result }
        ensures turn { IsInTurn V.faults self.old self.new result }
    {
        if self.countdown.is_due() {
            return Err(VaultFault::Store);
        }
        self.vault.set_policy(policy)
    }

    fn maintain(&mut self) -> Result<(), VaultFault>
        ensures answer { IsAnswer (Ok tt) result }
        ensures looks { Looks (over V.holds) (faults_of V.faults) (over V.is_clean)
            (over V.is_up) (over V.may_leave) self.old self.new result }
        ensures turn { IsInTurn V.faults self.old self.new result }
    {
        if self.countdown.is_due() {
            return Err(VaultFault::Store);
        }
        self.vault.maintain()
    }
}
