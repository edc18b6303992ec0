//! A vault that keeps the heads of maildrops that were asked for, and the totals of all.
ghost use Rattle.std.specs.Prelude.{◌≡◌};
ghost use Rattle.recent.specs.Recalling.{nothing_kept, HoldsFitting};

use crate::kept::{AllKept, after_change, after_drop, after_look, after_mail};
use crate::totals::{Totals, count_kept, recalled_totals};
use creds::{Credential, DepositId, Name};
use mailtext::MailText;
use policy::Policy;
use std::alloc::Global;
use std::marker::Model;
use vault::{ClerkKind, Deposited, Head, MessageKey, Progress, Total, Vault, VaultFault};

/// A vault around another one, which keeps the heads of the maildrops that were asked for, and the
/// totals of all maildrops, and answers the same question again from them. A fault forgets them,
/// and so does every call that may change records, but for deposits, removals and drops of a
/// maildrop: those forget the heads of their maildrop alone. A deposit or a removal keeps the
/// totals, but marks that maildrop's total stale; the next `maildrops` recounts it. A deposit that
/// is refused with `NoMaildrop`, `Conflict` or `Full` forgets nothing.
///
/// At most 10,000 heads are kept in all, and 1,000 totals. If there is no room for the heads of one
/// more maildrop, those of the maildrops that were asked for longest ago go. If there is no memory
/// for what is to be kept, it isn't kept, and the vault inside answers.
///
/// Contracts see the vault inside and what is kept. It holds what the vault inside holds and what
/// is kept fits.
#[derive(Drop)]
pub struct Recent<V: Vault> {
    vault: V,
    kept: AllKept,
    totals: Option<Totals>,
    alloc: Global,
}

impl<V: Vault> Model for Recent<V> {
    ghost use Rattle.recent.specs.Recalling.{Recalling};

    ghost Value = { Recalling V };

    ghost view = { λ r. record { vault = r.vault; kept = r.kept; totals = r.totals } };
}

impl<V: Vault> Recent<V> {
    /// A vault around this one, which keeps nothing yet. It takes no memory.
    pub fn new(alloc: Global, vault: V) -> Recent<V>
        ensures { result ≡ nothing_kept vault }
    {
        Recent {
            vault,
            kept: AllKept::new(alloc),
            totals: None,
            alloc,
        }
    }

    /// The vault inside.
    pub fn into_vault(self) -> V
        ensures { result ≡ self.vault }
    {
        let Recent {
            vault,
            kept: _,
            totals: _,
            alloc: _,
        } = self;
        vault
    }
}

/// Each call as in the vault inside, but that heads and totals that are kept are answered without
/// it.
impl<V: Vault> Vault for Recent<V> {
    ghost holds = { λ r. HoldsFitting (V.holds r.vault) r.kept r.totals };

    ghost faults = { λ r. V.faults r.vault };

    ghost is_clean = { λ r. V.is_clean r.vault };

    ghost is_up = { λ r. V.is_up r.vault };

    ghost may_leave = { λ r. V.may_leave r.vault };

    ghost sound = { λ r c held clean. V.sound r.vault c held.inside clean };

    ghost settled = { λ r c clean up held. V.settled r.vault c clean up held.inside };

    fn deposit(
        &mut self,
        maildrop: &Name,
        class: &Name,
        id: &DepositId,
        text: &MailText,
    ) -> Result<Deposited, VaultFault> {
        let deposited = self.vault.deposit(maildrop, class, id, text);
        after_mail(&mut self.kept, &mut self.totals, maildrop, deposited)
    }

    fn heads(&mut self, maildrop: &Name) -> Result<Vec<Head>, VaultFault> {
        if let Some(heads) = self.kept.recall(self.alloc, maildrop) {
            return Ok(heads);
        }
        match self.vault.heads(maildrop) {
            Ok(heads) => {
                self.kept.keep(self.alloc, maildrop, heads.as_slice());
                Ok(heads)
            }
            Err(fault) => after_change(&mut self.kept, &mut self.totals, Err(fault)),
        }
    }

    fn page(&mut self, key: MessageKey, from: u64, buffer: &mut [u8]) -> Result<usize, VaultFault> {
        let read = self.vault.page(key, from, buffer);
        after_look(&mut self.kept, &mut self.totals, read)
    }

    fn remove(&mut self, maildrop: &Name, keys: &[MessageKey]) -> Result<(), VaultFault> {
        let removed = self.vault.remove(maildrop, keys);
        after_mail(&mut self.kept, &mut self.totals, maildrop, removed)
    }

    fn prepare_removal(
        &mut self,
        maildrop: &Name,
        keys: &[MessageKey],
    ) -> Result<Progress, VaultFault> {
        let prepared = self.vault.prepare_removal(maildrop, keys);
        after_look(&mut self.kept, &mut self.totals, prepared)
    }

    fn prepare_deposit(
        &mut self,
        maildrop: &Name,
        class: &Name,
        id: &DepositId,
        text: &MailText,
    ) -> Result<Progress, VaultFault> {
        let part = self.vault.prepare_deposit(maildrop, class, id, text);
        after_look(&mut self.kept, &mut self.totals, part)
    }

    fn maildrops(&mut self) -> Result<Vec<Total>, VaultFault> {
        match count_kept(&mut self.vault, &mut self.totals) {
            Ok(()) => {}
            Err(fault) => return after_change(&mut self.kept, &mut self.totals, Err(fault)),
        }
        if let Some(totals) = recalled_totals(self.alloc, &self.totals) {
            return Ok(totals);
        }
        self.totals = None;
        match self.vault.maildrops() {
            Ok(totals) => {
                self.totals = Totals::of(self.alloc, totals.as_slice());
                Ok(totals)
            }
            Err(fault) => after_change(&mut self.kept, &mut self.totals, Err(fault)),
        }
    }

    fn credential(&mut self, clerk: &Name) -> Result<Option<Credential>, VaultFault> {
        let found = self.vault.credential(clerk);
        after_look(&mut self.kept, &mut self.totals, found)
    }

    fn clerks(&mut self) -> Result<Vec<ClerkKind>, VaultFault> {
        let listed = self.vault.clerks();
        after_look(&mut self.kept, &mut self.totals, listed)
    }

    fn put_clerk(&mut self, clerk: &Name, credential: &Credential) -> Result<bool, VaultFault> {
        let put = self.vault.put_clerk(clerk, credential);
        after_change(&mut self.kept, &mut self.totals, put)
    }

    fn drop_clerk(&mut self, clerk: &Name) -> Result<(), VaultFault> {
        let dropped = self.vault.drop_clerk(clerk);
        after_change(&mut self.kept, &mut self.totals, dropped)
    }

    fn add_maildrop(&mut self, maildrop: &Name) -> Result<bool, VaultFault> {
        let added = self.vault.add_maildrop(maildrop);
        after_change(&mut self.kept, &mut self.totals, added)
    }

    fn drop_maildrop(&mut self, maildrop: &Name) -> Result<(), VaultFault> {
        let gone = self.vault.drop_maildrop(maildrop);
        after_drop(&mut self.kept, &mut self.totals, maildrop, gone)
    }

    fn policy(&mut self) -> Result<Policy, VaultFault> {
        after_look(&mut self.kept, &mut self.totals, self.vault.policy())
    }

    fn set_policy(&mut self, policy: &Policy) -> Result<(), VaultFault> {
        let set = self.vault.set_policy(policy);
        after_change(&mut self.kept, &mut self.totals, set)
    }

    fn maintain(&mut self) -> Result<(), VaultFault> {
        let maintained = self.vault.maintain();
        after_look(&mut self.kept, &mut self.totals, maintained)
    }
}
