//! A vault over tables that does removals and deposits in parts.
ghost use Rattle.std.specs.Prelude.{◌≡◌, None, Ok};
ghost use Rattle.vault.specs.Call.{Looks};
ghost use Rattle.vault.specs.Calls.{IsAnswer};
ghost use Rattle.sqlvault.specs.UnderWay.{nothing_prepared, holds_in, faults_in, clean_in, up_in};
ghost use Rattle.sqlvault.specs.UnderWay.{leave_in};

use crate::coming::{self, Coming};
use crate::removal::{PIECE, Removing};
use crate::sql_vault::SqlVault;
use crate::work::Work;
use creds::{Credential, DepositId, Name};
use mailtext::MailText;
use policy::Policy;
use sqlite::Alter;
use std::marker::Model;
use std::mem;
use vault::{ClerkKind, Deposited, Head, MessageKey, Progress, Total, Vault, VaultFault};

/// After this many pieces of work were given up in a row, the next one is done at once.
const MOST_GIVEN_UP: u8 = 3;

/// The give-up counter after work of this size was done whole: long work resets it; short work, of
/// one piece at most, leaves it, since it is never prepared.
fn given_up_after(size: usize, piece: usize, given_up: u8) -> u8 {
    if size > piece { 0 } else { given_up }
}

/// A vault over tables that does a long removal, or the deposit of a long text, in parts, if it is
/// asked to prepare it: a piece each time that it is asked, in one transaction, which the removal
/// or deposit itself then finishes. Beside it, it answers [`Vault::credential`], [`Vault::page`] of
/// a message that isn't removed or deposited, and [`Vault::heads`] of another maildrop, inside that
/// transaction. Any other call gives the work up before it does its own. After three that were
/// given up, none is prepared until one was done.
///
/// Contracts see the vault inside and the work that is under way.
#[derive(Drop)]
pub struct Ahead<S: Alter> {
    vault: SqlVault<S>,
    work: Option<Work>,
    given_up: u8,
}

impl<S: Alter> Model for Ahead<S> {
    ghost use Rattle.sqlvault.specs.UnderWay.{Prepared, prepared_code};

    ghost Value = { Prepared S };

    ghost coded = { prepared_code S.code };

    ghost view = { λ a. record { vault = a.vault; under_way = a.work } };
}

impl<S: Alter> Ahead<S> {
    ghost use Rattle.std.specs.Prelude.{◌≤◌, Some, IfSome, IfNone, IsTrue, false};
    ghost use Rattle.std.specs.Prelude.{length, take};
    ghost use Rattle.sqlite.specs.Held.{state};
    ghost use Rattle.sqlite.specs.State.{HasCleanDisk};
    ghost use Rattle.vault.specs.Changes.{Contents};
    ghost use Rattle.vault.specs.Calls.{IsPrepared, CountsFaults};
    ghost use Rattle.vault.specs.Stops.{IsOwn};
    ghost use Rattle.sqlvault.specs.Stands.{Holds};
    ghost use Rattle.sqlvault.specs.declared.work.Work.{Work};
    ghost use Rattle.sqlvault.specs.declared.work.Work.TheVariants as works;
    ghost use Rattle.sqlvault.specs.Removals.{Removal};
    ghost use Rattle.sqlvault.specs.UnderWay.{Prepares, EndsBeside, SparesKey};
    ghost use Rattle.sqlvault.specs.UnderWay.{SparesMaildrop};

    /// A vault around this one, in which nothing is under way. It takes no memory.
    pub fn new(vault: SqlVault<S>) -> Ahead<S>
        ensures { result ≡ nothing_prepared vault }
    {
        Ahead {
            vault,
            work: None,
            given_up: 0,
        }
    }

    /// Gives up the work that is under way, if any is.
    fn give_up(&mut self) -> Result<(), VaultFault>
        ensures looks { Looks (holds_in S.Store) faults_in (clean_in S.Store) (up_in S.Store)
            (leave_in S.Store) self.old self.new result }
        ensures none { self.new.under_way ≡ None }
        ensures answer { IsAnswer (Ok tt) result }
    {
        match self.work.take() {
            None => Ok(()),
            Some(gone) => {
                mem::drop(gone);
                self.given_up = self.given_up.saturating_add(1);
                self.vault.give_up()
            }
        }
    }

    /// The vault inside. Work that is under way is given up.
    pub fn into_vault(self) -> SqlVault<S>
        ensures held { (c : Contents) → holds_in S.Store self c
            → HasCleanDisk (state S.Store result.conn) → Holds (state S.Store result.conn) c }
        ensures clean { HasCleanDisk (state S.Store result.conn) → clean_in S.Store self }
        ensures counted { faults_in self ≤ result.faults }
    {
        let mut ahead = self;
        let _ = ahead.give_up();
        let Ahead {
            vault,
            work: _,
            given_up: _,
        } = ahead;
        vault
    }

    /// Whether work is under way that doesn't touch this maildrop.
    fn is_beside(&self, maildrop: &Name) -> bool
        ensures { IsTrue result → (w : Work) × (self.now.under_way ≡ Some w)
            × SparesMaildrop w maildrop.now }
    {
        match &self.work {
            None => false,
            Some(Work::Removal(removing)) => !removing.is_in(maildrop),
            Some(Work::Deposit(coming)) => !coming.is_in(maildrop),
        }
    }

    /// Whether work is under way that doesn't touch this message.
    fn spares(&self, key: MessageKey) -> bool
        ensures { IsTrue result → (w : Work) × (self.now.under_way ≡ Some w) × SparesKey w key }
    {
        match &self.work {
            None => false,
            Some(Work::Removal(removing)) => !removing.names(key),
            Some(Work::Deposit(coming)) => !coming.has_key(key),
        }
    }

    /// Whether work is under way.
    fn is_at_work(&self) -> bool
        ensures { IsTrue result → (w : Work) × (self.now.under_way ≡ Some w) }
    {
        match &self.work {
            None => false,
            Some(Work::Removal(_removing)) => true,
            Some(Work::Deposit(_coming)) => true,
        }
    }

    /// Gives up the work that is under way after a query inside its transaction was answered by
    /// a fault. Answers that fault, or the one that giving it up met.
    fn end_beside(&mut self, fault: VaultFault) -> VaultFault
        ensures { EndsBeside S.Store self.old self.new fault result }
    {
        let gone = self.work.take();
        mem::drop(gone);
        self.given_up = self.given_up.saturating_add(1);
        match self.vault.give_up() {
            Ok(()) => {}
            Err(other) => return other,
        }
        fault
    }

    /// Takes out the removal that is under way, if it is that of these messages.
    fn take_removal(&mut self, maildrop: &Name, keys: &[MessageKey]) -> Option<Removing>
        ensures same { self.new.vault ≡ self.old.vault }
        ensures none { IfNone result (self.new ≡ self.old) }
        ensures taken { IfSome result (λ r. (self.old.under_way ≡ Some (works.Removal r))
            × (self.new.under_way ≡ None) × (r.maildrop ≡ maildrop.now) × (r.keys ≡ keys.now)) }
    {
        match self.work.take() {
            Some(Work::Removal(begun)) => {
                if begun.is_of(maildrop, keys) {
                    return Some(begun);
                }
                self.work = Some(Work::Removal(begun));
                None
            }
            Some(Work::Deposit(coming)) => {
                self.work = Some(Work::Deposit(coming));
                None
            }
            None => None,
        }
    }

    /// Does some more of a removal that was taken out, and puts it back.
    fn go_on(&mut self, removing: Removing) -> Result<Progress, VaultFault>
        ensures prepares { self.old.under_way ≡ None → Prepares S.Store self.old.vault.conn
            self.new.vault.conn (Some (works.Removal removing)) self.new.under_way (IsOwn result) }
        ensures counted { CountsFaults self.old.vault.faults self.new.vault.faults result }
        ensures answer { IsPrepared result }
    {
        let mut removing = removing;
        match self.vault.remove_piece(&mut removing) {
            Ok(()) => {}
            Err(fault) => {
                self.given_up = self.given_up.saturating_add(1);
                return Err(fault);
            }
        }
        let progress = if removing.is_done() {
            Progress::Ready
        } else {
            Progress::More
        };
        self.work = Some(Work::Removal(removing));
        Ok(progress)
    }

    /// Begins a removal and does a piece of it, if none is under way.
    fn start(&mut self, maildrop: &Name, keys: &[MessageKey]) -> Result<Progress, VaultFault>
        ensures prepares { self.old.under_way ≡ None → Prepares S.Store self.old.vault.conn
            self.new.vault.conn None self.new.under_way (IsOwn result) }
        ensures counted { CountsFaults self.old.vault.faults self.new.vault.faults result }
        ensures answer { IsPrepared result }
    {
        if self.given_up >= MOST_GIVEN_UP || keys.len() <= PIECE {
            return Ok(Progress::Ready);
        }
        let Some(removing) = Removing::new(self.vault.allocator(), maildrop, keys) else {
            return Ok(Progress::Ready);
        };
        self.vault.begin_removal()?;
        self.go_on(removing)
    }

    /// Takes out the deposit that is under way, if it is of these names, and of a text with this
    /// many octets.
    fn take_coming(
        &mut self,
        maildrop: &Name,
        class: &Name,
        id: &DepositId,
        octets: usize,
    ) -> Option<Coming>
        ensures same { self.new.vault ≡ self.old.vault }
        ensures none { IfNone result (self.new ≡ self.old) }
        ensures taken { IfSome result (λ a. (self.old.under_way ≡ Some (works.Deposit a))
            × (self.new.under_way ≡ None) × (a.maildrop ≡ maildrop.now) × (a.class ≡ class.now)
            × (a.id ≡ id.now) × (a.octets ≡ octets)) }
    {
        match self.work.take() {
            Some(Work::Deposit(begun)) => {
                if begun.is_of(maildrop, class, id, octets) {
                    return Some(begun);
                }
                self.work = Some(Work::Deposit(begun));
                None
            }
            Some(Work::Removal(other)) => {
                self.work = Some(Work::Removal(other));
                None
            }
            None => None,
        }
    }

    /// Takes out the deposit that is under way, if it is of these names and this text.
    fn take_deposit(
        &mut self,
        maildrop: &Name,
        class: &Name,
        id: &DepositId,
        text: &MailText,
    ) -> Option<Coming>
        ensures same { self.new.vault ≡ self.old.vault }
        ensures none { IfNone result (self.new ≡ self.old) }
        ensures taken { IfSome result (λ a. (self.old.under_way ≡ Some (works.Deposit a))
            × (self.new.under_way ≡ None) × (a.maildrop ≡ maildrop.now) × (a.class ≡ class.now)
            × (a.id ≡ id.now) × (a.octets ≡ length text.now)
            × (take (length a.put) text.now ≡ a.put)) }
    {
        match self.take_coming(maildrop, class, id, text.octets()) {
            Some(coming) => {
                if coming.begins(text.bytes()) {
                    return Some(coming);
                }
                self.work = Some(Work::Deposit(coming));
                None
            }
            None => None,
        }
    }

    /// Does some more of a deposit that was taken out, and puts it back.
    fn put_more(&mut self, coming: Coming, text: &MailText) -> Result<Progress, VaultFault>
        ensures prepares { self.old.under_way ≡ None → Prepares S.Store self.old.vault.conn
            self.new.vault.conn (Some (works.Deposit coming)) self.new.under_way (IsOwn result) }
        ensures counted { CountsFaults self.old.vault.faults self.new.vault.faults result }
        ensures answer { IsPrepared result }
    {
        let mut coming = coming;
        match self.vault.put_piece(&mut coming, text) {
            Ok(()) => {}
            Err(fault) => {
                self.given_up = self.given_up.saturating_add(1);
                return Err(fault);
            }
        }
        let progress = if coming.is_done() {
            Progress::Ready
        } else {
            Progress::More
        };
        self.work = Some(Work::Deposit(coming));
        Ok(progress)
    }

    /// Begins a deposit and does a piece of it, if nothing is under way.
    fn start_deposit(
        &mut self,
        maildrop: &Name,
        class: &Name,
        id: &DepositId,
        text: &MailText,
    ) -> Result<Progress, VaultFault>
        ensures prepares { self.old.under_way ≡ None → Prepares S.Store self.old.vault.conn
            self.new.vault.conn None self.new.under_way (IsOwn result) }
        ensures counted { CountsFaults self.old.vault.faults self.new.vault.faults result }
        ensures answer { IsPrepared result }
    {
        if self.given_up >= MOST_GIVEN_UP || text.octets() <= coming::PIECE {
            return Ok(Progress::Ready);
        }
        match self.vault.start_deposit(maildrop, class, id, text)? {
            Some(coming) => self.put_more(coming, text),
            None => Ok(Progress::Ready),
        }
    }
}

/// Each call first gives up the work that is under way, and is then done by the vault inside. But a
/// call that asks for that work continues it, and a query about what the work doesn't touch is
/// answered beside it.
impl<S: Alter> Vault for Ahead<S> {
    ghost use Rattle.sqlvault.specs.UnderWay.{sound_beside, settled_beside};

    ghost holds = { holds_in S.Store };

    ghost faults = { faults_in };

    ghost is_clean = { clean_in S.Store };

    ghost is_up = { up_in S.Store };

    ghost may_leave = { leave_in S.Store };

    ghost sound = { λ a c held clean. sound_beside _ a.under_way c held };

    ghost settled = { λ a c clean up held left may. settled_beside _ a.under_way c held up
        (λ db o m. S.Store.settled a.vault.conn.store db o m) left may };

    fn policy(&mut self) -> Result<Policy, VaultFault> {
        self.give_up()?;
        self.vault.policy()
    }

    fn set_policy(&mut self, policy: &Policy) -> Result<(), VaultFault> {
        self.give_up()?;
        self.vault.set_policy(policy)
    }

    fn maildrops(&mut self) -> Result<Vec<Total>, VaultFault> {
        self.give_up()?;
        self.vault.maildrops()
    }

    fn deposit(
        &mut self,
        maildrop: &Name,
        class: &Name,
        id: &DepositId,
        text: &MailText,
    ) -> Result<Deposited, VaultFault> {
        if let Some(coming) = self.take_deposit(maildrop, class, id, text) {
            self.given_up = 0;
            return self.vault.finish_deposit(coming, text);
        }
        self.give_up()?;
        self.given_up = given_up_after(text.octets(), coming::PIECE, self.given_up);
        self.vault.deposit(maildrop, class, id, text)
    }

    fn heads(&mut self, maildrop: &Name) -> Result<Vec<Head>, VaultFault> {
        if self.is_beside(maildrop) {
            match self.vault.look_up_heads(maildrop) {
                Ok(heads) => return Ok(heads),
                Err(VaultFault::NoMaildrop) => return Err(VaultFault::NoMaildrop),
                Err(fault) => return Err(self.end_beside(fault)),
            }
        }
        self.give_up()?;
        self.vault.heads(maildrop)
    }

    fn page(&mut self, key: MessageKey, from: u64, buffer: &mut [u8]) -> Result<usize, VaultFault> {
        if self.spares(key) {
            match self.vault.look_up_page(key, from, buffer) {
                Ok(count) => return Ok(count),
                Err(fault) => return Err(self.end_beside(fault)),
            }
        }
        self.give_up()?;
        self.vault.page(key, from, buffer)
    }

    fn remove(&mut self, maildrop: &Name, keys: &[MessageKey]) -> Result<(), VaultFault> {
        if let Some(removing) = self.take_removal(maildrop, keys) {
            self.given_up = 0;
            return self.vault.finish_removal(&removing);
        }
        self.give_up()?;
        self.given_up = given_up_after(keys.len(), PIECE, self.given_up);
        self.vault.remove(maildrop, keys)
    }

    fn prepare_removal(
        &mut self,
        maildrop: &Name,
        keys: &[MessageKey],
    ) -> Result<Progress, VaultFault> {
        if let Some(removing) = self.take_removal(maildrop, keys) {
            return self.go_on(removing);
        }
        self.give_up()?;
        self.start(maildrop, keys)
    }

    fn prepare_deposit(
        &mut self,
        maildrop: &Name,
        class: &Name,
        id: &DepositId,
        text: &MailText,
    ) -> Result<Progress, VaultFault> {
        if let Some(coming) = self.take_coming(maildrop, class, id, text.octets()) {
            return self.put_more(coming, text);
        }
        self.give_up()?;
        self.start_deposit(maildrop, class, id, text)
    }

    fn credential(&mut self, clerk: &Name) -> Result<Option<Credential>, VaultFault> {
        if self.is_at_work() {
            match self.vault.look_up_credential(clerk) {
                Ok(found) => return Ok(found),
                Err(fault) => return Err(self.end_beside(fault)),
            }
        }
        self.give_up()?;
        self.vault.credential(clerk)
    }

    fn clerks(&mut self) -> Result<Vec<ClerkKind>, VaultFault> {
        self.give_up()?;
        self.vault.clerks()
    }

    fn put_clerk(&mut self, clerk: &Name, credential: &Credential) -> Result<bool, VaultFault> {
        self.give_up()?;
        self.vault.put_clerk(clerk, credential)
    }

    fn drop_clerk(&mut self, clerk: &Name) -> Result<(), VaultFault> {
        self.give_up()?;
        self.vault.drop_clerk(clerk)
    }

    fn add_maildrop(&mut self, maildrop: &Name) -> Result<bool, VaultFault> {
        self.give_up()?;
        self.vault.add_maildrop(maildrop)
    }

    fn drop_maildrop(&mut self, maildrop: &Name) -> Result<(), VaultFault> {
        self.give_up()?;
        self.vault.drop_maildrop(maildrop)
    }

    /// Nothing while work is under way: it isn't given up for this.
    fn maintain(&mut self) -> Result<(), VaultFault> {
        if self.work.is_some() {
            return Ok(());
        }
        self.vault.maintain()
    }
}
