//! The calls that every mail store answers, and what they promise.
ghost use Rattle.std.specs.Prelude.{ℕ, Ok};
ghost use Rattle.vault.specs.Changes.{Contents, AreSound};
ghost use Rattle.vault.specs.Stops.{SaySame};
ghost use Rattle.vault.specs.Call.{Looks, Commits};
ghost use Rattle.vault.specs.Calls.{seen_as, IsAnswer, IsDeposited, AreHeads, IsPaged, AreRemoved};
ghost use Rattle.vault.specs.Calls.{IsCredential, IsClerkPut, IsClerkDropped, IsMaildropAdded};
ghost use Rattle.vault.specs.Calls.{IsMaildropDropped, IsPrepared, AreTotals, IsPolicy};
ghost use Rattle.vault.specs.Calls.{IsPolicySet};
ghost use Rattle.vault.specs.Clerks.{AreClerkKinds};

use crate::answer::{ClerkKind, Deposited, Head, Progress, Total};
use crate::fault::VaultFault;
use crate::message_key::MessageKey;
use creds::{Credential, DepositId, Name};
use mailtext::MailText;
use policy::Policy;

/// A mail store: it keeps clerks, maildrops, messages, deposits and the policy.
///
/// Contracts see the contents that it holds, how many faults it counted, and whether it is clean.
/// Beyond safety, a call promises something only if the store is clean when the call ends. The
/// contents of a clean store are sound. A store that isn't clean may hold any contents, and never
/// becomes clean again. A refused call changes no contents.
///
/// Contracts also see what a clean store may hold after the device stopped (a crash, the power
/// gone). A stop during a call that began with the device up leaves the contents from before the
/// call or, if the call changes records, those from after it. Once the call has answered, with
/// neither `Store` nor `NoMemory`, the device is still up, and a stop leaves just what is held.
///
/// Beside the refusals that each call names, any call may answer [`VaultFault::NoMemory`], if
/// memory ran out, and [`VaultFault::Store`], if what the store stands on refused a statement;
/// then the count of faults has grown.
pub trait Vault {
    /// The store holds these contents.
    ghost holds: { Self → Contents → Type 0 };

    /// How many faults it counted. The count stops at 2^64 - 1.
    ghost faults: { Self → ℕ };

    /// Nobody else wrote to its device, and the device gave back what was written.
    ghost is_clean: { Self → Type 0 };

    /// The device hasn't failed so far.
    ghost is_up: { Self → Type 0 };

    /// After a stop now (a crash, the power gone) it may hold these contents when opened again.
    ghost may_leave: { Self → Contents → Type 0 };

    /// Puts a message into a maildrop, once for each deposit id in the maildrop's name. A second
    /// deposit of an id, with the same class and text, answers [`Deposited::Known`] and changes
    /// nothing, even if the message is gone.
    ///
    /// Answers [`VaultFault::NoMaildrop`] if the maildrop is missing, else
    /// [`VaultFault::Conflict`] if the id was used with another class or text, else
    /// [`VaultFault::Full`] if the maildrop has 10,000 messages or its name had 1,000,000,000
    /// deposits of the class.
    fn deposit(
        &mut self,
        maildrop: &Name,
        class: &Name,
        id: &DepositId,
        text: &MailText,
    ) -> Result<Deposited, VaultFault>
        ensures done { (c : Contents) → holds self.old c → is_clean self.new
            → IsDeposited (holds self.new) c maildrop.now class.now id.now text.now result }
        ensures commits { Commits holds faults is_clean is_up may_leave self.old self.new
            (λ c Held. IsDeposited Held c maildrop.now class.now id.now text.now) result };

    /// The heads of a maildrop's messages, in order of arrival.
    ///
    /// Answers [`VaultFault::NoMaildrop`] if the maildrop is missing.
    fn heads(&mut self, maildrop: &Name) -> Result<Vec<Head>, VaultFault>
        ensures done { (c : Contents) → holds self.old c → is_clean self.new
            → AreHeads (holds self.new) c maildrop.now (seen_as result (λ v. v.items)) }
        ensures looks { Looks holds faults is_clean is_up may_leave self.old self.new result };

    /// Reads octets of a message, from octet `from` on, into the front of the buffer. Returns how
    /// many: at least one if any is left and the buffer isn't empty, else 0. Under an unknown
    /// key there are none.
    fn page(&mut self, key: MessageKey, from: u64, buffer: &mut [u8]) -> Result<usize, VaultFault>
        ensures done { (c : Contents) → holds self.old c → is_clean self.new
            → IsPaged (holds self.new) c key from buffer.new result }
        ensures looks { Looks holds faults is_clean is_up may_leave self.old self.new result };

    /// Removes the maildrop's messages that have these keys: all of them or, if it is refused,
    /// none. Keys without a message in the maildrop are ignored.
    fn remove(&mut self, maildrop: &Name, keys: &[MessageKey]) -> Result<(), VaultFault>
        ensures done { (c : Contents) → holds self.old c → is_clean self.new
            → AreRemoved (holds self.new) c maildrop.now keys.now result }
        ensures commits { Commits holds faults is_clean is_up may_leave self.old self.new
            (λ c Held. AreRemoved Held c maildrop.now keys.now) result };

    /// Does a part of the work of a [`Vault::remove`] of these keys that may come, and answers
    /// whether more of it can be done. Nothing is changed: what is prepared is seen by no other
    /// call, and a stop leaves nothing of it. A store that has nothing to prepare answers
    /// [`Progress::Ready`].
    fn prepare_removal(
        &mut self,
        maildrop: &Name,
        keys: &[MessageKey],
    ) -> Result<Progress, VaultFault>
        ensures answer { IsPrepared result }
        ensures looks { Looks holds faults is_clean is_up may_leave self.old self.new result };

    /// Does a part of the work of a [`Vault::deposit`] with these arguments that may come, and
    /// answers whether more of it can be done. Nothing is changed, as for
    /// [`Vault::prepare_removal`].
    fn prepare_deposit(
        &mut self,
        maildrop: &Name,
        class: &Name,
        id: &DepositId,
        text: &MailText,
    ) -> Result<Progress, VaultFault>
        ensures answer { IsPrepared result }
        ensures looks { Looks holds faults is_clean is_up may_leave self.old self.new result };

    /// Every maildrop with the number of its messages and their octets, sorted by the octets of
    /// the name.
    fn maildrops(&mut self) -> Result<Vec<Total>, VaultFault>
        ensures done { (c : Contents) → holds self.old c → is_clean self.new
            → AreTotals (holds self.new) c (seen_as result (λ v. v.items)) }
        ensures looks { Looks holds faults is_clean is_up may_leave self.old self.new result };

    /// The credential of a clerk; `None` if there is no clerk of that name.
    fn credential(&mut self, clerk: &Name) -> Result<Option<Credential>, VaultFault>
        ensures done { (c : Contents) → holds self.old c → is_clean self.new
            → IsCredential (holds self.new) c clerk.now result }
        ensures looks { Looks holds faults is_clean is_up may_leave self.old self.new result };

    /// Every clerk with the kind of the credential, sorted by the octets of the name; 1,000 at
    /// most.
    fn clerks(&mut self) -> Result<Vec<ClerkKind>, VaultFault>
        ensures done { (c : Contents) → holds self.old c → is_clean self.new
            → AreClerkKinds (holds self.new) c (seen_as result (λ v. v.items)) }
        ensures looks { Looks holds faults is_clean is_up may_leave self.old self.new result };

    /// Adds a clerk, or replaces the credential of one who is there. Answers whether the clerk was
    /// new.
    ///
    /// Answers [`VaultFault::Full`] for a new name beyond 1,000.
    fn put_clerk(&mut self, clerk: &Name, credential: &Credential) -> Result<bool, VaultFault>
        ensures done { (c : Contents) → holds self.old c → is_clean self.new
            → IsClerkPut (holds self.new) c clerk.now credential.now result }
        ensures commits { Commits holds faults is_clean is_up may_leave self.old self.new
            (λ c Held. IsClerkPut Held c clerk.now credential.now) result };

    /// Drops a clerk.
    ///
    /// Answers [`VaultFault::NoClerk`] if there is none of that name.
    fn drop_clerk(&mut self, clerk: &Name) -> Result<(), VaultFault>
        ensures done { (c : Contents) → holds self.old c → is_clean self.new
            → IsClerkDropped (holds self.new) c clerk.now result }
        ensures commits { Commits holds faults is_clean is_up may_leave self.old self.new
            (λ c Held. IsClerkDropped Held c clerk.now) result };

    /// Adds a maildrop. It takes up the counts and deposit ids that its name has from before.
    /// Answers whether it was new; one that is there stays as it is.
    ///
    /// Answers [`VaultFault::Full`] for a new name beyond 1,000.
    fn add_maildrop(&mut self, maildrop: &Name) -> Result<bool, VaultFault>
        ensures done { (c : Contents) → holds self.old c → is_clean self.new
            → IsMaildropAdded (holds self.new) c maildrop.now result }
        ensures commits { Commits holds faults is_clean is_up may_leave self.old self.new
            (λ c Held. IsMaildropAdded Held c maildrop.now) result };

    /// Drops an empty maildrop. The deposits of its name stay known, so that its counts and ids go
    /// on when it is added again.
    ///
    /// Answers [`VaultFault::NoMaildrop`] if the maildrop is missing, else
    /// [`VaultFault::NotEmpty`] if it has a message.
    fn drop_maildrop(&mut self, maildrop: &Name) -> Result<(), VaultFault>
        ensures done { (c : Contents) → holds self.old c → is_clean self.new
            → IsMaildropDropped (holds self.new) c maildrop.now result }
        ensures commits { Commits holds faults is_clean is_up may_leave self.old self.new
            (λ c Held. IsMaildropDropped Held c maildrop.now) result };

    /// A copy of the policy.
    fn policy(&mut self) -> Result<Policy, VaultFault>
        ensures done { (c : Contents) → holds self.old c → is_clean self.new
            → IsPolicy (holds self.new) c result }
        ensures looks { Looks holds faults is_clean is_up may_leave self.old self.new result };

    /// Sets the policy to a copy of this one.
    fn set_policy(&mut self, policy: &Policy) -> Result<(), VaultFault>
        ensures done { (c : Contents) → holds self.old c → is_clean self.new
            → IsPolicySet (holds self.new) c policy.now result }
        ensures commits { Commits holds faults is_clean is_up may_leave self.old self.new
            (λ c Held. IsPolicySet Held c policy.now) result };

    /// Does what the store has put off, for a time in which no client waits: one that keeps a log
    /// copies it into its database file, if it is long. Nothing is changed. A store that is never
    /// asked does this in a later call.
    fn maintain(&mut self) -> Result<(), VaultFault>
        ensures answer { IsAnswer (Ok tt) result }
        ensures looks { Looks holds faults is_clean is_up may_leave self.old self.new result };

    /// The contents that a clean store holds are sound.
    ghost sound: { (vault : Self) (c : Contents) → holds vault c → is_clean vault → AreSound c };

    /// Between two calls, while the device is up, a stop leaves just what is held.
    ghost settled: { (vault : Self) (c : Contents) → is_clean vault → is_up vault → holds vault c
        → (left : Contents) → may_leave vault left → SaySame left c };
}
