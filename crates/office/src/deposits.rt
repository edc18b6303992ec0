//! Messages that are put into maildrops.
ghost use Rattle.std.specs.Prelude.{◌≡◌, true};
ghost use Rattle.creds.specs.Names.{is_name, is_deposit_id};
ghost use Rattle.office.specs.Events as event;
ghost use Rattle.office.specs.Seen.{outcome_seen};
ghost use Rattle.office.specs.AfterEvent.{AfterEvent};
ghost use Rattle.office.specs.VaultAnswers.{refused as refused_of, not_kept as not_kept_of};
ghost use Rattle.office.specs.VaultAnswers.{deposited as deposited_of};

use crate::{Answer, Office, Outcome};
use creds::{DepositId, Name};
use mailtext::{TextFault, canon};
use vault::{Deposited, Vault, VaultFault};

/// The outcome if the vault failed: want of memory, or `Failed`.
pub(crate) fn refused(fault: VaultFault) -> Outcome
    ensures { outcome_seen result ≡ refused_of fault }
{
    match fault {
        VaultFault::NoMemory => Outcome::NoMemory,
        _ => Outcome::Failed,
    }
}

/// The answer to a deposit whose text is empty or too long.
fn not_kept(fault: TextFault) -> Outcome
    ensures { outcome_seen result ≡ not_kept_of fault }
{
    match fault {
        TextFault::Empty => Outcome::Answered(Answer::EmptyText),
        TextFault::TooLarge => Outcome::Answered(Answer::TextTooLarge),
        TextFault::NoMemory => Outcome::NoMemory,
    }
}

/// The answer to a deposit, by the vault's answer.
fn deposited(answered: Result<Deposited, VaultFault>) -> Outcome
    ensures { outcome_seen result ≡ deposited_of answered }
{
    match answered {
        Ok(Deposited::New(uid)) => Outcome::Answered(Answer::New(uid)),
        Ok(Deposited::Known(uid)) => Outcome::Answered(Answer::Known(uid)),
        Err(VaultFault::NoMaildrop) => Outcome::Answered(Answer::NoSuchMaildrop),
        Err(VaultFault::Conflict) => Outcome::Answered(Answer::Conflict),
        Err(VaultFault::Full) => Outcome::Answered(Answer::Full),
        Err(fault) => refused(fault),
    }
}

/// A fact for the proofs: the names and the id of a deposit have their form.
fn have_form(maildrop: &Name, class: &Name, id: &DepositId)
    ensures maildrop { is_name maildrop.now ≡ true }
    ensures class { is_name class.now ≡ true }
    ensures id { is_deposit_id id.now ≡ true }
{
    let _ = maildrop.as_bytes();
    let _ = class.as_bytes();
    let _ = id.as_bytes();
}

impl<V: Vault> Office<V> {
    /// Puts a message into a maildrop.
    pub(crate) fn deposit(
        &mut self,
        maildrop: &Name,
        class: &Name,
        id: &DepositId,
        text: &[u8],
    ) -> Outcome
        ensures { AfterEvent V.Vault self.old self.new
            (event.Deposit maildrop.now class.now id.now text.now) (outcome_seen result) }
    {
        have_form(maildrop, class, id);
        match canon(self.alloc, text) {
            Ok(kept) => deposited(self.vault.deposit(maildrop, class, id, &kept)),
            Err(fault) => not_kept(fault),
        }
    }
}
