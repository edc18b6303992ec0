//! Preparing a QUIT: a part of what it removes is done before its line is read.
ghost use Rattle.std.specs.Prelude.{◌≡◌, false, Ok};
ghost use Rattle.vault.specs.Call.{Looks};
ghost use Rattle.vault.specs.Calls.{IsPrepared};
ghost use Rattle.vault.specs.declared.answer.Progress.TheVariants.{Ready};
ghost use Rattle.office.specs.Events.{Trace};
ghost use Rattle.office.specs.Stands.{OfEachTrace, StandsFor, vault_of};
ghost use Rattle.office.specs.Trace.{history};
ghost use Rattle.office.specs.Sessions.{live};
ghost use Rattle.office.specs.Quitting.{sees_many as sees_many_at, marks_many as marks_many_at};

use crate::Office;
use creds::{DepositId, Name};
use mailtext::MailText;
use vault::{Progress, Vault, VaultFault};

impl<V: Vault> Office<V> {
    /// Whether connection `c` is in session with a view of more than 128 messages: only then may
    /// its QUIT be worth preparing. It looks at no mark.
    pub fn sees_many(&self, c: u64) -> bool
        ensures { (T : Trace) → StandsFor V.holds self.now T → result ≡ sees_many_at T c }
    {
        match self.connections.get(&c) {
            None => false,
            Some(connection) => connection.sees_many(),
        }
    }

    /// Whether connection `c` is in session and has marked more than 128 messages. It counts them.
    pub fn marks_many(&self, c: u64) -> bool
        ensures { (T : Trace) → StandsFor V.holds self.now T → result ≡ marks_many_at T c }
    {
        match self.connections.get(&c) {
            None => false,
            Some(connection) => connection.marks_many(),
        }
    }

    /// Has the store prepare a deposit that may come, as [`Vault::prepare_deposit`] does, and
    /// answers whether more of it can be prepared. It is no event: the office stands for the trace
    /// that it stood for, also if the store refuses.
    pub fn prepare_deposit(
        &mut self,
        maildrop: &Name,
        class: &Name,
        id: &DepositId,
        text: &MailText,
    ) -> Result<Progress, VaultFault>
        ensures stands { OfEachTrace V.Vault self.old self.new (λ T.
            StandsFor V.holds self.new T) }
        ensures answer { IsPrepared result }
        ensures looks { Looks V.holds V.faults V.is_clean V.is_up V.may_leave
            (vault_of self.old) (vault_of self.new) result }
    {
        self.vault.prepare_deposit(maildrop, class, id, text)
    }

    /// Has the store prepare what the QUIT of connection `c`'s session would remove, as
    /// [`Vault::prepare_removal`] does, and answers whether more of it can be prepared before the
    /// QUIT is given. Without a session it is [`Progress::Ready`]. It is no event: the office
    /// stands for the trace that it stood for, also if the store refuses.
    pub fn prepare_quit(&mut self, c: u64) -> Result<Progress, VaultFault>
        ensures stands { OfEachTrace V.Vault self.old self.new (λ T.
            StandsFor V.holds self.new T) }
        ensures answer { IsPrepared result }
        ensures looks { Looks V.holds V.faults V.is_clean V.is_up V.may_leave
            (vault_of self.old) (vault_of self.new) result }
        ensures quits { (T : Trace) → StandsFor V.holds self.old T
            → live (history T) c ≡ false → result ≡ Ok Ready }
    {
        match self.connections.get(&c) {
            None => Ok(Progress::Ready),
            Some(connection) => connection.prepare_quit(&mut self.vault, &self.policy),
        }
    }
}
