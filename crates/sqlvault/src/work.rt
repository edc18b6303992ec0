//! Work in parts, in one open transaction.
ghost use Rattle.std.specs.Prelude.{Ok};
ghost use Rattle.vault.specs.Calls.{IsAnswer};
ghost use Rattle.sqlvault.specs.Frame.{IsMet};
ghost use Rattle.sqlvault.specs.Refusals.{answer_of};
ghost use Rattle.sqlvault.specs.UnderWay.{GivesUp};

use crate::coming::Coming;
use crate::refusal::Refusal;
use crate::removal::Removing;
use crate::transaction::{begin, conclude, roll_back};
use sqlite::{Alter, Connection};

/// What is under way in the transaction.
#[derive(Drop)]
pub(crate) enum Work {
    /// A removal.
    Removal(Removing),
    /// A deposit.
    Deposit(Coming),
}

/// Gives the work up: what it did is undone. A commit of nothing then tells that the store still
/// answers. After an error inside the transaction that may be gone already.
///
/// Answers the error that a statement met; the work is given up also then.
pub(crate) fn give_up<S: Alter>(conn: &mut Connection<S>) -> Result<(), Refusal>
    ensures gives_up { GivesUp S.Store conn.old conn.new (IsMet result) }
    ensures answer { IsAnswer (Ok tt) (answer_of result) }
{
    let _ = roll_back(conn);
    begin(conn)?;
    conclude(conn, Ok(()))
}
