//! Which part of a store's rows isn't sound.
ghost use Rattle.std.specs.Prelude.{◌≡◌, IfOk, [], ◌∷◌};
ghost use Rattle.sqlite.specs.Held.{state};
ghost use Rattle.sqlite.specs.State.{HasCleanDisk};
ghost use Rattle.mailsql.specs.Rows.{HasTables, rows_in};
ghost use Rattle.sqlvault.specs.Frame.{Asks};
ghost use Rattle.sqlvault.specs.Judged.{IsJudged};
ghost use Rattle.sqlvault.specs.Keeps.{Keeps, our_meta_row};
ghost use Rattle.sqlvault.specs.Parts.{Finds};

use crate::sound_clerks::{are_clerks_sound, are_maildrops_sound};
use crate::sound_deposits::are_deposits_sound;
use crate::sound_messages::are_messages_sound;
use crate::sound_rules::unsound_policy;
use mailsql::schema::keys_hold;
use sqlite::{Alter, Connection, Error};
use std::alloc::Global;

/// A part of a store's rows that is judged as one, in the order of judging.
#[derive(Clone, Copy)]
pub enum Part {
    /// The table `clerks`: each name and credential has its form, and there are 1,000 at most.
    Clerks,
    /// The table `maildrops`: each name has its form, and there are 1,000 at most.
    Maildrops,
    /// The tables `groups` and `members`: each name has its form.
    Groups,
    /// The table `rules`: with the groups the rules are a policy.
    Rules,
    /// The tables `deposits` and `counts`: each name, id and digest has its form, and the numbers
    /// of each class under a maildrop's name are 1 to its count, 1,000,000,000 at most.
    Deposits,
    /// The tables `mail` and `sheets`: each message has a deposit of its class and number, and its
    /// sheets are a text in its kept form with as many octets as its row says; no maildrop has more
    /// than 10,000 messages; and there is no other sheet.
    Messages,
}

/// The first part of the rows that isn't sound, in the order of `Part`; `None` if all rows are
/// sound records of a vault. For a store that has our tables and our version row. Nothing is
/// changed. The error is a statement's, or that memory ran out.
pub fn unsound_part<S: Alter>(
    alloc: Global,
    conn: &mut Connection<S>,
) -> Result<Option<Part>, Error>
    ensures judged { HasCleanDisk (state S.Store conn.new) → HasTables (state S.Store conn.old)
        → (rows_in (state S.Store conn.old).now.trees).meta_rows ≡ our_meta_row ∷ []
        → IfOk result (IsJudged (rows_in (state S.Store conn.old).now.trees)) }
    ensures asks { Asks S.Store conn.old conn.new result }
{
    keys_hold(conn);
    let clerks = are_clerks_sound(alloc, conn)?;
    if !clerks {
        return Ok(Some(Part::Clerks));
    }
    let maildrops = are_maildrops_sound(alloc, conn)?;
    if !maildrops {
        return Ok(Some(Part::Maildrops));
    }
    if let Some(part) = unsound_policy(alloc, conn)? {
        return Ok(Some(part));
    }
    let deposits = are_deposits_sound(alloc, conn)?;
    if !deposits {
        return Ok(Some(Part::Deposits));
    }
    let messages = are_messages_sound(alloc, conn)?;
    if !messages {
        return Ok(Some(Part::Messages));
    }
    Ok(None)
}

/// Whether all rows are sound records of a vault.
pub(crate) fn are_rows_sound<S: Alter>(
    alloc: Global,
    conn: &mut Connection<S>,
) -> Result<bool, Error>
    ensures judged { HasCleanDisk (state S.Store conn.new) → HasTables (state S.Store conn.old)
        → (rows_in (state S.Store conn.old).now.trees).meta_rows ≡ our_meta_row ∷ []
        → IfOk result (Finds (Keeps (rows_in (state S.Store conn.old).now.trees))) }
    ensures asks { Asks S.Store conn.old conn.new result }
{
    let unsound = unsound_part(alloc, conn)?;
    Ok(unsound.is_none())
}
