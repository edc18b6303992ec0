//! The messages, without their sheets.

ghost use Rattle.std.specs.Prelude.{◌≡◌, min, length, filter, IfOk, IfErr, OnOk, OnErr, [], ◌∷◌};
ghost use Rattle.sqlite.specs.Held.{state};
ghost use Rattle.sqlite.specs.State.{HasCleanDisk, IsUnchanged, Survives};
ghost use Rattle.mailsql.specs.Changes as changes;
ghost use Rattle.mailsql.specs.Rows as rows;
ghost use Rattle.mailsql.specs.Rows.{IsOurs, IsReady, HasTables, MayLeave, Changes, IsUndone};
ghost use Rattle.mailsql.specs.Rows.{rows_in};
ghost use Rattle.sqlite_value.specs.declared.value.Value.TheVariants.{Int, Text};
ghost use Rattle.mailsql.specs.Errors.{FailsToRun, FailsToRead, FailsToCount};
ghost use Rattle.mailsql.specs.Statements.{add_message_text, add_keyed_text, remove_message_text};
ghost use Rattle.mailsql.specs.Statements.{heads_text, all_messages_text, message_count_text};

use crate::rows::Message;
use crate::run::{count, list, run};
use sqlite::{Alter, Connection, Error};
use sqlite_value::value::ValueRef;
use std::alloc::Global;

/// Adds a message and returns its key, which is above all others'. The table refuses a missing
/// maildrop, and a number that another message of the class has.
pub fn add_message<'x, S: Alter>(
    conn: &mut Connection<S>,
    maildrop: &'x [u8],
    class: &'x [u8],
    k: i64,
    octets: i64,
) -> Result<i64, Error>
    ensures ok { HasCleanDisk (state S.Store conn.new) → IsReady (state S.Store conn.old)
        → IfOk result (λ key. Changes (changes.AddsMessage
        (record { key = key; maildrop = maildrop.now; class = class.now; k = k; octets = octets }))
        (state S.Store conn.old) (state S.Store conn.new)) }
    ensures err { HasCleanDisk (state S.Store conn.new)
        → OnErr result (IsUndone (state S.Store conn.old) (state S.Store conn.new)) }
    ensures cause { HasCleanDisk (state S.Store conn.new)
        → IfErr result (FailsToRun add_message_text
        (Text maildrop.now ∷ Text class.now ∷ Int k ∷ Int octets ∷ []) (state S.Store conn.old)
        (state S.Store conn.new)) }
    ensures survives { Survives (state S.Store conn.old) (state S.Store conn.new)
        (MayLeave (changes.Arrives maildrop.now class.now k octets) (state S.Store conn.old)) }
{
    // For the proof: while a connection is open, its database lists its tables.
    let _schema = conn.schema();
    match conn.execute(
        "INSERT INTO mail (maildrop, class, k, octets) VALUES (?1, ?2, ?3, ?4)",
        &[
            ValueRef::Text(maildrop),
            ValueRef::Text(class),
            ValueRef::Int(k),
            ValueRef::Int(octets),
        ],
    ) {
        Ok(_) => Ok(conn.last_insert_rowid()),
        Err(error) => Err(error),
    }
}

/// Adds a message under this key. The caller chooses one above all others.
pub fn add_keyed<'x, S: Alter>(
    conn: &mut Connection<S>,
    key: i64,
    maildrop: &'x [u8],
    class: &'x [u8],
    k: i64,
    octets: i64,
) -> Result<(), Error>
    ensures ok { HasCleanDisk (state S.Store conn.new) → IsReady (state S.Store conn.old)
        → OnOk result (Changes (changes.AddsKeyed
        (record { key = key; maildrop = maildrop.now; class = class.now; k = k; octets = octets }))
        (state S.Store conn.old) (state S.Store conn.new)) }
    ensures err { HasCleanDisk (state S.Store conn.new)
        → OnErr result (IsUndone (state S.Store conn.old) (state S.Store conn.new)) }
    ensures cause { HasCleanDisk (state S.Store conn.new)
        → IfErr result (FailsToRun add_keyed_text
        (Int key ∷ Text maildrop.now ∷ Text class.now ∷ Int k ∷ Int octets ∷ [])
        (state S.Store conn.old) (state S.Store conn.new)) }
    ensures survives { Survives (state S.Store conn.old) (state S.Store conn.new)
        (MayLeave (changes.AddsKeyed (record {
          key = key;
          maildrop = maildrop.now;
          class =
              class.now;
          k = k;
          octets = octets;
        })) (state S.Store conn.old)) }
{
    run(
        conn,
        "INSERT INTO mail (key, maildrop, class, k, octets) VALUES (?1, ?2, ?3, ?4, ?5)",
        &[
            ValueRef::Int(key),
            ValueRef::Text(maildrop),
            ValueRef::Text(class),
            ValueRef::Int(k),
            ValueRef::Int(octets),
        ],
    )
}

/// Removes the message of this key with its sheets, if it lies in the maildrop.
pub fn remove_message<'x, S: Alter>(
    conn: &mut Connection<S>,
    key: i64,
    maildrop: &'x [u8],
) -> Result<(), Error>
    ensures ok { HasCleanDisk (state S.Store conn.new) → IsReady (state S.Store conn.old)
        → OnOk result (Changes (changes.RemovesMessage key maildrop.now) (state S.Store conn.old)
        (state S.Store conn.new)) }
    ensures err { HasCleanDisk (state S.Store conn.new)
        → OnErr result (IsUndone (state S.Store conn.old) (state S.Store conn.new)) }
    ensures cause { HasCleanDisk (state S.Store conn.new)
        → IfErr result (FailsToRun remove_message_text (Int key ∷ Text maildrop.now ∷ [])
        (state S.Store conn.old) (state S.Store conn.new)) }
    ensures survives { Survives (state S.Store conn.old) (state S.Store conn.new)
        (MayLeave (changes.RemovesMessage key maildrop.now) (state S.Store conn.old)) }
{
    run(
        conn,
        "DELETE FROM mail WHERE key = ?1 AND maildrop = ?2",
        &[ValueRef::Int(key), ValueRef::Text(maildrop)],
    )
}

/// The messages of the maildrop, in order of arrival.
pub fn heads<S: Alter>(
    alloc: Global,
    conn: &mut Connection<S>,
    maildrop: &[u8],
) -> Result<Vec<Message>, Error>
    ensures ok { HasCleanDisk (state S.Store conn.new) → HasTables (state S.Store conn.old)
        → IfOk result (λ all. all.items ≡ filter (rows.is_in maildrop.now)
        (rows_in (state S.Store conn.old).now.trees).messages) }
    ensures same { HasCleanDisk (state S.Store conn.new) → HasTables (state S.Store conn.old)
        → OnOk result (IsUnchanged (state S.Store conn.old) (state S.Store conn.new)) }
    ensures err { HasCleanDisk (state S.Store conn.new) → HasTables (state S.Store conn.old)
        → OnErr result (IsUndone (state S.Store conn.old) (state S.Store conn.new)) }
    ensures cause { HasCleanDisk (state S.Store conn.new) → HasTables (state S.Store conn.old)
        → IfErr result (FailsToRead heads_text (Text maildrop.now ∷ []) (state S.Store conn.old)
        (state S.Store conn.new)) }
    ensures survives { Survives (state S.Store conn.old) (state S.Store conn.new)
        (λ _. ¬ IsOurs (state S.Store conn.old).now) }
{
    list(
        alloc,
        conn,
        "SELECT key, maildrop, class, k, octets FROM mail WHERE maildrop = ?1 ORDER BY key",
        &[ValueRef::Text(maildrop)],
    )
}

/// Every message, in order of arrival. Only tests call it.
pub fn all_messages<S: Alter>(
    alloc: Global,
    conn: &mut Connection<S>,
) -> Result<Vec<Message>, Error>
    ensures ok { HasCleanDisk (state S.Store conn.new) → HasTables (state S.Store conn.old)
        → IfOk result (λ all. all.items ≡ (rows_in (state S.Store conn.old).now.trees).messages) }
    ensures same { HasCleanDisk (state S.Store conn.new) → HasTables (state S.Store conn.old)
        → OnOk result (IsUnchanged (state S.Store conn.old) (state S.Store conn.new)) }
    ensures err { HasCleanDisk (state S.Store conn.new) → HasTables (state S.Store conn.old)
        → OnErr result (IsUndone (state S.Store conn.old) (state S.Store conn.new)) }
    ensures cause { HasCleanDisk (state S.Store conn.new) → HasTables (state S.Store conn.old)
        → IfErr result (FailsToRead all_messages_text [] (state S.Store conn.old)
        (state S.Store conn.new)) }
    ensures survives { Survives (state S.Store conn.old) (state S.Store conn.new)
        (λ _. ¬ IsOurs (state S.Store conn.old).now) }
{
    list(
        alloc,
        conn,
        "SELECT key, maildrop, class, k, octets FROM mail ORDER BY key",
        &[],
    )
}

/// How many messages the maildrop has.
pub fn message_count<S: Alter>(conn: &mut Connection<S>, maildrop: &[u8]) -> Result<u64, Error>
    ensures ok { HasCleanDisk (state S.Store conn.new) → HasTables (state S.Store conn.old)
        → IfOk result (λ count. count ≡ min (length
        (filter (rows.is_in maildrop.now) (rows_in (state S.Store conn.old).now.trees).messages))
        9223372036854775807) }
    ensures same { HasCleanDisk (state S.Store conn.new) → HasTables (state S.Store conn.old)
        → OnOk result (IsUnchanged (state S.Store conn.old) (state S.Store conn.new)) }
    ensures err { HasCleanDisk (state S.Store conn.new) → HasTables (state S.Store conn.old)
        → OnErr result (IsUndone (state S.Store conn.old) (state S.Store conn.new)) }
    ensures cause { HasCleanDisk (state S.Store conn.new) → HasTables (state S.Store conn.old)
        → IfErr result (FailsToCount message_count_text (Text maildrop.now ∷ [])
        (state S.Store conn.old) (state S.Store conn.new)) }
    ensures survives { Survives (state S.Store conn.old) (state S.Store conn.new)
        (λ _. ¬ IsOurs (state S.Store conn.old).now) }
{
    count(
        conn,
        "SELECT count(*) FROM mail WHERE maildrop = ?1",
        &[ValueRef::Text(maildrop)],
    )
}
