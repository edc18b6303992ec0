//! The rules of the policy, in the order of their places.

ghost use Rattle.std.specs.Prelude.{◌≡◌, IfOk, IfErr, OnOk, OnErr, [], ◌∷◌};
ghost use Rattle.sqlite.specs.Held.{state};
ghost use Rattle.sqlite.specs.State.{HasCleanDisk, IsUnchanged, Survives};
ghost use Rattle.mailsql.specs.Changes as changes;
ghost use Rattle.mailsql.specs.Rows.{IsOurs, IsReady, HasTables, MayLeave, Changes, IsUndone};
ghost use Rattle.mailsql.specs.Rows.{rows_in};
ghost use Rattle.sqlite_value.specs.declared.value.Value.TheVariants.{Int, Text};
ghost use Rattle.mailsql.specs.Errors.{FailsToRun, FailsToRead};
ghost use Rattle.mailsql.specs.Statements.{add_rule_text, clear_rules_text, all_rules_text};

use crate::rows::Rule;
use crate::run::{list, run};
use sqlite::{Alter, Connection, Error};
use sqlite_value::value::ValueRef;
use std::alloc::Global;

/// Adds a rule, at the place above the last one's, or at 1. The table refuses a name that is there.
pub fn add_rule<'x, S: Alter>(
    conn: &mut Connection<S>,
    name: &'x [u8],
    effect: i64,
    clerk: &'x [u8],
    maildrop: &'x [u8],
    class: &'x [u8],
    actions: i64,
) -> Result<(), Error>
    ensures ok { HasCleanDisk (state S.Store conn.new) → IsReady (state S.Store conn.old)
        → OnOk result (Changes (changes.AddsRule name.now effect clerk.now maildrop.now class.now
        actions) (state S.Store conn.old) (state S.Store conn.new)) }
    ensures err { HasCleanDisk (state S.Store conn.new)
        → OnErr result (IsUndone (state S.Store conn.old) (state S.Store conn.new)) }
    ensures cause { HasCleanDisk (state S.Store conn.new)
        → IfErr result (FailsToRun add_rule_text
        (Text name.now ∷ Int effect ∷ Text clerk.now ∷ Text maildrop.now ∷ Text class.now
        ∷ Int actions ∷ []) (state S.Store conn.old) (state S.Store conn.new)) }
    ensures survives { Survives (state S.Store conn.old) (state S.Store conn.new)
        (MayLeave (changes.AddsRule name.now effect clerk.now maildrop.now class.now actions)
        (state S.Store conn.old)) }
{
    run(
        conn,
        "INSERT INTO rules (name, effect, clerk, maildrop, class, actions) VALUES (?1, ?2, ?3, ?4, ?5, ?6)",
        &[
            ValueRef::Text(name),
            ValueRef::Int(effect),
            ValueRef::Text(clerk),
            ValueRef::Text(maildrop),
            ValueRef::Text(class),
            ValueRef::Int(actions),
        ],
    )
}

/// Removes every rule.
pub fn clear_rules<S: Alter>(conn: &mut Connection<S>) -> Result<(), Error>
    ensures ok { HasCleanDisk (state S.Store conn.new) → IsReady (state S.Store conn.old)
        → OnOk result (Changes changes.ClearsRules (state S.Store conn.old)
        (state S.Store conn.new)) }
    ensures err { HasCleanDisk (state S.Store conn.new)
        → OnErr result (IsUndone (state S.Store conn.old) (state S.Store conn.new)) }
    ensures cause { HasCleanDisk (state S.Store conn.new)
        → IfErr result (FailsToRun clear_rules_text [] (state S.Store conn.old)
        (state S.Store conn.new)) }
    ensures survives { Survives (state S.Store conn.old) (state S.Store conn.new)
        (MayLeave changes.ClearsRules (state S.Store conn.old)) }
{
    run(conn, "DELETE FROM rules", &[])
}

/// Every rule, in the order of places.
pub fn all_rules<S: Alter>(alloc: Global, conn: &mut Connection<S>) -> Result<Vec<Rule>, Error>
    ensures ok { HasCleanDisk (state S.Store conn.new) → HasTables (state S.Store conn.old)
        → IfOk result (λ all. all.items ≡ (rows_in (state S.Store conn.old).now.trees).rules) }
    ensures same { HasCleanDisk (state S.Store conn.new) → HasTables (state S.Store conn.old)
        → OnOk result (IsUnchanged (state S.Store conn.old) (state S.Store conn.new)) }
    ensures err { HasCleanDisk (state S.Store conn.new) → HasTables (state S.Store conn.old)
        → OnErr result (IsUndone (state S.Store conn.old) (state S.Store conn.new)) }
    ensures cause { HasCleanDisk (state S.Store conn.new) → HasTables (state S.Store conn.old)
        → IfErr result (FailsToRead all_rules_text [] (state S.Store conn.old)
        (state S.Store conn.new)) }
    ensures survives { Survives (state S.Store conn.old) (state S.Store conn.new)
        (λ _. ¬ IsOurs (state S.Store conn.old).now) }
{
    list(
        alloc,
        conn,
        "SELECT place, name, effect, clerk, maildrop, class, actions FROM rules ORDER BY place",
        &[],
    )
}
