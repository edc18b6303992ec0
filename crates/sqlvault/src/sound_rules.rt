//! Whether the rows of the groups and the rules are a policy, and which of them aren't sound.
ghost use Rattle.std.specs.Prelude.{◌≡◌, true, pos, map, IfOk};
ghost use Rattle.policy.specs.Policy.{is_sound_policy};
ghost use Rattle.sqlite.specs.Held.{state};
ghost use Rattle.sqlite.specs.State.{HasCleanDisk};
ghost use Rattle.mailsql.specs.Rows.{HasTables, rows_in};
ghost use Rattle.sqlvault.specs.Frame.{Asks};
ghost use Rattle.sqlvault.specs.Keeps.{groups_in, rule_row, at_place};
ghost use Rattle.sqlvault.specs.Judged.{JudgesPolicy};
ghost use Rattle.sqlvault.specs.Parts.{Finds, PolicyIs};

use crate::groups::read_groups;
use crate::part::Part;
use crate::rules::rules_of;
use mailsql::{rows, rules};
use policy::{Group, Policy};
use sqlite::{Alter, Connection, Error};
use std::alloc::{AllocError, Global};

/// Whether the rows are the rules of a policy with these groups.
fn are_rules(alloc: Global, groups: Vec<Group>, rows: &[rows::Rule]) -> Result<bool, AllocError>
    ensures { IfOk result (Finds (λ p. (groups.items ≡ p.groups)
        × (map (at_place (pos 0)) rows.now ≡ map (rule_row (pos 0)) p.rules)
        × (is_sound_policy p ≡ true))) }
{
    match rules_of(alloc, rows)? {
        Some(rules) => Ok(Policy::from_parts(groups, rules)?.is_some()),
        None => Ok(false),
    }
}

/// Whether the rows of the rules are those of a policy with these groups.
fn are_rules_with<S: Alter>(
    alloc: Global,
    conn: &mut Connection<S>,
    groups: Vec<Group>,
) -> Result<bool, Error>
    ensures judged { HasCleanDisk (state S.Store conn.new) → HasTables (state S.Store conn.old)
        → groups.items ≡ groups_in (rows_in (state S.Store conn.old).now.trees)
        → IfOk result (Finds (PolicyIs (rows_in (state S.Store conn.old).now.trees))) }
    ensures asks { Asks S.Store conn.old conn.new result }
{
    let rows = rules::all_rules(alloc, conn)?;
    Ok(are_rules(alloc, groups, rows.as_slice())?)
}

/// The first part of the policy's rows that isn't sound: the groups, if a name hasn't its form,
/// or the rules, if they and the groups are no policy; `None` if they are one.
pub(crate) fn unsound_policy<S: Alter>(
    alloc: Global,
    conn: &mut Connection<S>,
) -> Result<Option<Part>, Error>
    ensures judged { HasCleanDisk (state S.Store conn.new) → HasTables (state S.Store conn.old)
        → IfOk result (JudgesPolicy (rows_in (state S.Store conn.old).now.trees)) }
    ensures asks { Asks S.Store conn.old conn.new result }
{
    let Some(groups) = read_groups(alloc, conn)? else {
        return Ok(Some(Part::Groups));
    };
    let rules = are_rules_with(alloc, conn, groups)?;
    if !rules {
        return Ok(Some(Part::Rules));
    }
    Ok(None)
}
