//! What a review prints.
ghost use Rattle.std.specs.Prelude.{◌≡◌, ◌++◌, IfOk, OnOk, not};
ghost use Rattle.review.specs.Differences.{text_if};
ghost use Rattle.review.specs.Notes.{missing_lines};
ghost use Rattle.review.specs.Review.{against_text, changes_of, chosen, classes_of, clerks_of};
ghost use Rattle.review.specs.Review.{compares, csv_text, has_lines, has_store, is_narrow};
ghost use Rattle.review.specs.Review.{maildrops_of, notes_text, or_none, plain_text, review_text};
ghost use Rattle.review.specs.Review.{reviewed, stored_text, written};

use crate::changes::{Names, differences};
use crate::choice::{Choice, Format};
use crate::covers::covered;
use crate::json::json;
use crate::label::Label;
use crate::names::{Kept, names_of};
use crate::notes::missing;
use crate::page::{Parts, page};
use crate::rows::{LineForm, answers, put_answers};
use crate::table::tables;
use crate::unknown::put_unknown_names;
use creds::Name;
use policy::Policy;
use std::alloc::{AllocError, Global};

/// What a review of a policy is beside.
#[derive(Clone, Copy, PartialEq, Eq)]
enum Beside {
    /// No other policy, and no store.
    Nothing,
    /// The policy that it is to replace.
    Old,
    /// That policy and a store.
    Store,
}

fn chosen(alloc: Global, one: &Option<Name>, all: Vec<Label>) -> Result<Vec<Label>, AllocError>
    ensures { IfOk result (λ some. some.items ≡ chosen one.now all.items) }
{
    match one {
        Some(name) => {
            let mut some = Vec::new(alloc);
            some.push(Label::Named(*name))?;
            Ok(some)
        }
        None => Ok(all),
    }
}

/// The names that a review of two policies beside a store speaks of: of clerks and of maildrops the
/// one that is chosen, if one is, else all that `names_of` has. An `Err` is want of memory.
pub fn names_for(
    alloc: Global,
    old: &Policy,
    new: &Policy,
    kept: &Kept,
    choice: &Choice,
) -> Result<Names, AllocError>
    ensures clerks { IfOk result (λ names. names.clerks.items
        ≡ clerks_of choice.now old.now new.now kept.now) }
    ensures maildrops { IfOk result (λ names. names.maildrops.items
        ≡ maildrops_of choice.now old.now new.now kept.now) }
    ensures classes { IfOk result (λ names. names.classes.items ≡ classes_of old.now new.now) }
{
    let all = names_of(alloc, old, new, kept)?;
    let clerks = chosen(alloc, &choice.clerk, all.clerks)?;
    let maildrops = chosen(alloc, &choice.maildrop, all.maildrops)?;
    Ok(Names {
        clerks,
        maildrops,
        classes: all.classes,
    })
}

fn is_narrow(choice: &Choice) -> bool
    ensures { result ≡ is_narrow choice.now }
{
    choice.clerk.is_some() && choice.maildrop.is_some()
}

fn plain(alloc: Global, narrow: bool, policy: &Policy, names: &Names) -> Result<Vec<u8>, AllocError>
    ensures { IfOk result (λ text. text.items
        ≡ plain_text narrow policy.now names.now.clerks.items names.now.maildrops.items
        names.now.classes.items) }
{
    if narrow {
        answers(alloc, policy, names, LineForm::Text)
    } else {
        tables(alloc, policy, names)
    }
}

fn as_csv(alloc: Global, policy: &Policy, names: &Names) -> Result<Vec<u8>, AllocError>
    ensures { IfOk result (λ text. text.items
        ≡ csv_text policy.now names.now.clerks.items names.now.maildrops.items
        names.now.classes.items) }
{
    let mut text = Vec::new(alloc);
    text.extend_from_slice(b"clerk,maildrop,class,action,decision,rule\n")?;
    put_answers(&mut text, LineForm::Csv, policy, names)?;
    Ok(text)
}

fn compares(beside: Beside) -> bool
    ensures { result ≡ compares beside }
{
    match beside {
        Beside::Nothing => false,
        Beside::Old => true,
        Beside::Store => true,
    }
}

fn has_store(beside: Beside) -> bool
    ensures { result ≡ has_store beside }
{
    match beside {
        Beside::Nothing => false,
        Beside::Old => false,
        Beside::Store => true,
    }
}

fn put_missing(
    out: &mut Vec<u8>,
    stored: bool,
    policy: &Policy,
    kept: &Kept,
) -> Result<(), AllocError>
    ensures { OnOk result (out.new.items
        ≡ out.old.items ++ text_if stored (missing_lines policy.now kept.now)) }
{
    if stored {
        let lines = missing(*out.allocator(), policy, kept)?;
        out.extend_from_slice(&lines)?;
    }
    Ok(())
}

/// What to look at: rules that never decide, names that were chosen and are named nowhere, and
/// what the store doesn't have.
fn notes(
    alloc: Global,
    stored: bool,
    old: &Policy,
    new: &Policy,
    kept: &Kept,
    choice: &Choice,
) -> Result<Vec<u8>, AllocError>
    ensures { IfOk result (λ text. text.items
        ≡ notes_text stored choice.now old.now new.now kept.now) }
{
    let mut text = covered(alloc, new)?;
    put_unknown_names(&mut text, old, new, kept, choice)?;
    put_missing(&mut text, stored, new, kept)?;
    Ok(text)
}

fn put_plain(
    out: &mut Vec<u8>,
    table: bool,
    narrow: bool,
    policy: &Policy,
    names: &Names,
) -> Result<(), AllocError>
    ensures { OnOk result (out.new.items ≡ out.old.items
        ++ text_if table (plain_text narrow policy.now names.now.clerks.items
        names.now.maildrops.items names.now.classes.items)) }
{
    if table {
        let text = plain(*out.allocator(), narrow, policy, names)?;
        out.extend_from_slice(&text)?;
    }
    Ok(())
}

fn put_lines(out: &mut Vec<u8>, lines: &[u8]) -> Result<(), AllocError>
    ensures { OnOk result (out.new.items ≡ out.old.items ++ or_none lines.now) }
{
    if lines.is_empty() {
        out.extend_from_slice(b"no decision differs\n")
    } else {
        out.extend_from_slice(lines)
    }
}

fn put_change(out: &mut Vec<u8>, compared: bool, lines: &[u8]) -> Result<(), AllocError>
    ensures { OnOk result (out.new.items
        ≡ out.old.items ++ text_if compared (or_none lines.now)) }
{
    if compared {
        put_lines(out, lines)?;
    }
    Ok(())
}

fn as_text(
    alloc: Global,
    parts: Parts,
    narrow: bool,
    policy: &Policy,
    names: &Names,
    changes: &[u8],
    notes: &[u8],
) -> Result<Vec<u8>, AllocError>
    ensures { IfOk result (λ text. text.items
        ≡ text_if parts.table (plain_text narrow policy.now names.now.clerks.items
        names.now.maildrops.items names.now.classes.items)
        ++ text_if parts.changes (or_none changes.now) ++ notes.now) }
{
    let mut text = Vec::new(alloc);
    put_plain(&mut text, parts.table, narrow, policy, names)?;
    put_change(&mut text, parts.changes, changes)?;
    text.extend_from_slice(notes)?;
    Ok(text)
}

fn as_csv_if(
    alloc: Global,
    table: bool,
    policy: &Policy,
    names: &Names,
) -> Result<Vec<u8>, AllocError>
    ensures { IfOk result (λ text. text.items
        ≡ text_if table (csv_text policy.now names.now.clerks.items
        names.now.maildrops.items names.now.classes.items)) }
{
    if table {
        as_csv(alloc, policy, names)
    } else {
        Ok(Vec::new(alloc))
    }
}

/// The review of the new policy in the form that is chosen, by the names that it speaks of and the
/// lines of what changes.
fn written(
    alloc: Global,
    beside: Beside,
    choice: &Choice,
    source: &[u8],
    old: &Policy,
    new: &Policy,
    kept: &Kept,
    names: &Names,
    changes: &[u8],
) -> Result<Vec<u8>, AllocError>
    ensures { IfOk result (λ text. text.items ≡ written choice.now.format
        (not choice.now.only_changes) (compares beside) (is_narrow choice.now) old.now new.now
        names.now.clerks.items names.now.maildrops.items names.now.classes.items changes.now
        (notes_text (has_store beside) choice.now old.now new.now kept.now) source.now) }
{
    let notes = notes(alloc, has_store(beside), old, new, kept, choice)?;
    let parts = Parts {
        table: !choice.only_changes,
        changes: compares(beside),
    };
    match choice.format {
        Format::Text => as_text(alloc, parts, is_narrow(choice), new, names, changes, &notes),
        Format::Csv => as_csv_if(alloc, parts.table, new, names),
        Format::Html => page(alloc, parts, old, new, names, &notes, source),
        Format::Json => json(alloc, parts.table, new, names),
    }
}

/// The review of a policy, which was read from `source`: who may do what, unless only changes are
/// asked for, then the rules that never decide, and a note if one that is chosen is named nowhere.
///
/// Who may do what is told by tables; if one clerk and one maildrop are chosen, or as CSV, by a
/// line for each question. CSV and JSON have nothing else. As HTML there stand the rules and
/// `source` too. An `Err` is want of memory.
pub fn review_policy(
    alloc: Global,
    policy: &Policy,
    source: &[u8],
    choice: &Choice,
) -> Result<Vec<u8>, AllocError>
    ensures { IfOk result (λ text. text.items ≡ review_text choice.now source.now policy.now) }
{
    let nobody = Kept::nobody(alloc);
    let names = names_for(alloc, policy, policy, &nobody, choice)?;
    written(
        alloc,
        Beside::Nothing,
        choice,
        source,
        policy,
        policy,
        &nobody,
        &names,
        b"",
    )
}

/// The review beside an old policy, and whether a decision differs.
fn review_beside(
    alloc: Global,
    beside: Beside,
    old: &Policy,
    new: &Policy,
    kept: &Kept,
    source: &[u8],
    choice: &Choice,
) -> Result<(Vec<u8>, bool), AllocError>
    ensures text { IfOk result (λ told. told.0.items
        ≡ reviewed beside choice.now source.now old.now new.now kept.now) }
    ensures differ { IfOk result (λ told. told.1
        ≡ has_lines (changes_of choice.now old.now new.now kept.now)) }
{
    let names = names_for(alloc, old, new, kept, choice)?;
    let lines = differences(alloc, old, new, &names)?;
    let text = written(
        alloc, beside, choice, source, old, new, kept, &names, &lines,
    )?;
    Ok((text, !lines.is_empty()))
}

/// The review of a policy, which was read from `source`, against the old one: as `review_policy`
/// has it, and in text and HTML what the new one changes, or that no decision differs. It speaks
/// of the names of both, and of those that are kept. With it comes whether a decision differs. An
/// `Err` is want of memory.
pub fn review_against(
    alloc: Global,
    old: &Policy,
    new: &Policy,
    kept: &Kept,
    source: &[u8],
    choice: &Choice,
) -> Result<(Vec<u8>, bool), AllocError>
    ensures text { IfOk result (λ told. told.0.items
        ≡ against_text choice.now source.now old.now new.now kept.now) }
    ensures differ { IfOk result (λ told. told.1
        ≡ has_lines (changes_of choice.now old.now new.now kept.now)) }
{
    review_beside(alloc, Beside::Old, old, new, kept, source, choice)
}

/// The review of a policy against the old one, beside a store that has these clerks and maildrops:
/// as `review_against` has it, with, in text and HTML, a note for whatever the new policy speaks of
/// and the store doesn't have. With it comes whether a decision differs. An `Err` is want of
/// memory.
pub fn review_stored(
    alloc: Global,
    old: &Policy,
    new: &Policy,
    kept: &Kept,
    source: &[u8],
    choice: &Choice,
) -> Result<(Vec<u8>, bool), AllocError>
    ensures text { IfOk result (λ told. told.0.items
        ≡ stored_text choice.now source.now old.now new.now kept.now) }
    ensures differ { IfOk result (λ told. told.1
        ≡ has_lines (changes_of choice.now old.now new.now kept.now)) }
{
    review_beside(alloc, Beside::Store, old, new, kept, source, choice)
}
