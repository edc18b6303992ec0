//! What is said of a clerk or a maildrop that was chosen and is named nowhere.
ghost use Rattle.std.specs.Prelude.{◌≡◌, ◌++◌, OnOk};
ghost use Rattle.std.specs.List.{list_any};
ghost use Rattle.review.specs.Names.{is_of};
ghost use Rattle.review.specs.Review.{chosen_note, name_note, unknown_names, unknown_note};

use crate::choice::Choice;
use crate::label::{Label, put};
use crate::names::{Kept, names_of};
use creds::Name;
use policy::Policy;
use std::alloc::AllocError;

fn is_of(name: &Name, label: &Label) -> bool
    ensures { result ≡ is_of name.now label.now }
{
    match label {
        Label::Named(other) => other == name,
        Label::Others => false,
    }
}

fn has_label(name: &Name, labels: &[Label]) -> bool
    ensures { result ≡ list_any (is_of name.now) labels.now }
{
    labels.iter().any(|label| is_of(name, label))
}

#[tactic(auto, unfolding(crate::specs::Review::unknown_note))]
fn put_unknown_note(out: &mut Vec<u8>, what: &[u8], name: &Name) -> Result<(), AllocError>
    ensures { OnOk result (out.new.items ≡ out.old.items ++ unknown_note what.now name.now) }
{
    put(out, b"note: ")?;
    put(out, what)?;
    put(out, b" ")?;
    put(out, name.as_bytes())?;
    put(out, b" is named nowhere: decided as (others)\n")
}

/// Appends a note of the name, if none of the labels is its.
fn put_name_note(
    out: &mut Vec<u8>,
    what: &[u8],
    name: &Name,
    all: &[Label],
) -> Result<(), AllocError>
    ensures { OnOk result (out.new.items
        ≡ out.old.items ++ name_note what.now name.now all.now) }
{
    if has_label(name, all) {
        return Ok(());
    }
    put_unknown_note(out, what, name)
}

fn put_chosen_note(
    out: &mut Vec<u8>,
    what: &[u8],
    one: &Option<Name>,
    all: &[Label],
) -> Result<(), AllocError>
    ensures { OnOk result (out.new.items
        ≡ out.old.items ++ chosen_note what.now one.now all.now) }
{
    match one {
        None => Ok(()),
        Some(name) => put_name_note(out, what, name, all),
    }
}

/// Appends a note for the clerk and for the maildrop that are chosen and that neither policy names
/// and the store doesn't have, so that a slip of the pen is seen.
pub(crate) fn put_unknown_names(
    out: &mut Vec<u8>,
    old: &Policy,
    new: &Policy,
    kept: &Kept,
    choice: &Choice,
) -> Result<(), AllocError>
    ensures { OnOk result (out.new.items
        ≡ out.old.items ++ unknown_names choice.now old.now new.now kept.now) }
{
    let all = names_of(*out.allocator(), old, new, kept)?;
    put_chosen_note(out, b"clerk", &choice.clerk, &all.clerks)?;
    put_chosen_note(out, b"maildrop", &choice.maildrop, &all.maildrops)
}
