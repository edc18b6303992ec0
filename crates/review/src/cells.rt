//! What a clerk may do in a maildrop: the decisions, and the words for them.
ghost use Rattle.std.specs.Prelude.{◌≡◌, ◌++◌, IfOk, OnOk, codes, map};
ghost use Rattle.std.specs.List.{flat_map, list_any};
ghost use Rattle.review.specs.Cells.{agrees, cell_words, class_if, class_of, classes_by};
ghost use Rattle.review.specs.Cells.{classes_text, comma_label, has_become, is_none, is_others};
ghost use Rattle.review.specs.Cells.{lets_any, lets_open, level_of, level_text, open_words, opens};
ghost use Rattle.review.specs.Cells.{rest_of, share_by, share_text, tagged};
ghost use Rattle.review.specs.CellSteps.{verdict_among};

use crate::changes::becomes;
use crate::label::{Label, label_bytes, put};
use crate::question::{Column, decide_among};
use policy::{Decision, Rule};
use std::alloc::{AllocError, Global};

/// What was decided about a column, and what is.
#[derive(Clone, Copy, PartialEq, Eq)]
pub(crate) struct Verdict {
    pub(crate) asked: Column,
    pub(crate) was: Decision,
    pub(crate) is: Decision,
}

fn verdict_among(olds: &[Rule], news: &[Rule], asked: &Column) -> Verdict
    ensures { result ≡ verdict_among olds.now news.now asked.now }
{
    Verdict {
        asked: *asked,
        was: decide_among(olds, asked),
        is: decide_among(news, asked),
    }
}

/// The decisions about the columns, by the rules that are about the clerk and the maildrop.
pub(crate) fn verdicts(
    alloc: Global,
    olds: &[Rule],
    news: &[Rule],
    asked: &[Column],
) -> Result<Vec<Verdict>, AllocError>
    ensures { IfOk result (λ all. all.items ≡ map (verdict_among olds.now news.now) asked.now) }
{
    let mut all = Vec::new(alloc);
    for column in asked {
        all.push(verdict_among(olds, news, column))?;
    }
    Ok(all)
}

pub(crate) fn class_of(asked: &Column, remove: bool) -> Option<Label>
    ensures { result ≡ class_of remove asked.now }
{
    match asked {
        Column::Open => None,
        Column::Read(class) => { if remove { None } else { Some(*class) } }
        Column::Remove(class) => { if remove { Some(*class) } else { None } }
    }
}

fn agrees(wanted: bool, is: bool) -> bool
    ensures { result ≡ agrees wanted is }
{
    if wanted { is } else { !is }
}

fn add_class(classes: &mut Vec<Label>, holds: bool, class: &Option<Label>) -> Result<(), AllocError>
    ensures { OnOk result (classes.new.items ≡ classes.old.items ++ class_if holds class.now) }
{
    match class {
        None => Ok(()),
        Some(class) => {
            if holds {
                classes.push(*class)?;
            }
            Ok(())
        }
    }
}

fn classes_by(
    alloc: Global,
    verdicts: &[Verdict],
    remove: bool,
    allowed: bool,
) -> Result<Vec<Label>, AllocError>
    ensures { IfOk result (λ classes. classes.items ≡ classes_by remove allowed verdicts.now) }
{
    let mut classes = Vec::new(alloc);
    for verdict in verdicts {
        let class = class_of(&verdict.asked, remove);
        add_class(&mut classes, agrees(allowed, verdict.is.allowed), &class)?;
    }
    Ok(classes)
}

/// Appends a text but for its first octet.
pub(crate) fn put_rest(out: &mut Vec<u8>, text: &[u8]) -> Result<(), AllocError>
    ensures { OnOk result (out.new.items ≡ out.old.items ++ rest_of text.now) }
{
    match text.split_first() {
        Some((_, rest)) => put(out, rest),
        None => Ok(()),
    }
}

/// Appends a label between two texts.
pub(crate) fn put_tagged(
    out: &mut Vec<u8>,
    front: &[u8],
    label: &Label,
    back: &[u8],
) -> Result<(), AllocError>
    ensures { OnOk result (out.new.items
        ≡ out.old.items ++ tagged front.now label.now back.now) }
{
    put(out, front)?;
    put(out, label_bytes(label))?;
    put(out, back)
}

#[tactic(auto, unfolding(crate::specs::Cells::comma_label))]
fn put_comma_label(out: &mut Vec<u8>, class: &Label) -> Result<(), AllocError>
    ensures { OnOk result (out.new.items ≡ out.old.items ++ comma_label class.now) }
{
    put(out, b", ")?;
    put(out, label_bytes(class))
}

fn comma_labels(alloc: Global, classes: &[Label]) -> Result<Vec<u8>, AllocError>
    ensures { IfOk result (λ text. text.items ≡ flat_map comma_label classes.now) }
{
    let mut text = Vec::new(alloc);
    for class in classes {
        put_comma_label(&mut text, class)?;
    }
    Ok(text)
}

fn put_classes(out: &mut Vec<u8>, classes: &[Label]) -> Result<(), AllocError>
    ensures { OnOk result (out.new.items ≡ out.old.items ++ classes_text classes.now) }
{
    let text = comma_labels(*out.allocator(), classes)?;
    put_rest(out, &text)
}

fn is_none(classes: &[Label]) -> bool
    ensures { result ≡ is_none classes.now }
{
    classes.is_empty()
}

fn is_others(class: &Label) -> bool
    ensures { result ≡ is_others class.now }
{
    match class {
        Label::Named(_) => false,
        Label::Others => true,
    }
}

fn has_others(classes: &[Label]) -> bool
    ensures { result ≡ list_any is_others classes.now }
{
    classes.iter().any(|class| is_others(class))
}

fn put_all_but(out: &mut Vec<u8>, refused: &[Label]) -> Result<(), AllocError>
    ensures { OnOk result (out.new.items
        ≡ out.old.items ++ (codes " all but" ++ classes_text refused.now)) }
{
    put(out, b" all but")?;
    put_classes(out, refused)
}

fn put_share(out: &mut Vec<u8>, given: &[Label], refused: &[Label]) -> Result<(), AllocError>
    ensures { OnOk result (out.new.items
        ≡ out.old.items ++ share_text given.now refused.now) }
{
    if is_none(refused) {
        put(out, b" all")
    } else if is_none(given) {
        put(out, b" nothing")
    } else if has_others(given) {
        put_all_but(out, refused)
    } else {
        put_classes(out, given)
    }
}

fn put_share_by(out: &mut Vec<u8>, verdicts: &[Verdict], remove: bool) -> Result<(), AllocError>
    ensures { OnOk result (out.new.items ≡ out.old.items ++ share_by remove verdicts.now) }
{
    let alloc = *out.allocator();
    let given = classes_by(alloc, verdicts, remove, true)?;
    let refused = classes_by(alloc, verdicts, remove, false)?;
    put_share(out, &given, &refused)
}

fn lets_open(asked: &Column, allowed: bool) -> bool
    ensures { result ≡ lets_open asked.now allowed }
{
    match asked {
        Column::Open => allowed,
        Column::Read(_) => false,
        Column::Remove(_) => false,
    }
}

fn opens(verdicts: &[Verdict]) -> bool
    ensures { result ≡ opens verdicts.now }
{
    verdicts
        .iter()
        .any(|verdict| lets_open(&verdict.asked, verdict.is.allowed))
}

fn lets_any(verdicts: &[Verdict]) -> bool
    ensures { result ≡ lets_any verdicts.now }
{
    verdicts.iter().any(|verdict| verdict.is.allowed)
}

/// Whether what was denied is allowed now, or the other way round.
pub(crate) fn has_become(allowed: bool, verdicts: &[Verdict]) -> bool
    ensures { result ≡ has_become allowed verdicts.now }
{
    verdicts
        .iter()
        .any(|verdict| becomes(allowed, &verdict.was, &verdict.is))
}

#[tactic(auto, unfolding(crate::specs::Cells::open_words))]
fn put_open_words(out: &mut Vec<u8>, verdicts: &[Verdict]) -> Result<(), AllocError>
    ensures { OnOk result (out.new.items ≡ out.old.items ++ open_words verdicts.now) }
{
    put(out, b"reads")?;
    put_share_by(out, verdicts, false)?;
    put(out, b"; removes")?;
    put_share_by(out, verdicts, true)
}

/// Appends what a clerk may do in a maildrop, in words.
pub(crate) fn put_words(out: &mut Vec<u8>, verdicts: &[Verdict]) -> Result<(), AllocError>
    ensures { OnOk result (out.new.items ≡ out.old.items ++ cell_words verdicts.now) }
{
    if opens(verdicts) {
        put_open_words(out, verdicts)
    } else if lets_any(verdicts) {
        put(out, b"may not open")
    } else {
        put(out, b"no")
    }
}

fn level_of(opens: bool, any: bool, none_read: bool, none_removed: bool) -> &'static [u8]
    ensures { result.now ≡ level_of opens any none_read none_removed }
{
    if !opens {
        if any { b"slip" } else { b"no" }
    } else if none_read {
        b"opens"
    } else if none_removed {
        b"reads"
    } else {
        b"removes"
    }
}

/// Appends the word for a cell's colour.
pub(crate) fn put_level(out: &mut Vec<u8>, verdicts: &[Verdict]) -> Result<(), AllocError>
    ensures { OnOk result (out.new.items ≡ out.old.items ++ level_text verdicts.now) }
{
    let alloc = *out.allocator();
    let read = classes_by(alloc, verdicts, false, true)?;
    let removed = classes_by(alloc, verdicts, true, true)?;
    let level = level_of(
        opens(verdicts),
        lets_any(verdicts),
        is_none(&read),
        is_none(&removed),
    );
    put(out, level)
}
