//! What a change of the policy changes.
ghost use Rattle.std.specs.Prelude.{◌≡◌, ◌++◌, IfOk, OnOk};
ghost use Rattle.std.specs.List.{flat_map};
ghost use Rattle.review.specs.Differences.{becomes, becoming, change_line, change_lines};
ghost use Rattle.review.specs.Differences.{decision_text, differences_text, effect_word};
ghost use Rattle.review.specs.Differences.{question_text, questions};
ghost use Rattle.review.specs.Questions.{columns};
ghost use Rattle.review.specs.Steps.{of_clerk, of_maildrop, told, told_clerk, told_column};
ghost use Rattle.review.specs.Steps.{told_maildrop};

use crate::label::{Label, label_bytes, put};
use crate::question::{Column, Question, columns, decide_among, of_clerk, of_maildrop};
use policy::{Decision, Policy, Rule};
use std::alloc::{AllocError, Global};

/// The clerks, maildrops and classes that a review speaks of, each in its order.
#[derive(Drop)]
pub struct Names {
    /// The clerks: the lines of a table.
    pub clerks: Vec<Label>,
    /// The maildrops: a table each.
    pub maildrops: Vec<Label>,
    /// The classes of messages.
    pub classes: Vec<Label>,
}

/// The rules of both policies that are about one clerk, or about one clerk and one maildrop.
#[derive(Drop)]
struct Both {
    old: Vec<Rule>,
    new: Vec<Rule>,
}

pub(crate) fn becomes(allowed: bool, was: &Decision, is: &Decision) -> bool
    ensures { result ≡ becomes allowed was.now is.now }
{
    if allowed {
        !was.allowed && is.allowed
    } else {
        was.allowed && !is.allowed
    }
}

pub(crate) fn effect_word(allowed: bool) -> &'static str
    ensures { result.now ≡ effect_word allowed }
{
    if allowed { "allow" } else { "deny" }
}

#[tactic(auto, unfolding(crate::specs::Differences::question_text))]
pub(crate) fn put_question(out: &mut Vec<u8>, question: &Question) -> Result<(), AllocError>
    ensures { OnOk result (out.new.items ≡ out.old.items ++ question_text question.now) }
{
    let asked = question.asked;
    let words = format!(in *out.allocator(); "{asked}")?;
    put(out, label_bytes(&question.clerk))?;
    put(out, b" ")?;
    put(out, label_bytes(&question.maildrop))?;
    put(out, b" ")?;
    put(out, words.as_bytes())
}

#[tactic(auto, unfolding(crate::specs::Differences::decision_text))]
pub(crate) fn put_decision(out: &mut Vec<u8>, decision: &Decision) -> Result<(), AllocError>
    ensures { OnOk result (out.new.items ≡ out.old.items ++ decision_text decision.now) }
{
    put(out, effect_word(decision.allowed).as_bytes())?;
    put(out, b" by rule ")?;
    put(out, decision.rule.as_bytes())
}

#[tactic(auto, unfolding(crate::specs::Differences::change_line))]
fn put_change(
    out: &mut Vec<u8>,
    question: &Question,
    was: &Decision,
    is: &Decision,
) -> Result<(), AllocError>
    ensures { OnOk result (out.new.items
        ≡ out.old.items ++ change_line question.now was.now is.now) }
{
    put_question(out, question)?;
    put(out, b": ")?;
    put_decision(out, was)?;
    put(out, b" -> ")?;
    put_decision(out, is)?;
    put(out, b"\n")
}

fn put_told(
    out: &mut Vec<u8>,
    allowed: bool,
    question: &Question,
    was: &Decision,
    is: &Decision,
) -> Result<(), AllocError>
    ensures { OnOk result (out.new.items
        ≡ out.old.items ++ told allowed question.now was.now is.now) }
{
    if becomes(allowed, was, is) {
        put_change(out, question, was, is)?;
    }
    Ok(())
}

/// Appends the differences of one clerk and one maildrop, by the rules that are about both.
fn put_columns(
    out: &mut Vec<u8>,
    allowed: bool,
    clerk: &Label,
    maildrop: &Label,
    asked: &[Column],
    rules: &Both,
) -> Result<(), AllocError>
    ensures { OnOk result (out.new.items
        ≡ out.old.items ++ flat_map (told_column allowed clerk.now maildrop.now
        rules.now.old.items rules.now.new.items) asked.now) }
{
    for column in asked {
        let question = Question {
            clerk: *clerk,
            maildrop: *maildrop,
            asked: *column,
        };
        let was = decide_among(rules.old.as_slice(), column);
        let is = decide_among(rules.new.as_slice(), column);
        put_told(out, allowed, &question, &was, &is)?;
    }
    Ok(())
}

/// Appends the differences of one clerk and one maildrop, by the rules that are about the clerk.
#[tactic(auto, unfolding(crate::specs::Steps::told_maildrop))]
fn put_maildrop(
    out: &mut Vec<u8>,
    allowed: bool,
    clerk: &Label,
    maildrop: &Label,
    asked: &[Column],
    rules: &Both,
) -> Result<(), AllocError>
    ensures { OnOk result (out.new.items
        ≡ out.old.items ++ told_maildrop allowed clerk.now asked.now rules.now.old.items
        rules.now.new.items maildrop.now) }
{
    let alloc = *out.allocator();
    let about = Both {
        old: of_maildrop(alloc, &rules.old, maildrop)?,
        new: of_maildrop(alloc, &rules.new, maildrop)?,
    };
    put_columns(out, allowed, clerk, maildrop, asked, &about)
}

/// Appends the differences of one clerk, by the rules that are about the clerk.
fn put_maildrops(
    out: &mut Vec<u8>,
    allowed: bool,
    clerk: &Label,
    maildrops: &[Label],
    asked: &[Column],
    rules: &Both,
) -> Result<(), AllocError>
    ensures { OnOk result (out.new.items
        ≡ out.old.items ++ flat_map (told_maildrop allowed clerk.now asked.now
        rules.now.old.items rules.now.new.items) maildrops.now) }
{
    for maildrop in maildrops {
        put_maildrop(out, allowed, clerk, maildrop, asked, rules)?;
    }
    Ok(())
}

/// The change of a policy, and in which direction its differences are printed.
#[derive(Clone, Copy)]
pub(crate) struct Change<'a> {
    pub(crate) allowed: bool,
    pub(crate) old: &'a Policy,
    pub(crate) new: &'a Policy,
}

/// Appends the differences of one clerk.
#[tactic(auto, unfolding(crate::specs::Steps::told_clerk))]
fn put_clerk(
    out: &mut Vec<u8>,
    change: &Change<'_>,
    clerk: &Label,
    maildrops: &[Label],
    asked: &[Column],
) -> Result<(), AllocError>
    ensures { OnOk result (out.new.items
        ≡ out.old.items ++ told_clerk change.now.allowed change.now.old.now change.now.new.now
        maildrops.now asked.now clerk.now) }
{
    let alloc = *out.allocator();
    let old = change.old;
    let new = change.new;
    let about = Both {
        old: of_clerk(alloc, old.groups(), old.rules(), clerk)?,
        new: of_clerk(alloc, new.groups(), new.rules(), clerk)?,
    };
    put_maildrops(out, change.allowed, clerk, maildrops, asked, &about)
}

/// Appends the differences of all clerks in one direction.
fn put_clerks(
    out: &mut Vec<u8>,
    change: &Change<'_>,
    clerks: &[Label],
    maildrops: &[Label],
    asked: &[Column],
) -> Result<(), AllocError>
    ensures { OnOk result (out.new.items
        ≡ out.old.items ++ flat_map (told_clerk change.now.allowed change.now.old.now
        change.now.new.now maildrops.now asked.now) clerks.now) }
{
    for clerk in clerks {
        put_clerk(out, change, clerk, maildrops, asked)?;
    }
    Ok(())
}

/// Appends the differences in one direction.
pub(crate) fn put_change_lines(
    out: &mut Vec<u8>,
    change: &Change<'_>,
    names: &Names,
    asked: &[Column],
) -> Result<(), AllocError>
    ensures { OnOk result (out.new.items
        ≡ out.old.items ++ change_lines change.now.old.now change.now.new.now
        (becoming change.now.allowed change.now.old.now change.now.new.now
        (questions names.now.clerks.items names.now.maildrops.items asked.now))) }
{
    put_clerks(out, change, &names.clerks, &names.maildrops, asked)
}

/// The text of what the new policy changes: a line for each clerk, maildrop, class and action
/// whose decisions by the two policies differ in being allowed, with both and the rules that
/// decide. Those that become allowed come first; both parts are in the order of the names: by
/// clerks, then maildrops, then to open, and for each class to read and to remove. It is empty
/// if none differs.
///
/// It takes memory for the text, and for copies of the rules about one clerk. An `Err` is want of
/// memory.
pub fn differences(
    alloc: Global,
    old: &Policy,
    new: &Policy,
    names: &Names,
) -> Result<Vec<u8>, AllocError>
    ensures { IfOk result (λ text. text.items
        ≡ differences_text old.now new.now (questions names.now.clerks.items
        names.now.maildrops.items (columns names.now.classes.items))) }
{
    let asked = columns(alloc, &names.classes)?;
    let mut text = Vec::new(alloc);
    let gained = Change {
        allowed: true,
        old,
        new,
    };
    let lost = Change {
        allowed: false,
        old,
        new,
    };
    put_change_lines(&mut text, &gained, names, &asked)?;
    put_change_lines(&mut text, &lost, names, &asked)?;
    Ok(text)
}
