//! What a review asks a policy.
ghost use Rattle.std.specs.Prelude.{◌≡◌, IfOk, Some};
ghost use Rattle.policy.specs.Policy.{default_rule};
ghost use Rattle.review.specs.Differences.{column_text};
ghost use Rattle.review.specs.Questions.{columns, fits_label, is_about};
ghost use Rattle.review.specs.Steps.{decide_among, of_clerk, of_maildrop, of_member};

use crate::covers::pattern_fits;
use crate::label::Label;
use crate::member::{Member, fits_member, member_of};
use creds::Name;
use policy::{Decision, Effect, Group, Pattern, Rule};
use std::alloc::{AllocError, Global};
use std::fmt;

/// What is done in a maildrop: a column of a table. It is printed as `open`, or as a class and the
/// action.
#[derive(Clone, Copy, PartialEq, Eq)]
pub enum Column {
    /// The maildrop is opened, which is about no class.
    Open,
    /// A message of this class is read.
    Read(Label),
    /// A message of this class is removed.
    Remove(Label),
}

#[tactic(auto, unfolding(crate::specs::Differences::column_text))]
impl fmt::Display for Column {
    ghost output = { λ asked. Some (column_text asked) };

    fn fmt<W: fmt::Write>(&self, f: &mut fmt::Formatter<W>) -> fmt::Result {
        match self {
            Column::Open => f.write_str("open"),
            Column::Read(class) => write!(f, "{class} read"),
            Column::Remove(class) => write!(f, "{class} remove"),
        }
    }
}

/// A question to a policy: whether a clerk may do this in a maildrop.
#[derive(Clone, Copy, PartialEq, Eq)]
pub(crate) struct Question {
    pub(crate) clerk: Label,
    pub(crate) maildrop: Label,
    pub(crate) asked: Column,
}

/// The columns of a table over these classes: to open, then for each class to read and to remove.
pub fn columns(alloc: Global, classes: &[Label]) -> Result<Vec<Column>, AllocError>
    ensures { IfOk result (λ asked. asked.items ≡ columns classes.now) }
{
    let mut asked = Vec::new(alloc);
    asked.push(Column::Open)?;
    for class in classes {
        asked.extend_from_slice(&[Column::Read(*class), Column::Remove(*class)])?;
    }
    Ok(asked)
}

fn label_fits(pattern: &Pattern, label: &Label) -> bool
    ensures { result ≡ fits_label pattern.now label.now }
{
    match label {
        Label::Named(name) => pattern_fits(pattern, name),
        Label::Others => matches!(pattern, Pattern::Any),
    }
}

fn is_about(asked: &Column, rule: &Rule) -> bool
    ensures { result ≡ is_about asked.now rule.now }
{
    match asked {
        Column::Open => rule.actions.open,
        Column::Read(class) => rule.actions.read && label_fits(&rule.class, class),
        Column::Remove(class) => rule.actions.remove && label_fits(&rule.class, class),
    }
}

/// The rules that are about the clerk, in order.
pub(crate) fn of_member(
    alloc: Global,
    rules: &[Rule],
    member: &Member,
) -> Result<Vec<Rule>, AllocError>
    ensures { IfOk result (λ some. some.items ≡ of_member rules.now member.now) }
{
    let mut some = Vec::new(alloc);
    for rule in rules {
        if fits_member(&rule.clerk, member) {
            some.extend_from_slice(&[*rule])?;
        }
    }
    Ok(some)
}

/// The rules that are about the clerk by these groups, in order.
pub(crate) fn of_clerk(
    alloc: Global,
    groups: &[Group],
    rules: &[Rule],
    clerk: &Label,
) -> Result<Vec<Rule>, AllocError>
    ensures { IfOk result (λ some. some.items ≡ of_clerk groups.now rules.now clerk.now) }
{
    let member = member_of(alloc, groups, clerk)?;
    of_member(alloc, rules, &member)
}

/// The rules that are about the maildrop, in order.
pub(crate) fn of_maildrop(
    alloc: Global,
    rules: &[Rule],
    maildrop: &Label,
) -> Result<Vec<Rule>, AllocError>
    ensures { IfOk result (λ some. some.items ≡ of_maildrop rules.now maildrop.now) }
{
    let mut some = Vec::new(alloc);
    for rule in rules {
        if label_fits(&rule.maildrop, maildrop) {
            some.extend_from_slice(&[*rule])?;
        }
    }
    Ok(some)
}

fn default_name() -> Name
    ensures { result ≡ default_rule }
{
    match Name::read(b"default") {
        Some(name) => name,
        None => unreachable!(),
    }
}

/// What the first of the rules that is about the column decides.
pub(crate) fn decide_among(rules: &[Rule], asked: &Column) -> Decision
    ensures { result ≡ decide_among rules.now asked.now }
{
    for rule in rules {
        if is_about(asked, rule) {
            return Decision {
                allowed: rule.effect == Effect::Allow,
                rule: rule.name,
            };
        }
    }
    Decision {
        allowed: false,
        rule: default_name(),
    }
}
