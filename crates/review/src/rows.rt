//! Who may do what: a line for each question, also as CSV (RFC 4180, with LF at the end of a line).
ghost use Rattle.std.specs.Prelude.{◌≡◌, ◌++◌, IfOk, OnOk};
ghost use Rattle.std.specs.List.{flat_map};
ghost use Rattle.review.specs.Differences.{questions};
ghost use Rattle.review.specs.Questions.{columns};
ghost use Rattle.review.specs.Steps.{answers_clerk, answers_column, answers_maildrop};
ghost use Rattle.review.specs.Table.{answer_line, answers_text, column_fields, csv_decision};
ghost use Rattle.review.specs.Table.{csv_line, csv_question, plain_line};

use crate::changes::{Names, effect_word, put_decision, put_question};
use crate::label::{Label, label_bytes, put};
use crate::question::{Column, Question, columns, decide_among, of_clerk, of_maildrop};
use policy::{Decision, Policy, Rule};
use std::alloc::{AllocError, Global};

/// How answers are written.
#[derive(Clone, Copy, PartialEq, Eq)]
pub enum LineForm {
    /// For a reader.
    Text,
    /// As CSV.
    Csv,
}

/// Appends the class of a column and what is done, as two fields.
#[tactic(auto, unfolding(crate::specs::Table::column_fields))]
fn put_fields(out: &mut Vec<u8>, asked: &Column) -> Result<(), AllocError>
    ensures { OnOk result (out.new.items ≡ out.old.items ++ column_fields asked.now) }
{
    match asked {
        Column::Open => put(out, b",open"),
        Column::Read(class) => {
            put(out, label_bytes(class))?;
            put(out, b",read")
        }
        Column::Remove(class) => {
            put(out, label_bytes(class))?;
            put(out, b",remove")
        }
    }
}

#[tactic(auto, unfolding(crate::specs::Table::csv_question))]
fn put_csv_question(out: &mut Vec<u8>, question: &Question) -> Result<(), AllocError>
    ensures { OnOk result (out.new.items ≡ out.old.items ++ csv_question question.now) }
{
    put(out, label_bytes(&question.clerk))?;
    put(out, b",")?;
    put(out, label_bytes(&question.maildrop))?;
    put(out, b",")?;
    put_fields(out, &question.asked)
}

#[tactic(auto, unfolding(crate::specs::Table::csv_decision))]
fn put_csv_decision(out: &mut Vec<u8>, is: &Decision) -> Result<(), AllocError>
    ensures { OnOk result (out.new.items ≡ out.old.items ++ csv_decision is.now) }
{
    put(out, b",")?;
    put(out, effect_word(is.allowed).as_bytes())?;
    put(out, b",")?;
    put(out, is.rule.as_bytes())?;
    put(out, b"\n")
}

fn put_csv(out: &mut Vec<u8>, question: &Question, is: &Decision) -> Result<(), AllocError>
    ensures { OnOk result (out.new.items ≡ out.old.items ++ csv_line question.now is.now) }
{
    put_csv_question(out, question)?;
    put_csv_decision(out, is)
}

#[tactic(auto, unfolding(crate::specs::Table::plain_line))]
fn put_plain(out: &mut Vec<u8>, question: &Question, is: &Decision) -> Result<(), AllocError>
    ensures { OnOk result (out.new.items ≡ out.old.items ++ plain_line question.now is.now) }
{
    put_question(out, question)?;
    put(out, b": ")?;
    put_decision(out, is)?;
    put(out, b"\n")
}

fn put_line(
    out: &mut Vec<u8>,
    format: LineForm,
    question: &Question,
    is: &Decision,
) -> Result<(), AllocError>
    ensures { OnOk result (out.new.items
        ≡ out.old.items ++ answer_line format question.now is.now) }
{
    match format {
        LineForm::Text => put_plain(out, question, is),
        LineForm::Csv => put_csv(out, question, is),
    }
}

fn put_columns(
    out: &mut Vec<u8>,
    format: LineForm,
    clerk: &Label,
    maildrop: &Label,
    asked: &[Column],
    rules: &[Rule],
) -> Result<(), AllocError>
    ensures { OnOk result (out.new.items
        ≡ out.old.items ++ flat_map (answers_column format clerk.now maildrop.now rules.now)
        asked.now) }
{
    for column in asked {
        let question = Question {
            clerk: *clerk,
            maildrop: *maildrop,
            asked: *column,
        };
        put_line(out, format, &question, &decide_among(rules, column))?;
    }
    Ok(())
}

#[tactic(auto, unfolding(crate::specs::Steps::answers_maildrop))]
fn put_maildrop(
    out: &mut Vec<u8>,
    format: LineForm,
    clerk: &Label,
    maildrop: &Label,
    asked: &[Column],
    rules: &[Rule],
) -> Result<(), AllocError>
    ensures { OnOk result (out.new.items
        ≡ out.old.items ++ answers_maildrop format clerk.now asked.now rules.now maildrop.now) }
{
    let about = of_maildrop(*out.allocator(), rules, maildrop)?;
    put_columns(out, format, clerk, maildrop, asked, &about)
}

fn put_maildrops(
    out: &mut Vec<u8>,
    format: LineForm,
    clerk: &Label,
    maildrops: &[Label],
    asked: &[Column],
    rules: &[Rule],
) -> Result<(), AllocError>
    ensures { OnOk result (out.new.items
        ≡ out.old.items ++ flat_map (answers_maildrop format clerk.now asked.now rules.now)
        maildrops.now) }
{
    for maildrop in maildrops {
        put_maildrop(out, format, clerk, maildrop, asked, rules)?;
    }
    Ok(())
}

#[tactic(auto, unfolding(crate::specs::Steps::answers_clerk))]
fn put_clerk(
    out: &mut Vec<u8>,
    format: LineForm,
    policy: &Policy,
    clerk: &Label,
    maildrops: &[Label],
    asked: &[Column],
) -> Result<(), AllocError>
    ensures { OnOk result (out.new.items
        ≡ out.old.items ++ answers_clerk format policy.now maildrops.now asked.now clerk.now) }
{
    let about = of_clerk(*out.allocator(), policy.groups(), policy.rules(), clerk)?;
    put_maildrops(out, format, clerk, maildrops, asked, &about)
}

fn put_clerks(
    out: &mut Vec<u8>,
    format: LineForm,
    policy: &Policy,
    clerks: &[Label],
    maildrops: &[Label],
    asked: &[Column],
) -> Result<(), AllocError>
    ensures { OnOk result (out.new.items
        ≡ out.old.items ++ flat_map (answers_clerk format policy.now maildrops.now asked.now)
        clerks.now) }
{
    for clerk in clerks {
        put_clerk(out, format, policy, clerk, maildrops, asked)?;
    }
    Ok(())
}

/// Appends a line for each question.
pub(crate) fn put_answers(
    out: &mut Vec<u8>,
    format: LineForm,
    policy: &Policy,
    names: &Names,
) -> Result<(), AllocError>
    ensures { OnOk result (out.new.items
        ≡ out.old.items ++ answers_text format policy.now (questions names.now.clerks.items
        names.now.maildrops.items (columns names.now.classes.items))) }
{
    let asked = columns(*out.allocator(), &names.classes)?;
    put_clerks(out, format, policy, &names.clerks, &names.maildrops, &asked)
}

/// Who may do what by the policy: a line for each clerk, maildrop, class and action, in the order
/// of the names, with the rule that decides. As CSV its fields are the clerk, the maildrop, the
/// class, which to open is none, the action, `allow` or `deny`, and the rule; no field needs
/// quotes. An `Err` is want of memory.
pub fn answers(
    alloc: Global,
    policy: &Policy,
    names: &Names,
    format: LineForm,
) -> Result<Vec<u8>, AllocError>
    ensures { IfOk result (λ text. text.items
        ≡ answers_text format policy.now (questions names.now.clerks.items
        names.now.maildrops.items (columns names.now.classes.items))) }
{
    let mut text = Vec::new(alloc);
    put_answers(&mut text, format, policy, names)?;
    Ok(text)
}
