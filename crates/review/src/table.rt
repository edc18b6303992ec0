//! Who may do what: a table for each maildrop.
ghost use Rattle.std.specs.Prelude.{◌≡◌, ◌++◌, [], IfOk, OnOk, map};
ghost use Rattle.std.specs.List.{flat_map, list_any};
ghost use Rattle.review.specs.Steps.{cells, marks_among, row_among, table_among};
ghost use Rattle.review.specs.Table.{also, class_cell, class_name, class_width, class_words};
ghost use Rattle.review.specs.Table.{line_text, lines_text, mark, padded, same_marks, spaces};
ghost use Rattle.review.specs.Table.{table_head, tables_text};

use crate::changes::Names;
use crate::label::{Label, label_bytes, put};
use crate::member::{Member, members_of};
use crate::question::{Column, decide_among, of_maildrop, of_member};
use policy::{Policy, Rule};
use std::alloc::{AllocError, Global};
use std::marker::Model;

/// A clerk and the clerk's marks in a maildrop.
#[derive(Drop)]
struct Row {
    clerk: Label,
    marks: Vec<u8>,
}

impl Model for Row {
    ghost use Rattle.review.specs.Table.{Row};

    ghost Value = { Row };

    ghost view = { λ r. record { clerk = r.clerk; marks = r.marks.items } };
}

fn mark(allowed: bool) -> &'static [u8]
    ensures { result.now ≡ mark allowed }
{
    if allowed { b"x" } else { b"." }
}

fn class_width(class: &Label) -> usize
    ensures { result ≡ class_width class.now }
{
    label_bytes(class).len().max(11) + 2
}

fn put_spaces(out: &mut Vec<u8>, count: usize) -> Result<(), AllocError>
    ensures { OnOk result (out.new.items ≡ out.old.items ++ spaces count) }
{
    for done in 0..count {
        out.push(b' ')?;
    }
    Ok(())
}

fn put_padded(out: &mut Vec<u8>, width: usize, text: &[u8]) -> Result<(), AllocError>
    ensures { OnOk result (out.new.items ≡ out.old.items ++ padded width text.now) }
{
    out.extend_from_slice(text)?;
    put_spaces(out, width.saturating_sub(text.len()))
}

#[tactic(auto, unfolding(crate::specs::Table::class_cell))]
fn put_cell(out: &mut Vec<u8>, class: &Label, read: bool, remove: bool) -> Result<(), AllocError>
    ensures { OnOk result (out.new.items ≡ out.old.items ++ class_cell class.now read remove) }
{
    let mut marks = Vec::new(*out.allocator());
    marks.extend_from_slice(mark(read))?;
    marks.extend_from_slice(b"    ")?;
    marks.extend_from_slice(mark(remove))?;
    put_padded(out, class_width(class), &marks)
}

fn put_cells(out: &mut Vec<u8>, rules: &[Rule], classes: &[Label]) -> Result<(), AllocError>
    ensures { OnOk result (out.new.items ≡ out.old.items ++ cells rules.now classes.now) }
{
    for class in classes {
        let read = decide_among(rules, &Column::Read(*class));
        let remove = decide_among(rules, &Column::Remove(*class));
        put_cell(out, class, read.allowed, remove.allowed)?;
    }
    Ok(())
}

fn marks_among(alloc: Global, rules: &[Rule], classes: &[Label]) -> Result<Vec<u8>, AllocError>
    ensures { IfOk result (λ marks. marks.items ≡ marks_among rules.now classes.now) }
{
    let mut marks = Vec::new(alloc);
    marks.extend_from_slice(mark(decide_among(rules, &Column::Open).allowed))?;
    marks.extend_from_slice(b"     ")?;
    put_cells(&mut marks, rules, classes)?;
    Ok(marks)
}

/// A clerk's row, by the rules that are about the maildrop.
fn row_among(
    alloc: Global,
    rules: &[Rule],
    classes: &[Label],
    member: &Member,
) -> Result<Row, AllocError>
    ensures { IfOk result (λ row. row ≡ row_among rules.now classes.now member.now) }
{
    let about = of_member(alloc, rules, member)?;
    let marks = marks_among(alloc, &about, classes)?;
    Ok(Row {
        clerk: member.label,
        marks,
    })
}

fn rows_among(
    alloc: Global,
    rules: &[Rule],
    classes: &[Label],
    members: &[Member],
) -> Result<Vec<Row>, AllocError>
    ensures { IfOk result (λ rows. rows.items
        ≡ map (row_among rules.now classes.now) members.now) }
{
    let mut rows = Vec::new(alloc);
    for member in members {
        rows.push(row_among(alloc, rules, classes, member)?)?;
    }
    Ok(rows)
}

fn same_marks(row: &Row, other: &Row) -> bool
    ensures { result ≡ same_marks row.now other.now }
{
    row.marks.as_slice() == other.marks.as_slice()
}

fn is_told(row: &Row, before: &[Row]) -> bool
    ensures { result ≡ list_any (same_marks row.now) before.now }
{
    before.iter().any(|other| same_marks(row, other))
}

fn put_also(out: &mut Vec<u8>, row: &Row, other: &Row) -> Result<(), AllocError>
    ensures { OnOk result (out.new.items ≡ out.old.items ++ also row.now other.now) }
{
    if same_marks(row, other) {
        out.extend_from_slice(b", ")?;
        out.extend_from_slice(label_bytes(&other.clerk))?;
    }
    Ok(())
}

fn put_others(out: &mut Vec<u8>, row: &Row, later: &[Row]) -> Result<(), AllocError>
    ensures { OnOk result (out.new.items ≡ out.old.items ++ flat_map (also row.now) later.now) }
{
    for other in later {
        put_also(out, row, other)?;
    }
    Ok(())
}

#[tactic(auto, unfolding(crate::specs::Table::line_text))]
fn put_line(out: &mut Vec<u8>, row: &Row, later: &[Row]) -> Result<(), AllocError>
    ensures { OnOk result (out.new.items ≡ out.old.items ++ line_text row.now later.now) }
{
    out.extend_from_slice(&row.marks)?;
    out.extend_from_slice(label_bytes(&row.clerk))?;
    put_others(out, row, later)?;
    out.extend_from_slice(b"\n")
}

fn put_lines(out: &mut Vec<u8>, rows: &[Row]) -> Result<(), AllocError>
    ensures { OnOk result (out.new.items ≡ out.old.items ++ lines_text [] rows.now) }
{
    for (i, row) in rows.iter().enumerate() {
        if !is_told(row, &rows[..i]) {
            put_line(out, row, &rows[i + 1..])?;
        }
    }
    Ok(())
}

#[tactic(auto, unfolding(crate::specs::Table::class_name))]
fn put_class_name(out: &mut Vec<u8>, class: &Label) -> Result<(), AllocError>
    ensures { OnOk result (out.new.items ≡ out.old.items ++ class_name class.now) }
{
    put_padded(out, class_width(class), label_bytes(class))
}

#[tactic(auto, unfolding(crate::specs::Table::class_words))]
fn put_class_word(out: &mut Vec<u8>, class: &Label) -> Result<(), AllocError>
    ensures { OnOk result (out.new.items ≡ out.old.items ++ class_words class.now) }
{
    put_padded(out, class_width(class), b"read remove")
}

fn put_class_names(out: &mut Vec<u8>, classes: &[Label]) -> Result<(), AllocError>
    ensures { OnOk result (out.new.items ≡ out.old.items ++ flat_map class_name classes.now) }
{
    for class in classes {
        put_class_name(out, class)?;
    }
    Ok(())
}

fn put_class_words(out: &mut Vec<u8>, classes: &[Label]) -> Result<(), AllocError>
    ensures { OnOk result (out.new.items ≡ out.old.items ++ flat_map class_words classes.now) }
{
    for class in classes {
        put_class_word(out, class)?;
    }
    Ok(())
}

#[tactic(auto, unfolding(crate::specs::Table::table_head))]
fn put_head(out: &mut Vec<u8>, classes: &[Label], maildrop: &Label) -> Result<(), AllocError>
    ensures { OnOk result (out.new.items ≡ out.old.items ++ table_head classes.now maildrop.now) }
{
    out.extend_from_slice(b"maildrop ")?;
    out.extend_from_slice(label_bytes(maildrop))?;
    out.extend_from_slice(b"\nopen  ")?;
    put_class_names(out, classes)?;
    out.extend_from_slice(b"\n      ")?;
    put_class_words(out, classes)?;
    out.extend_from_slice(b"clerks\n")
}

#[tactic(auto, unfolding(crate::specs::Steps::table_among))]
fn put_table(
    out: &mut Vec<u8>,
    rules: &[Rule],
    classes: &[Label],
    members: &[Member],
    maildrop: &Label,
) -> Result<(), AllocError>
    ensures { OnOk result (out.new.items
        ≡ out.old.items ++ table_among rules.now classes.now members.now maildrop.now) }
{
    let alloc = *out.allocator();
    let about = of_maildrop(alloc, rules, maildrop)?;
    let rows = rows_among(alloc, &about, classes, members)?;
    put_head(out, classes, maildrop)?;
    put_lines(out, &rows)?;
    put(out, b"\n")
}

fn put_tables(
    out: &mut Vec<u8>,
    rules: &[Rule],
    classes: &[Label],
    members: &[Member],
    maildrops: &[Label],
) -> Result<(), AllocError>
    ensures { OnOk result (out.new.items
        ≡ out.old.items ++ flat_map (table_among rules.now classes.now members.now) maildrops.now) }
{
    for maildrop in maildrops {
        put_table(out, rules, classes, members, maildrop)?;
    }
    Ok(())
}

/// Who may do what by the policy: a table for each maildrop, its classes across, with the marks
/// `x` for allow and `.` for deny, to open, and for each class to read and to remove; after the
/// marks the clerks that have them, in the order of the names. An `Err` is want of memory.
pub fn tables(alloc: Global, policy: &Policy, names: &Names) -> Result<Vec<u8>, AllocError>
    ensures { IfOk result (λ text. text.items
        ≡ tables_text policy.now names.now.clerks.items names.now.maildrops.items
        names.now.classes.items) }
{
    let members = members_of(alloc, policy.groups(), &names.clerks)?;
    let mut text = Vec::new(alloc);
    put_tables(
        &mut text,
        policy.rules(),
        &names.classes,
        &members,
        &names.maildrops,
    )?;
    Ok(text)
}
