//! A review as JSON (RFC 8259).
ghost use Rattle.std.specs.Prelude.{◌≡◌, ◌<◌, ◌++◌, IfOk, OnOk, IfSome, codes, length};
ghost use Rattle.std.specs.List.{flat_map, position};
ghost use Rattle.std.specs.Str.{bytes_eq};
ghost use Rattle.review.specs.Cells.{rest_of};
ghost use Rattle.review.specs.CellSteps.{json_among, json_clerk};
ghost use Rattle.review.specs.Differences.{label_text, text_if};
ghost use Rattle.review.specs.Json.{comma_number, comma_quoted, decision_number};
ghost use Rattle.review.specs.Json.{json_of, json_rows, json_text};
ghost use Rattle.review.specs.Json.{number_of, numbers_list, numbers_text, open_number, pair_text};
ghost use Rattle.review.specs.Json.{signed, verdict_number};
ghost use Rattle.review.specs.Questions.{columns};

use crate::cells::{Verdict, class_of, put_rest, put_tagged, verdicts};
use crate::changes::Names;
use crate::label::{Label, label_bytes, put};
use crate::question::{Column, columns, of_clerk, of_maildrop};
use creds::Name;
use policy::{Decision, Policy, Rule};
use std::alloc::{AllocError, Global};

/// The place of the rule of this name, counted from 0.
fn place_of(rules: &[Rule], name: &Name) -> Option<usize>
    ensures place { result ≡ position (λ r. bytes_eq r.name name.now) rules.now }
    ensures within { IfSome result (λ place. place < length rules.now) }
{
    rules.iter().position(|rule| rule.name == *name)
}

/// The number of the rule of this name, counted from 1; 0, if there is none.
fn number_of(rules: &[Rule], name: &Name) -> usize
    ensures { result ≡ number_of rules.now name.now }
{
    match place_of(rules, name) {
        Some(place) => place + 1,
        None => 0,
    }
}

fn put_minus(out: &mut Vec<u8>, minus: bool) -> Result<(), AllocError>
    ensures { OnOk result (out.new.items ≡ out.old.items ++ text_if minus (codes "-")) }
{
    if minus {
        put(out, b"-")?;
    }
    Ok(())
}

fn put_signed(out: &mut Vec<u8>, allowed: bool, number: usize) -> Result<(), AllocError>
    ensures { OnOk result (out.new.items ≡ out.old.items ++ signed allowed number) }
{
    let digits = format!(in *out.allocator(); "{number}")?;
    put_minus(out, !allowed && number != 0)?;
    put(out, digits.as_bytes())
}

fn put_number(out: &mut Vec<u8>, rules: &[Rule], decision: &Decision) -> Result<(), AllocError>
    ensures { OnOk result (out.new.items
        ≡ out.old.items ++ decision_number rules.now decision.now) }
{
    put_signed(out, decision.allowed, number_of(rules, &decision.rule))
}

// ---- lists

#[tactic(auto, unfolding(crate::specs::Json::comma_quoted))]
fn put_quoted(out: &mut Vec<u8>, text: &[u8]) -> Result<(), AllocError>
    ensures { OnOk result (out.new.items ≡ out.old.items ++ comma_quoted text.now) }
{
    put(out, b",\"")?;
    put(out, text)?;
    put(out, b"\"")
}

fn quoted_labels(alloc: Global, labels: &[Label]) -> Result<Vec<u8>, AllocError>
    ensures { IfOk result (λ text. text.items
        ≡ flat_map (λ label. comma_quoted (label_text label)) labels.now) }
{
    let mut text = Vec::new(alloc);
    for label in labels {
        put_quoted(&mut text, label_bytes(label))?;
    }
    Ok(text)
}

fn quoted_rules(alloc: Global, rules: &[Rule]) -> Result<Vec<u8>, AllocError>
    ensures { IfOk result (λ text. text.items ≡ flat_map (λ r. comma_quoted r.name) rules.now) }
{
    let mut text = Vec::new(alloc);
    for rule in rules {
        put_quoted(&mut text, rule.name.as_bytes())?;
    }
    Ok(text)
}

fn put_comma_number(
    out: &mut Vec<u8>,
    rules: &[Rule],
    class: &Option<Label>,
    decision: &Decision,
) -> Result<(), AllocError>
    ensures { OnOk result (out.new.items ≡ out.old.items
        ++ comma_number class.now (decision_number rules.now decision.now)) }
{
    match class {
        None => Ok(()),
        Some(_) => {
            put(out, b",")?;
            put_number(out, rules, decision)
        }
    }
}

fn comma_numbers(
    alloc: Global,
    remove: bool,
    rules: &[Rule],
    verdicts: &[Verdict],
) -> Result<Vec<u8>, AllocError>
    ensures { IfOk result (λ text. text.items
        ≡ flat_map (verdict_number remove rules.now) verdicts.now) }
{
    let mut text = Vec::new(alloc);
    for verdict in verdicts {
        let class = class_of(&verdict.asked, remove);
        put_comma_number(&mut text, rules, &class, &verdict.is)?;
    }
    Ok(text)
}

fn put_numbers_list(
    out: &mut Vec<u8>,
    remove: bool,
    rules: &[Rule],
    verdicts: &[Verdict],
) -> Result<(), AllocError>
    ensures { OnOk result (out.new.items
        ≡ out.old.items ++ numbers_list remove rules.now verdicts.now) }
{
    let text = comma_numbers(*out.allocator(), remove, rules, verdicts)?;
    put_rest(out, &text)
}

fn put_open_number(
    out: &mut Vec<u8>,
    rules: &[Rule],
    asked: &Column,
    decision: &Decision,
) -> Result<(), AllocError>
    ensures { OnOk result (out.new.items
        ≡ out.old.items ++ open_number rules.now asked.now decision.now) }
{
    match asked {
        Column::Open => put_number(out, rules, decision),
        Column::Read(_) => Ok(()),
        Column::Remove(_) => Ok(()),
    }
}

fn put_open_numbers(
    out: &mut Vec<u8>,
    rules: &[Rule],
    verdicts: &[Verdict],
) -> Result<(), AllocError>
    ensures { OnOk result (out.new.items ≡ out.old.items
        ++ flat_map (λ v. open_number rules.now v.asked v.is) verdicts.now) }
{
    for verdict in verdicts {
        put_open_number(out, rules, &verdict.asked, &verdict.is)?;
    }
    Ok(())
}

// ---- cells

#[tactic(auto, unfolding(crate::specs::Json::pair_text))]
fn put_pair(out: &mut Vec<u8>, clerk: &Label, maildrop: &Label) -> Result<(), AllocError>
    ensures { OnOk result (out.new.items ≡ out.old.items ++ pair_text clerk.now maildrop.now) }
{
    put_tagged(out, b",\n{\"clerk\":\"", clerk, b"\",")?;
    put_tagged(out, b"\"maildrop\":\"", maildrop, b"\",\"open\":")
}

#[tactic(auto, unfolding(crate::specs::Json::numbers_text))]
fn put_numbers(out: &mut Vec<u8>, rules: &[Rule], verdicts: &[Verdict]) -> Result<(), AllocError>
    ensures { OnOk result (out.new.items
        ≡ out.old.items ++ numbers_text rules.now verdicts.now) }
{
    put_open_numbers(out, rules, verdicts)?;
    put(out, b",\"read\":[")?;
    put_numbers_list(out, false, rules, verdicts)?;
    put(out, b"],\"remove\":[")?;
    put_numbers_list(out, true, rules, verdicts)?;
    put(out, b"]}")
}

/// Appends the cell of a clerk and a maildrop, by those of the rules that are about the clerk.
#[tactic(auto, unfolding(crate::specs::CellSteps::json_among))]
fn put_maildrop(
    out: &mut Vec<u8>,
    rules: &[Rule],
    clerk: &Label,
    some: &[Rule],
    asked: &[Column],
    maildrop: &Label,
) -> Result<(), AllocError>
    ensures { OnOk result (out.new.items ≡ out.old.items
        ++ json_among rules.now clerk.now some.now asked.now maildrop.now) }
{
    let alloc = *out.allocator();
    let about = of_maildrop(alloc, some, maildrop)?;
    let all = verdicts(alloc, &about, &about, asked)?;
    put_pair(out, clerk, maildrop)?;
    put_numbers(out, rules, &all)
}

fn put_maildrops(
    out: &mut Vec<u8>,
    rules: &[Rule],
    clerk: &Label,
    some: &[Rule],
    asked: &[Column],
    maildrops: &[Label],
) -> Result<(), AllocError>
    ensures { OnOk result (out.new.items ≡ out.old.items
        ++ flat_map (json_among rules.now clerk.now some.now asked.now) maildrops.now) }
{
    for maildrop in maildrops {
        put_maildrop(out, rules, clerk, some, asked, maildrop)?;
    }
    Ok(())
}

#[tactic(auto, unfolding(crate::specs::CellSteps::json_clerk))]
fn put_clerk(
    out: &mut Vec<u8>,
    policy: &Policy,
    asked: &[Column],
    maildrops: &[Label],
    clerk: &Label,
) -> Result<(), AllocError>
    ensures { OnOk result (out.new.items
        ≡ out.old.items ++ json_clerk policy.now asked.now maildrops.now clerk.now) }
{
    let some = of_clerk(*out.allocator(), policy.groups(), policy.rules(), clerk)?;
    put_maildrops(out, policy.rules(), clerk, &some, asked, maildrops)
}

fn put_clerks(
    out: &mut Vec<u8>,
    policy: &Policy,
    asked: &[Column],
    maildrops: &[Label],
    clerks: &[Label],
) -> Result<(), AllocError>
    ensures { OnOk result (out.new.items
        ≡ out.old.items ++ flat_map (json_clerk policy.now asked.now maildrops.now) clerks.now) }
{
    for clerk in clerks {
        put_clerk(out, policy, asked, maildrops, clerk)?;
    }
    Ok(())
}

fn put_rows(
    out: &mut Vec<u8>,
    policy: &Policy,
    asked: &[Column],
    maildrops: &[Label],
    clerks: &[Label],
) -> Result<(), AllocError>
    ensures { OnOk result (out.new.items
        ≡ out.old.items ++ json_rows policy.now asked.now maildrops.now clerks.now) }
{
    put_clerks(out, policy, asked, maildrops, clerks)
}

// ---- the text

fn cells(alloc: Global, table: bool, policy: &Policy, names: &Names) -> Result<Vec<u8>, AllocError>
    ensures { IfOk result (λ text. text.items ≡ text_if table (json_rows policy.now
        (columns names.now.classes.items) names.now.maildrops.items names.now.clerks.items)) }
{
    let mut text = Vec::new(alloc);
    if table {
        let asked = columns(alloc, &names.classes)?;
        put_rows(&mut text, policy, &asked, &names.maildrops, &names.clerks)?;
    }
    Ok(text)
}

#[tactic(auto, unfolding(crate::specs::Json::json_of))]
fn put_json(out: &mut Vec<u8>, classes: &[u8], rules: &[u8], cells: &[u8]) -> Result<(), AllocError>
    ensures { OnOk result (out.new.items ≡ out.old.items
        ++ json_of (rest_of classes.now) (rest_of rules.now) (rest_of cells.now)) }
{
    put(out, b"{\"classes\":[")?;
    put_rest(out, classes)?;
    put(out, b"],\n\"rules\":[")?;
    put_rest(out, rules)?;
    put(out, b"],\n\"cells\":[")?;
    put_rest(out, cells)?;
    put(out, b"]}\n")
}

/// Who may do what by the policy, as JSON: for each clerk and maildrop the numbers of the rules
/// that decide; none of these, if no table is wanted. An `Err` is want of memory.
pub(crate) fn json(
    alloc: Global,
    table: bool,
    policy: &Policy,
    names: &Names,
) -> Result<Vec<u8>, AllocError>
    ensures { IfOk result (λ text. text.items ≡ json_text table policy.now
        names.now.clerks.items names.now.maildrops.items names.now.classes.items) }
{
    let classes = quoted_labels(alloc, &names.classes)?;
    let rules = quoted_rules(alloc, policy.rules())?;
    let cells = cells(alloc, table, policy, names)?;
    let mut text = Vec::new(alloc);
    put_json(&mut text, &classes, &rules, &cells)?;
    Ok(text)
}
