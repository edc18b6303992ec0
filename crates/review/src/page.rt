//! A review as one page of HTML.
ghost use Rattle.std.specs.Fmt.{decimal};
ghost use Rattle.std.specs.Prelude.{◌≡◌, ◌<◌, ◌+◌, ◌++◌, IfOk, OnOk, codes, false, length};
ghost use Rattle.std.specs.Prelude.{slice_get, true};
ghost use Rattle.std.specs.List.{flat_map};
ghost use Rattle.policy.specs.Policy.{allows};
ghost use Rattle.policy.specs.WrittenText.{clerks_text, pattern_text};
ghost use Rattle.review.specs.CellSteps.{cell_among, row_of};
ghost use Rattle.review.specs.Cells.{has_become};
ghost use Rattle.review.specs.Differences.{becoming, change_lines, column_text, effect_word};
ghost use Rattle.review.specs.Differences.{questions, text_if};
ghost use Rattle.review.specs.Page.{about_cells, actions_text, before_text, cell_text};
ghost use Rattle.review.specs.Page.{changes_section};
ghost use Rattle.review.specs.Page.{changes_of_questions, clerk_row, column_row, compared_text};
ghost use Rattle.review.specs.Page.{decision_link, lines_shown, maildrop_head, marks};
ghost use Rattle.review.specs.Page.{notes_section, page_text, rule_head, rule_row, rules_end};
ghost use Rattle.review.specs.Page.{rules_head, rules_section, rows_of, source_section};
ghost use Rattle.review.specs.Page.{verdict_row, who_head, who_table};
ghost use Rattle.review.specs.Places.{text_at, text_by_rule};
ghost use Rattle.review.specs.Questions.{columns};

use crate::cells::{Verdict, has_become, put_level, put_tagged, put_words, verdicts};
use crate::changes::{Change, Names, becomes, effect_word, put_change_lines, put_decision};
use crate::escape::put_escaped;
use crate::label::{Label, put};
use crate::question::{Column, columns, of_clerk, of_maildrop};
use crate::style::page_head;
use policy::{Actions, Clerks, Decision, Effect, Pattern, Policy, Rule};
use std::alloc::{AllocError, Global};

// ---- who may do what

fn put_given(out: &mut Vec<u8>, given: bool) -> Result<(), AllocError>
    ensures { OnOk result (out.new.items
        ≡ out.old.items ++ text_if given (codes " <b class=\"up\">&#9650; given</b>")) }
{
    if given {
        put(out, b" <b class=\"up\">&#9650; given</b>")?;
    }
    Ok(())
}

fn put_taken(out: &mut Vec<u8>, taken: bool) -> Result<(), AllocError>
    ensures { OnOk result (out.new.items
        ≡ out.old.items ++ text_if taken (codes " <b class=\"down\">&#9660; taken</b>")) }
{
    if taken {
        put(out, b" <b class=\"down\">&#9660; taken</b>")?;
    }
    Ok(())
}

fn put_marks(out: &mut Vec<u8>, given: bool, taken: bool) -> Result<(), AllocError>
    ensures { OnOk result (out.new.items ≡ out.old.items ++ marks given taken) }
{
    put_given(out, given)?;
    put_taken(out, taken)
}

#[tactic(auto, unfolding(crate::specs::Page::decision_link))]
fn put_decision_link(out: &mut Vec<u8>, decision: &Decision) -> Result<(), AllocError>
    ensures { OnOk result (out.new.items ≡ out.old.items ++ decision_link decision.now) }
{
    put(out, effect_word(decision.allowed).as_bytes())?;
    put(out, b" by <a href=\"#rule-")?;
    put(out, decision.rule.as_bytes())?;
    put(out, b"\">")?;
    put(out, decision.rule.as_bytes())?;
    put(out, b"</a>")
}

fn put_before(out: &mut Vec<u8>, given: bool, taken: bool, was: &Decision) -> Result<(), AllocError>
    ensures { OnOk result (out.new.items ≡ out.old.items ++ before_text given taken was.now) }
{
    if given || taken {
        put(out, b", before: ")?;
        put_decision(out, was)?;
    }
    Ok(())
}

fn put_column(out: &mut Vec<u8>, asked: &Column) -> Result<(), AllocError>
    ensures { OnOk result (out.new.items ≡ out.old.items ++ column_text asked.now) }
{
    let words = format!(in *out.allocator(); "{asked}")?;
    put(out, words.as_bytes())
}

#[tactic(auto, unfolding(crate::specs::Page::column_row))]
fn put_column_row(
    out: &mut Vec<u8>,
    given: bool,
    taken: bool,
    verdict: &Verdict,
) -> Result<(), AllocError>
    ensures { OnOk result (out.new.items ≡ out.old.items ++ column_row given taken verdict.now) }
{
    put(out, b"<tr><th scope=\"row\">")?;
    put_column(out, &verdict.asked)?;
    put(out, b"</th><td>")?;
    put_decision_link(out, &verdict.is)?;
    put_marks(out, given, taken)?;
    put_before(out, given, taken, &verdict.was)?;
    put(out, b"</td></tr>\n")
}

fn put_verdict_row(out: &mut Vec<u8>, verdict: &Verdict) -> Result<(), AllocError>
    ensures { OnOk result (out.new.items ≡ out.old.items ++ verdict_row verdict.now) }
{
    let given = becomes(true, &verdict.was, &verdict.is);
    let taken = becomes(false, &verdict.was, &verdict.is);
    put_column_row(out, given, taken, verdict)
}

fn put_verdict_rows(out: &mut Vec<u8>, verdicts: &[Verdict]) -> Result<(), AllocError>
    ensures { OnOk result (out.new.items ≡ out.old.items ++ flat_map verdict_row verdicts.now) }
{
    for verdict in verdicts {
        put_verdict_row(out, verdict)?;
    }
    Ok(())
}

/// Appends what was given and what was taken among the decisions of a cell.
fn put_marks_of(out: &mut Vec<u8>, verdicts: &[Verdict]) -> Result<(), AllocError>
    ensures { OnOk result (out.new.items ≡ out.old.items
        ++ marks (has_become true verdicts.now) (has_become false verdicts.now)) }
{
    let given = has_become(true, verdicts);
    let taken = has_become(false, verdicts);
    put_marks(out, given, taken)
}

#[tactic(auto, unfolding(crate::specs::Page::cell_text))]
fn put_cell(out: &mut Vec<u8>, verdicts: &[Verdict]) -> Result<(), AllocError>
    ensures { OnOk result (out.new.items ≡ out.old.items ++ cell_text verdicts.now) }
{
    put(out, b"<td class=\"")?;
    put_level(out, verdicts)?;
    put(out, b"\"><details><summary>")?;
    put_words(out, verdicts)?;
    put_marks_of(out, verdicts)?;
    put(out, b"</summary><table>\n")?;
    put_verdict_rows(out, verdicts)?;
    put(out, b"</table></details></td>\n")
}

/// Appends the cell of a maildrop, by the rules that are about the clerk.
#[tactic(auto, unfolding(crate::specs::CellSteps::cell_among))]
fn put_maildrop(
    out: &mut Vec<u8>,
    olds: &[Rule],
    news: &[Rule],
    asked: &[Column],
    maildrop: &Label,
) -> Result<(), AllocError>
    ensures { OnOk result (out.new.items ≡ out.old.items
        ++ cell_among olds.now news.now asked.now maildrop.now) }
{
    let alloc = *out.allocator();
    let old = of_maildrop(alloc, olds, maildrop)?;
    let new = of_maildrop(alloc, news, maildrop)?;
    let all = verdicts(alloc, &old, &new, asked)?;
    put_cell(out, &all)
}

fn put_maildrops(
    out: &mut Vec<u8>,
    olds: &[Rule],
    news: &[Rule],
    asked: &[Column],
    maildrops: &[Label],
) -> Result<(), AllocError>
    ensures { OnOk result (out.new.items
        ≡ out.old.items ++ flat_map (cell_among olds.now news.now asked.now) maildrops.now) }
{
    for maildrop in maildrops {
        put_maildrop(out, olds, news, asked, maildrop)?;
    }
    Ok(())
}

#[tactic(auto, unfolding(crate::specs::Page::clerk_row))]
fn put_row(out: &mut Vec<u8>, clerk: &Label, cells: &[u8]) -> Result<(), AllocError>
    ensures { OnOk result (out.new.items ≡ out.old.items ++ clerk_row clerk.now cells.now) }
{
    put_tagged(out, b"<tr><th scope=\"row\">", clerk, b"</th>")?;
    put(out, cells)?;
    put(out, b"</tr>\n")
}

/// Appends a clerk's row.
#[tactic(auto, unfolding(crate::specs::CellSteps::row_of))]
fn put_clerk(
    out: &mut Vec<u8>,
    old: &Policy,
    new: &Policy,
    asked: &[Column],
    maildrops: &[Label],
    clerk: &Label,
) -> Result<(), AllocError>
    ensures { OnOk result (out.new.items
        ≡ out.old.items ++ row_of old.now new.now asked.now maildrops.now clerk.now) }
{
    let alloc = *out.allocator();
    let olds = of_clerk(alloc, old.groups(), old.rules(), clerk)?;
    let news = of_clerk(alloc, new.groups(), new.rules(), clerk)?;
    let mut cells = Vec::new(alloc);
    put_maildrops(&mut cells, &olds, &news, asked, maildrops)?;
    put_row(out, clerk, &cells)
}

fn put_clerks(
    out: &mut Vec<u8>,
    old: &Policy,
    new: &Policy,
    asked: &[Column],
    maildrops: &[Label],
    clerks: &[Label],
) -> Result<(), AllocError>
    ensures { OnOk result (out.new.items
        ≡ out.old.items ++ flat_map (row_of old.now new.now asked.now maildrops.now) clerks.now) }
{
    for clerk in clerks {
        put_clerk(out, old, new, asked, maildrops, clerk)?;
    }
    Ok(())
}

fn put_rows(
    out: &mut Vec<u8>,
    old: &Policy,
    new: &Policy,
    asked: &[Column],
    maildrops: &[Label],
    clerks: &[Label],
) -> Result<(), AllocError>
    ensures { OnOk result (out.new.items
        ≡ out.old.items ++ rows_of old.now new.now asked.now maildrops.now clerks.now) }
{
    put_clerks(out, old, new, asked, maildrops, clerks)
}

#[tactic(auto, unfolding(crate::specs::Page::maildrop_head))]
fn put_maildrop_head(out: &mut Vec<u8>, maildrop: &Label) -> Result<(), AllocError>
    ensures { OnOk result (out.new.items ≡ out.old.items ++ maildrop_head maildrop.now) }
{
    put_tagged(out, b"<th scope=\"col\">", maildrop, b"</th>\n")
}

fn put_maildrop_heads(out: &mut Vec<u8>, maildrops: &[Label]) -> Result<(), AllocError>
    ensures { OnOk result (out.new.items ≡ out.old.items ++ flat_map maildrop_head maildrops.now) }
{
    for maildrop in maildrops {
        put_maildrop_head(out, maildrop)?;
    }
    Ok(())
}

#[tactic(auto, unfolding(crate::specs::Page::who_head))]
fn put_who_head(out: &mut Vec<u8>, maildrops: &[Label]) -> Result<(), AllocError>
    ensures { OnOk result (out.new.items ≡ out.old.items ++ who_head maildrops.now) }
{
    put(
        out,
        b"<h2>Who may do what</h2>\n<p>Each cell says what the clerk may do with the messages \
          of the maildrop, by their class. An opened cell has each decision and its rule. \
          (others) stands for each name that isn't here.</p>\n\
          <div class=\"scroll\" tabindex=\"0\"><table class=\"who\">\n\
          <caption>Clerks down, maildrops across</caption>\n\
          <thead><tr><th scope=\"col\">clerk</th>\n",
    )?;
    put_maildrop_heads(out, maildrops)?;
    put(out, b"</tr></thead>\n<tbody>\n")
}

#[tactic(auto, unfolding(crate::specs::Page::who_table))]
fn put_who(
    out: &mut Vec<u8>,
    old: &Policy,
    new: &Policy,
    asked: &[Column],
    maildrops: &[Label],
    clerks: &[Label],
) -> Result<(), AllocError>
    ensures { OnOk result (out.new.items ≡ out.old.items ++ who_table maildrops.now
        (rows_of old.now new.now asked.now maildrops.now clerks.now)) }
{
    put_who_head(out, maildrops)?;
    put_rows(out, old, new, asked, maildrops, clerks)?;
    put(out, b"</tbody></table></div>\n")
}

// ---- what changes, and what to look at

/// Appends lines as they are printed for a reader.
fn put_lines(out: &mut Vec<u8>, lines: &[u8]) -> Result<(), AllocError>
    ensures { OnOk result (out.new.items ≡ out.old.items ++ lines_shown lines.now) }
{
    if lines.is_empty() {
        put(out, b"nothing\n")
    } else {
        put_escaped(out, lines)
    }
}

#[tactic(auto, unfolding(crate::specs::Page::changes_section))]
fn put_changes(out: &mut Vec<u8>, given: &[u8], taken: &[u8]) -> Result<(), AllocError>
    ensures { OnOk result (out.new.items ≡ out.old.items ++ changes_section given.now taken.now) }
{
    put(
        out,
        b"<h2>What changes</h2>\n<h3>&#9650; Given</h3>\n<pre class=\"up\">",
    )?;
    put_lines(out, given)?;
    put(out, b"</pre>\n<h3>&#9660; Taken</h3>\n<pre class=\"down\">")?;
    put_lines(out, taken)?;
    put(out, b"</pre>\n")
}

/// The lines of what is given, or of what is taken.
fn lines_of(
    alloc: Global,
    allowed: bool,
    old: &Policy,
    new: &Policy,
    names: &Names,
    asked: &[Column],
) -> Result<Vec<u8>, AllocError>
    ensures { IfOk result (λ lines. lines.items ≡ change_lines old.now new.now
        (becoming allowed old.now new.now
        (questions names.now.clerks.items names.now.maildrops.items asked.now))) }
{
    let mut lines = Vec::new(alloc);
    let change = Change { allowed, old, new };
    put_change_lines(&mut lines, &change, names, asked)?;
    Ok(lines)
}

fn put_changes_of(
    out: &mut Vec<u8>,
    old: &Policy,
    new: &Policy,
    names: &Names,
    asked: &[Column],
) -> Result<(), AllocError>
    ensures { OnOk result (out.new.items ≡ out.old.items
        ++ changes_of_questions old.now new.now
        (questions names.now.clerks.items names.now.maildrops.items asked.now)) }
{
    let alloc = *out.allocator();
    let given = lines_of(alloc, true, old, new, names, asked)?;
    let taken = lines_of(alloc, false, old, new, names, asked)?;
    put_changes(out, &given, &taken)
}

#[tactic(auto, unfolding(crate::specs::Page::notes_section))]
fn put_notes(out: &mut Vec<u8>, notes: &[u8]) -> Result<(), AllocError>
    ensures { OnOk result (out.new.items ≡ out.old.items ++ notes_section notes.now) }
{
    put(out, b"<h2>What to look at</h2>\n<pre>")?;
    put_lines(out, notes)?;
    put(out, b"</pre>\n")
}

// ---- the rules, and the policy's text

fn put_action(out: &mut Vec<u8>, listed: bool, word: &[u8]) -> Result<(), AllocError>
    ensures { OnOk result (out.new.items ≡ out.old.items ++ text_if listed word.now) }
{
    if listed {
        put(out, word)?;
    }
    Ok(())
}

fn put_actions(out: &mut Vec<u8>, actions: &Actions) -> Result<(), AllocError>
    ensures { OnOk result (out.new.items ≡ out.old.items ++ actions_text actions.now) }
{
    put_action(out, actions.open, b" open")?;
    put_action(out, actions.read, b" read")?;
    put_action(out, actions.remove, b" remove")
}

fn put_pattern(out: &mut Vec<u8>, pattern: &Pattern) -> Result<(), AllocError>
    ensures { OnOk result (out.new.items ≡ out.old.items ++ pattern_text pattern.now) }
{
    match pattern {
        Pattern::Any => put(out, b"*"),
        Pattern::Is(name) => put(out, name.as_bytes()),
    }
}

fn put_group(out: &mut Vec<u8>, name: &[u8]) -> Result<(), AllocError>
    ensures { OnOk result (out.new.items ≡ out.old.items ++ (codes "@" ++ name.now)) }
{
    put(out, b"@")?;
    put(out, name)
}

fn put_clerks_of_rule(out: &mut Vec<u8>, clerks: &Clerks) -> Result<(), AllocError>
    ensures { OnOk result (out.new.items ≡ out.old.items ++ clerks_text clerks.now) }
{
    match clerks {
        Clerks::Any => put(out, b"*"),
        Clerks::Is(name) => put(out, name.as_bytes()),
        Clerks::MembersOf(name) => put_group(out, name.as_bytes()),
    }
}

fn put_effect(out: &mut Vec<u8>, effect: &Effect) -> Result<(), AllocError>
    ensures { OnOk result (out.new.items ≡ out.old.items ++ effect_word (allows effect.now)) }
{
    match effect {
        Effect::Allow => put(out, b"allow"),
        Effect::Deny => put(out, b"deny"),
    }
}

#[tactic(auto, unfolding(crate::specs::Page::about_cells))]
fn put_about(out: &mut Vec<u8>, rule: &Rule) -> Result<(), AllocError>
    ensures { OnOk result (out.new.items ≡ out.old.items ++ about_cells rule.now) }
{
    put(out, b"</th><td>")?;
    put_effect(out, &rule.effect)?;
    put(out, b"</td><td>")?;
    put_clerks_of_rule(out, &rule.clerk)?;
    put(out, b"</td><td>")?;
    put_pattern(out, &rule.maildrop)?;
    put(out, b"</td><td>")?;
    put_pattern(out, &rule.class)?;
    put(out, b"</td><td>")?;
    put_actions(out, &rule.actions)?;
    put(out, b"</td></tr>\n")
}

fn put_number(out: &mut Vec<u8>, place: usize) -> Result<(), AllocError>
    requires { place < 18446744073709551615 }
    ensures { OnOk result (out.new.items ≡ out.old.items ++ decimal (place + 1)) }
{
    let number = place + 1;
    let digits = format!(in *out.allocator(); "{number}")?;
    put(out, digits.as_bytes())
}

#[tactic(auto, unfolding(crate::specs::Page::rule_head))]
fn put_rule_head(out: &mut Vec<u8>, place: usize, rule: &Rule) -> Result<(), AllocError>
    requires { place < 18446744073709551615 }
    ensures { OnOk result (out.new.items ≡ out.old.items ++ rule_head place rule.now) }
{
    put(out, b"<tr id=\"rule-")?;
    put(out, rule.name.as_bytes())?;
    put(out, b"\"><td>")?;
    put_number(out, place)?;
    put(out, b"</td><th scope=\"row\">")?;
    put(out, rule.name.as_bytes())
}

fn put_rule_at(out: &mut Vec<u8>, rules: &[Rule], place: usize) -> Result<(), AllocError>
    requires { place < length rules.now }
    ensures { OnOk result (out.new.items
        ≡ out.old.items ++ text_at rule_row place (slice_get rules.now place)) }
{
    let Some(rule) = rules.get(place) else {
        return Ok(());
    };
    put_rule_head(out, place, rule)?;
    put_about(out, rule)
}

fn put_rule_rows(out: &mut Vec<u8>, rules: &[Rule]) -> Result<(), AllocError>
    ensures { OnOk result (out.new.items ≡ out.old.items ++ text_by_rule rule_row rules.now) }
{
    for place in 0..rules.len() {
        put_rule_at(out, rules, place)?;
    }
    Ok(())
}

#[tactic(auto, unfolding(crate::specs::Page::rules_head))]
fn put_rules_head(out: &mut Vec<u8>) -> Result<(), AllocError>
    ensures { OnOk result (out.new.items ≡ out.old.items ++ rules_head) }
{
    put(
        out,
        b"<h2>The rules</h2>\n<div class=\"scroll\" tabindex=\"0\"><table>\n\
          <caption>The first rule that matches decides</caption>\n\
          <thead><tr><th scope=\"col\">number</th>\
          <th scope=\"col\">rule</th><th scope=\"col\">effect</th>\
          <th scope=\"col\">clerk</th><th scope=\"col\">maildrop</th>\
          <th scope=\"col\">class</th><th scope=\"col\">actions</th></tr></thead>\n<tbody>\n",
    )
}

#[tactic(auto, unfolding(crate::specs::Page::rules_end))]
fn put_rules_end(out: &mut Vec<u8>) -> Result<(), AllocError>
    ensures { OnOk result (out.new.items ≡ out.old.items ++ rules_end) }
{
    put(
        out,
        b"<tr id=\"rule-default\"><td></td><th scope=\"row\">default</th><td>deny</td>\
          <td colspan=\"4\">if no rule matches</td></tr>\n</tbody></table></div>\n",
    )
}

fn put_rules(out: &mut Vec<u8>, rules: &[Rule]) -> Result<(), AllocError>
    ensures { OnOk result (out.new.items ≡ out.old.items ++ rules_section rules.now) }
{
    put_rules_head(out)?;
    put_rule_rows(out, rules)?;
    put_rules_end(out)
}

#[tactic(auto, unfolding(crate::specs::Page::source_section))]
fn put_source(out: &mut Vec<u8>, source: &[u8]) -> Result<(), AllocError>
    ensures { OnOk result (out.new.items ≡ out.old.items ++ source_section source.now) }
{
    put(out, b"<h2>The policy's text</h2>\n<pre>\n")?;
    put_escaped(out, source)?;
    put(out, b"</pre>\n</main>\n</body>\n</html>\n")
}

// ---- the page

/// Which parts a page has beside the rest.
#[derive(Clone, Copy, PartialEq, Eq)]
pub(crate) struct Parts {
    /// The table of who may do what.
    pub(crate) table: bool,
    /// What the new policy changes.
    pub(crate) changes: bool,
}

fn put_who_if(
    out: &mut Vec<u8>,
    table: bool,
    old: &Policy,
    new: &Policy,
    names: &Names,
    asked: &[Column],
) -> Result<(), AllocError>
    ensures { OnOk result (out.new.items ≡ out.old.items ++ text_if table
        (who_table names.now.maildrops.items (rows_of old.now new.now asked.now
        names.now.maildrops.items names.now.clerks.items))) }
{
    if table {
        put_who(out, old, new, asked, &names.maildrops, &names.clerks)?;
    }
    Ok(())
}

fn put_changes_if(
    out: &mut Vec<u8>,
    compared: bool,
    old: &Policy,
    new: &Policy,
    names: &Names,
    asked: &[Column],
) -> Result<(), AllocError>
    ensures { OnOk result (out.new.items ≡ out.old.items ++ text_if compared
        (changes_of_questions old.now new.now
        (questions names.now.clerks.items names.now.maildrops.items asked.now))) }
{
    if compared {
        put_changes_of(out, old, new, names, asked)?;
    }
    Ok(())
}

fn put_compared(
    out: &mut Vec<u8>,
    parts: Parts,
    old: &Policy,
    new: &Policy,
    names: &Names,
    asked: &[Column],
) -> Result<(), AllocError>
    ensures { OnOk result (out.new.items ≡ out.old.items
        ++ compared_text parts.table parts.changes old.now new.now names.now.clerks.items
        names.now.maildrops.items asked.now) }
{
    put_who_if(out, parts.table, old, new, names, asked)?;
    put_changes_if(out, parts.changes, old, new, names, asked)
}

/// The page of a review of two policies about these names: who may do what by the new one, what
/// it changes, these notes, its rules, and the text that it was read from. An `Err` is want of
/// memory.
pub(crate) fn page(
    alloc: Global,
    parts: Parts,
    old: &Policy,
    new: &Policy,
    names: &Names,
    notes: &[u8],
    source: &[u8],
) -> Result<Vec<u8>, AllocError>
    ensures { IfOk result (λ text. text.items
        ≡ page_text parts.table parts.changes old.now new.now names.now.clerks.items
        names.now.maildrops.items names.now.classes.items notes.now source.now) }
{
    let asked = columns(alloc, &names.classes)?;
    let mut text = Vec::new(alloc);
    put(&mut text, page_head())?;
    put_compared(&mut text, parts, old, new, names, &asked)?;
    put_notes(&mut text, notes)?;
    put_rules(&mut text, new.rules())?;
    put_source(&mut text, source)?;
    Ok(text)
}
