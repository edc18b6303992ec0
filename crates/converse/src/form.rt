//! The forms of a script's lines: a line that is read begins with the words of one of them.

ghost use Rattle.std.specs.Prelude.{◌≡◌, ℕ, List, ⊤, None, MatchOption, codes, false};
ghost use Rattle.std.specs.Prelude.{option_copied};
ghost use Rattle.std.specs.Str.{bytes_eq};
ghost use Rattle.converse.specs.Script.{clerk_command, line_by, line_of, maildrop_command};
ghost use Rattle.converse.specs.Script.{number_line, text_line, word_line};

use crate::fields::{SPACE, cut_at, take_field};

/// The form of a line, by the words that it begins with. docs/SCRIPTS.md has each, with its fields.
#[derive(Clone, Copy, Debug, PartialEq, Eq)]
pub enum Form {
    Connect,
    Bytes,
    Took,
    Drain,
    Gone,
    Tick,
    Restart,
    Deposit,
    MaildropAdd,
    MaildropDrop,
    Maildrops,
    ListMaildrop,
    Clerks,
    ClerkApop,
    ClerkPass,
    ClerkDrop,
    ClerkShow,
    Policy,
    Groups,
    Sessions,
    End,
    Explain,
}

/// The form of which a line is, or would be, by its first word; by its first two if the first is
/// `maildrop` or `clerk`. A line that begins with no form's words is none that is read.
pub fn form_of(line: &[u8]) -> Option<Form>
    ensures none { MatchOption result (line_of line.now ≡ None) (λ _. ⊤) }
{
    let (keyword, rest) = cut_at(line, SPACE);
    form_by(keyword, rest)
}

/// The same by the first word, and what stands after its space, if there is one.
fn form_by(keyword: &[u8], rest: Option<&[u8]>) -> Option<Form>
    ensures none { MatchOption result (line_by (keyword.now, option_copied rest.entry) ≡ None)
        (λ _. ⊤) }
{
    match rest {
        Some(rest) => form_before(keyword, rest),
        None => word_form(keyword),
    }
}

/// The same, if something stands after the first word.
fn form_before(keyword: &[u8], rest: &[u8]) -> Option<Form>
    ensures none { MatchOption result (text_line keyword.now rest.now ≡ None) (λ _. ⊤) }
{
    if keyword == b"clerk".as_slice() {
        clerk_form(rest)
    } else if keyword == b"maildrop".as_slice() {
        maildrop_form(rest)
    } else {
        word_form(keyword)
    }
}

/// A form by its first word, if that word is the form's only one.
fn word_form(keyword: &[u8]) -> Option<Form>
    ensures alone { MatchOption result (word_line keyword.now ≡ None) (λ _. ⊤) }
    ensures none { (rest : List ℕ) → bytes_eq keyword.now (codes "clerk") ≡ false
        → bytes_eq keyword.now (codes "maildrop") ≡ false
        → MatchOption result (text_line keyword.now rest ≡ None) (λ _. ⊤) }
{
    if keyword == b"connect".as_slice() {
        Some(Form::Connect)
    } else if keyword == b"maildrops".as_slice() {
        Some(Form::Maildrops)
    } else if keyword == b"clerks".as_slice() {
        Some(Form::Clerks)
    } else if keyword == b"policy".as_slice() {
        Some(Form::Policy)
    } else if keyword == b"groups".as_slice() {
        Some(Form::Groups)
    } else if keyword == b"sessions".as_slice() {
        Some(Form::Sessions)
    } else if keyword == b"bytes".as_slice() {
        Some(Form::Bytes)
    } else if keyword == b"deposit".as_slice() {
        Some(Form::Deposit)
    } else {
        number_form(keyword)
    }
}

/// A form without a TEXT, by its only word.
fn number_form(keyword: &[u8]) -> Option<Form>
    ensures none { (rest : List ℕ) → bytes_eq keyword.now (codes "maildrop") ≡ false
        → MatchOption result (number_line keyword.now rest ≡ None) (λ _. ⊤) }
{
    if keyword == b"took".as_slice() {
        Some(Form::Took)
    } else if keyword == b"drain".as_slice() {
        Some(Form::Drain)
    } else if keyword == b"gone".as_slice() {
        Some(Form::Gone)
    } else if keyword == b"tick".as_slice() {
        Some(Form::Tick)
    } else if keyword == b"restart".as_slice() {
        Some(Form::Restart)
    } else if keyword == b"list".as_slice() {
        Some(Form::ListMaildrop)
    } else if keyword == b"end".as_slice() {
        Some(Form::End)
    } else if keyword == b"explain".as_slice() {
        Some(Form::Explain)
    } else {
        None
    }
}

/// A form by what stands after `clerk`.
fn clerk_form(rest: &[u8]) -> Option<Form>
    ensures none { MatchOption result (clerk_command rest.now ≡ None) (λ _. ⊤) }
{
    match take_field(rest) {
        Some((word, _)) => clerk_word(word),
        None => clerk_word(rest),
    }
}

/// A form by its second word, after `clerk`.
fn clerk_word(word: &[u8]) -> Option<Form>
    ensures none { MatchOption result ((bytes_eq word.now (codes "apop") ≡ false)
        × (bytes_eq word.now (codes "pass") ≡ false) × (bytes_eq word.now (codes "drop") ≡ false)
        × (bytes_eq word.now (codes "show") ≡ false)) (λ _. ⊤) }
{
    if word == b"apop".as_slice() {
        Some(Form::ClerkApop)
    } else if word == b"pass".as_slice() {
        Some(Form::ClerkPass)
    } else if word == b"drop".as_slice() {
        Some(Form::ClerkDrop)
    } else if word == b"show".as_slice() {
        Some(Form::ClerkShow)
    } else {
        None
    }
}

/// A form by what stands after `maildrop`.
fn maildrop_form(rest: &[u8]) -> Option<Form>
    ensures none { MatchOption result (maildrop_command rest.now ≡ None) (λ _. ⊤) }
{
    match take_field(rest) {
        Some((word, _)) => maildrop_word(word),
        None => maildrop_word(rest),
    }
}

/// A form by its second word, after `maildrop`.
fn maildrop_word(word: &[u8]) -> Option<Form>
    ensures none { MatchOption result ((bytes_eq word.now (codes "add") ≡ false)
        × (bytes_eq word.now (codes "drop") ≡ false)) (λ _. ⊤) }
{
    if word == b"add".as_slice() {
        Some(Form::MaildropAdd)
    } else if word == b"drop".as_slice() {
        Some(Form::MaildropDrop)
    } else {
        None
    }
}
