//! Why a line of a script isn't an event: which of its fields hasn't the form that it must have.
//! The script's reader says which word that is; here it is worded.

use converse::form::{Form, form_of};
use converse::replay::write_escaped;
use converse::script::read_line;
use std::alloc::Global;
use std::io;
use std::io::Write;

/// What a field of a line is, which says the form that it must have.
#[derive(Clone, Copy)]
enum Kind {
    Number,
    Name,
    Id,
    Action,
    /// The rest of a line, with escapes. It is never printed.
    Text,
    /// A text that stands for a clerk's secret or password. It is never printed.
    Secret,
}

/// The words that a form of lines begins with, and the names and kinds of its fields.
#[derive(Clone, Copy)]
struct Row {
    words: &'static str,
    fields: &'static [(&'static str, Kind)],
}

const C: (&str, Kind) = ("C", Kind::Number);

const N: (&str, Kind) = ("N", Kind::Number);

const NAME: (&str, Kind) = ("NAME", Kind::Name);

const CLERK: (&str, Kind) = ("CLERK", Kind::Name);

const MAILDROP: (&str, Kind) = ("MAILDROP", Kind::Name);

const CLASS: (&str, Kind) = ("CLASS", Kind::Name);

const TEXT: (&str, Kind) = ("TEXT", Kind::Text);

const SECRET: (&str, Kind) = ("TEXT", Kind::Secret);

/// The words and the fields of a form, as docs/SCRIPTS.md has them.
fn row_of(form: Form) -> Row {
    match form {
        Form::Connect => with_fields("connect", &[]),
        Form::Bytes => with_fields("bytes", &[C, TEXT]),
        Form::Took => with_fields("took", &[C, N]),
        Form::Drain => with_fields("drain", &[C]),
        Form::Gone => with_fields("gone", &[C]),
        Form::Tick => with_fields("tick", &[N]),
        Form::Restart => with_fields("restart", &[N]),
        Form::Deposit => with_fields("deposit", &[MAILDROP, CLASS, ("ID", Kind::Id), TEXT]),
        Form::MaildropAdd => with_fields("maildrop add", &[NAME]),
        Form::MaildropDrop => with_fields("maildrop drop", &[NAME]),
        Form::Maildrops => with_fields("maildrops", &[]),
        Form::Clerks => with_fields("clerks", &[]),
        Form::ListMaildrop => with_fields("list", &[NAME]),
        Form::ClerkApop => with_fields("clerk apop", &[NAME, SECRET]),
        Form::ClerkPass => with_fields("clerk pass", &[NAME, SECRET]),
        Form::ClerkDrop => with_fields("clerk drop", &[NAME]),
        Form::ClerkShow => with_fields("clerk show", &[NAME]),
        Form::Policy => with_fields("policy", &[TEXT]),
        Form::Groups => with_fields("groups", &[]),
        Form::Sessions => with_fields("sessions", &[]),
        Form::End => with_fields("end", &[C]),
        Form::Explain => with_fields(
            "explain",
            &[CLERK, MAILDROP, CLASS, ("ACTION", Kind::Action)],
        ),
    }
}

/// These words and fields.
fn with_fields(words: &'static str, fields: &'static [(&'static str, Kind)]) -> Row {
    Row { words, fields }
}

/// Prints why a script's line isn't an event; nothing if it is one. Lines are counted from 1.
pub fn tell_bad_line<E: Write>(
    alloc: Global,
    err: &mut E,
    name: &str,
    number: u64,
    line: &[u8],
) -> io::Result<()> {
    let Ok(Err(place)) = read_line(alloc, line) else {
        return Ok(());
    };
    write!(err, "why: {name}, line {number}: ")?;
    if line.ends_with(b"\r") {
        return writeln!(err, "it ends with CR LF, and LF alone ends a line");
    }
    if let Some(form) = form_of(line) {
        return tell_word(err, row_of(form), line, place);
    }
    write!(err, "no event begins with ")?;
    tell_value(err, first_words(line))?;
    writeln!(err)
}

/// The word that a line begins with; after `maildrop` and `clerk` the next one too.
fn first_words(line: &[u8]) -> &[u8] {
    let is_pair = line.starts_with(b"maildrop ") || line.starts_with(b"clerk ");
    let mut words = line.split(|octet| *octet == b' ');
    let first = words.next().unwrap_or(line).len();
    let second = words.next().map_or(0, |word| word.len().saturating_add(1));
    let count = if is_pair {
        first.saturating_add(second)
    } else {
        first
    };
    &line[..count.min(line.len())]
}

/// Prints the word of this place, counted from 0, by the field of the form that it is. If the form
/// has a TEXT, no word is printed: if a field is left out, it is one of that text.
fn tell_word<E: Write>(err: &mut E, row: Row, line: &[u8], place: usize) -> io::Result<()> {
    tell_form(err, row)?;
    let words = count_of(row.words);
    let at = place.saturating_sub(words);
    let Some((field, kind)) = row.fields.get(at) else {
        return writeln!(err, "nothing may stand behind it");
    };
    let Some(rest) = text_from(line, words.saturating_add(at)) else {
        return writeln!(err, "{field} is missing");
    };
    if row.fields.iter().any(|(_, kind)| is_text(*kind)) {
        return tell_untold(err, field, *kind);
    }
    let is_last = at.saturating_add(1) == row.fields.len();
    tell_field(err, field, *kind, rest, is_last)
}

/// How many words these are: one, or two with a space between them.
fn count_of(words: &str) -> usize {
    if words.as_bytes().iter().any(|octet| *octet == b' ') {
        2
    } else {
        1
    }
}

/// A line from the word of this place on, if it has so many.
fn text_from(line: &[u8], place: usize) -> Option<&[u8]> {
    let mut rest = line;
    for _ in 0..place {
        rest = behind_space(rest)?;
    }
    Some(rest)
}

/// What stands after the first space.
fn behind_space(text: &[u8]) -> Option<&[u8]> {
    let at = text.iter().position(|octet| *octet == b' ')?;
    text.get(at.saturating_add(1)..)
}

/// Prints the form that a line must have.
fn tell_form<E: Write>(err: &mut E, row: Row) -> io::Result<()> {
    write!(err, "`{}", row.words)?;
    for (field, _) in row.fields {
        write!(err, " {field}")?;
    }
    write!(err, "`: ")
}

/// Whether a field is the rest of its line, with any words.
fn is_text(kind: Kind) -> bool {
    matches!(kind, Kind::Text | Kind::Secret)
}

/// The form that a field must have.
fn form_text(kind: Kind) -> &'static str {
    match kind {
        Kind::Number => "1 to 20 digits, below 2^64",
        Kind::Name => "1 to 32 of a-z, 0-9 and -",
        Kind::Id => "1 to 64 of a-z, A-Z, 0-9, - and _",
        Kind::Action => "open, read or remove",
        Kind::Text => "a text with the escapes \\r, \\n, \\\\ and \\xHH",
        Kind::Secret => "1 to 128 octets from 0x20 to 0x7E",
    }
}

/// Prints the form that a field must have, and not its value.
fn tell_untold<E: Write>(err: &mut E, field: &str, kind: Kind) -> io::Result<()> {
    match kind {
        Kind::Text => {
            writeln!(
                err,
                "a \\ in {field} begins none of \\r, \\n, \\\\ and \\xHH"
            )
        }
        Kind::Secret => writeln!(err, "{field} stands for no {}", form_text(kind)),
        _ => writeln!(err, "{field} isn't {}", form_text(kind)),
    }
}

/// Prints the first word of what stands at a field's place, and what is wrong with it: the form that
/// it must have, or that more stands after the last field.
fn tell_field<E: Write>(
    err: &mut E,
    field: &str,
    kind: Kind,
    rest: &[u8],
    is_last: bool,
) -> io::Result<()> {
    let word = rest.split(|octet| *octet == b' ').next().unwrap_or(rest);
    write!(err, "{field} is ")?;
    tell_value(err, word)?;
    if is_last && word.len() < rest.len() {
        writeln!(err, ", and more stands behind it")
    } else {
        writeln!(err, ", and not {}", form_text(kind))
    }
}

/// How many octets of a value are printed at most.
const MOST: usize = 64;

/// Prints a value with the escapes of scripts; of a long value its first octets.
pub(super) fn tell_value<E: Write>(err: &mut E, value: &[u8]) -> io::Result<()> {
    write!(err, "`")?;
    match value.get(..MOST) {
        Some(start) => {
            write_escaped(err, start)?;
            write!(err, "..`")
        }
        None => {
            write_escaped(err, value)?;
            write!(err, "`")
        }
    }
}
