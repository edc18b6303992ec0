//! The Message-ID that a mail's head has (RFC 5322, 3.6.4).
ghost use Rattle.std.specs.Prelude.{◌≡◌, true, option_map, IfSome};
ghost use Rattle.mailtext.specs.Text.{without_return};
ghost use Rattle.journal.specs.MessageIds.{is_atext as is_atext_of, is_dtext as is_dtext_of};
ghost use Rattle.journal.specs.MessageIds.{is_left, is_right, is_atoms, is_literal, is_message_id};
ghost use Rattle.journal.specs.MessageIds.{is_id_line, behind_blank, id_of_line, id_lines, only};
ghost use Rattle.journal.specs.MessageIds.{message_id_in};

/// What the line of a head with the Message-ID begins with, in letters of either case.
const FIELD: &[u8] = b"message-id:";

/// How many octets a Message-ID that is logged has at most.
const MOST_OCTETS: usize = 200;

/// Whether an octet may stand in an atom (RFC 5322, 3.2.3).
fn is_atext(octet: u8) -> bool
    ensures { result ≡ is_atext_of octet }
{
    octet.is_ascii_alphanumeric() || b"!#$%&'*+-/=?^_`{|}~".contains(&octet)
}

/// Whether an octet may stand between square brackets (RFC 5322, 3.4.1).
fn is_dtext(octet: u8) -> bool
    ensures { result ≡ is_dtext_of octet }
{
    matches!(octet, 33..=90 | 94..=126)
}

/// Whether a text is the rest of a Message-ID after its `<`: left part, `@`, right part and `>`.
/// `at_front`: at the front of an atom.
fn is_left(text: &[u8], at_front: bool) -> bool
    ensures { result ≡ is_left at_front text.now }
{
    match text.split_first() {
        None => false,
        Some((b'@', rest)) => !at_front && is_right(rest),
        Some((b'.', rest)) => !at_front && is_left(rest, true),
        Some((octet, rest)) => is_atext(*octet) && is_left(rest, false),
    }
}

/// Whether a text is the rest of a Message-ID after its `@`.
fn is_right(text: &[u8]) -> bool
    ensures { result ≡ is_right text.now }
{
    match text.split_first() {
        Some((b'[', rest)) => is_literal(rest),
        _ => is_atoms(text, true),
    }
}

/// Whether a text is atoms with dots between them, and `>`. `at_front`: at the front of an atom.
fn is_atoms(text: &[u8], at_front: bool) -> bool
    ensures { result ≡ is_atoms at_front text.now }
{
    match text.split_first() {
        None => false,
        Some((b'>', rest)) => !at_front && rest.is_empty(),
        Some((b'.', rest)) => !at_front && is_atoms(rest, true),
        Some((octet, rest)) => is_atext(*octet) && is_atoms(rest, false),
    }
}

/// Whether a text is octets that may stand between square brackets, `]` and `>`.
fn is_literal(text: &[u8]) -> bool
    ensures { result ≡ is_literal text.now }
{
    match text.split_first() {
        None => false,
        Some((b']', rest)) => rest == b">".as_slice(),
        Some((octet, rest)) => is_dtext(*octet) && is_literal(rest),
    }
}

/// Whether a text is a Message-ID of 200 octets at most, without comments or blanks.
fn is_message_id(text: &[u8]) -> bool
    ensures { result ≡ is_message_id text.now }
{
    if text.len() > MOST_OCTETS {
        return false;
    }
    match text.split_first() {
        Some((b'<', rest)) => is_left(rest, true),
        _ => false,
    }
}

/// Whether a line of a head is that of the Message-ID.
fn is_id_line(line: &[u8]) -> bool
    ensures { result ≡ is_id_line line.now }
{
    line.len() >= FIELD.len() && line[..FIELD.len()].eq_ignore_ascii_case(FIELD)
}

/// A text without one blank at its front.
fn behind_blank(text: &[u8]) -> &[u8]
    ensures { result.now ≡ behind_blank text.now }
{
    match text.split_first() {
        Some((b' ' | b'\t', rest)) => rest,
        _ => text,
    }
}

/// A text without one CR at its end.
fn without_return(text: &[u8]) -> &[u8]
    ensures { result.now ≡ without_return text.now }
{
    match text.split_last() {
        Some((last, line)) if *last == b'\r' => line,
        _ => text,
    }
}

/// The Message-ID of its line, if nothing else is on the line.
fn id_of_line(line: &[u8]) -> Option<&[u8]>
    requires { is_id_line line.now ≡ true }
    ensures { option_map (λ id. id.now) result ≡ id_of_line line.now }
{
    let id = behind_blank(without_return(&line[FIELD.len()..]));
    if is_message_id(id) { Some(id) } else { None }
}

/// The one line of a head with the Message-ID; `None` if there is no such line, or a second one.
fn only_id_line(head: &[u8]) -> Option<&[u8]>
    ensures line { option_map (λ line. line.now) result ≡ only (id_lines head.now) }
    ensures tells { IfSome result (λ line. is_id_line line.now ≡ true) }
{
    let mut start = 0;
    let mut found: Option<&[u8]> = None;
    for (i, octet) in head.iter().enumerate() {
        if *octet == b'\n' {
            if is_id_line(&head[start..i]) {
                if found.is_some() {
                    return None;
                }
                found = Some(&head[start..i]);
            }
            start = i + 1;
        }
    }
    found
}

/// The Message-ID of a mail's head, if just one of its lines has one, in this form: nothing else
/// after the field's name and at most one blank, and at most 200 octets. Otherwise `None`.
pub fn message_id(head: &[u8]) -> Option<&[u8]>
    ensures { option_map (λ id. id.now) result ≡ message_id_in head.now }
{
    id_of_line(only_id_line(head)?)
}
