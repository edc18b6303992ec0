//! The parts of a script's line: fields with one space between them (names, numbers), and a TEXT
//! at the end.

ghost use Rattle.std.specs.Prelude.{◌≡◌, ◌==◌, ◌+◌, ◌*◌, ◌<◌, ◌≤◌, ◌≢◌, MatchOption, length};
ghost use Rattle.std.specs.Prelude.{vec_len, IfOk, IfErr, IfSome, SomeIff, Some, None, []};
ghost use Rattle.std.specs.Prelude.{option_map, option_copied};
ghost use Rattle.std.specs.Char.{digit_value};
ghost use Rattle.std.specs.List.{position};
ghost use Rattle.converse.specs.Escapes.{behind_backslash, led, unescaped};
ghost use Rattle.converse.specs.LinePlaces.{lacks_from};
ghost use Rattle.converse.specs.Script.{cut_at as parts_at, two_fields, four_fields};

use std::alloc::{AllocError, Global};

/// What stands between two fields.
pub const SPACE: u8 = b' ';

/// The octets before the first octet `end`, and those after it; all of them, and none, if there
/// is no such octet.
pub fn cut_at(text: &[u8], end: u8) -> (&[u8], Option<&[u8]>)
    ensures { (result.0.now, option_copied result.1) ≡ parts_at (λ b. b == end) text.now }
{
    match place_of(text, end) {
        Some(at) => (&text[..at], Some(&text[at + 1..])),
        None => (text, None),
    }
}

/// Where the first octet of this kind stands.
fn place_of(text: &[u8], sought: u8) -> Option<usize>
    ensures value { result ≡ position (λ b. b == sought) text.now }
    ensures within { IfSome result (λ at. at < length text.now) }
{
    text.iter().position(|octet| *octet == sought)
}

/// A line's first field, and what stands after the space that ends it; none without a space.
pub fn take_field(line: &[u8]) -> Option<(&[u8], &[u8])>
    ensures { option_map (λ r. (r.0.now, r.1.now)) result ≡ two_fields line.now }
{
    match cut_at(line, SPACE) {
        (field, Some(rest)) => Some((field, rest)),
        (_, None) => None,
    }
}

/// Three fields, and what stands after the space after the third; or the number, from 1, of the
/// first that isn't there.
pub fn take_fields(line: &[u8]) -> Result<(&[u8], &[u8], &[u8], &[u8]), usize>
    ensures ok { IfOk result (λ r. four_fields line.now
        ≡ Some (r.0.now, r.1.now, r.2.now, r.3.now)) }
    ensures missing { IfErr result (λ n. (four_fields line.now ≡ None)
        × (lacks_from line.now ≡ n)) }
{
    let (first, rest) = take_field(line).ok_or(2usize)?;
    let (second, rest) = take_field(rest).ok_or(3usize)?;
    let (third, rest) = take_field(rest).ok_or(4usize)?;
    Ok((first, second, third, rest))
}

/// The octets that a TEXT stands for. `None` if a `\` begins no escape.
pub fn unescape(alloc: Global, text: &[u8]) -> Result<Option<Vec<u8>>, AllocError>
    ensures short { IfOk result (λ octets. IfSome octets (λ v. vec_len v ≤ length text.now)) }
    ensures is { IfOk result (λ octets. unescaped text.now ≡ option_map (λ v. v.items) octets) }
{
    let mut octets = Vec::new(alloc);
    let mut rest = text;
    while !rest.is_empty() {
        let Some((octet, after)) = next_octet(rest) else {
            return Ok(None);
        };
        octets.push(octet)?;
        rest = after;
    }
    Ok(Some(octets))
}

/// The octet that a TEXT begins with, and the TEXT after it.
fn next_octet(text: &[u8]) -> Option<(u8, &[u8])>
    ensures is { MatchOption result (text.now ≢ [] → unescaped text.now ≡ None)
        (λ r. unescaped text.now ≡ led r.0 (unescaped r.1.now)) }
    ensures shorter { IfSome result (λ r. length r.1.now < length text.now) }
{
    match text {
        [b'\\', after @ ..] => escaped_octet(after),
        [octet, after @ ..] => Some((*octet, after)),
        [] => None,
    }
}

/// Reads an escape from after its `\`: the octet that it stands for, and the TEXT after it.
fn escaped_octet(text: &[u8]) -> Option<(u8, &[u8])>
    ensures is { MatchOption result (behind_backslash text.now ≡ None)
        (λ r. behind_backslash text.now ≡ led r.0 (unescaped r.1.now)) }
    ensures shorter { IfSome result (λ r. length r.1.now < length text.now) }
{
    match text {
        [b'r', after @ ..] => Some((b'\r', after)),
        [b'n', after @ ..] => Some((b'\n', after)),
        [b'\\', after @ ..] => Some((b'\\', after)),
        [b'x', high, low, after @ ..] => Some((octet_of(*high, *low)?, after)),
        _ => None,
    }
}

/// The octet of two hexadecimal digits, which may be capitals.
fn octet_of(high: u8, low: u8) -> Option<u8>
    ensures { SomeIff result ((digit_value high < 16) × (digit_value low < 16))
        (16 * digit_value high + digit_value low) }
{
    let high = char::from(high).to_digit(16)?;
    let low = char::from(low).to_digit(16)?;
    Some((16 * high + low) as u8)
}
