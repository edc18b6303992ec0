//! The headers that give the length of a request's body (RFC 9112, 6).

ghost use Rattle.std.specs.Prelude.{◌≡◌, nat_le, length, map, All, codes, IsTrue};
ghost use Rattle.std.specs.Prelude.{if◌then◌else◌};
ghost use Rattle.std.specs.List.{list_any, list_all};
ghost use Rattle.std.specs.Str.Parse.{digits_value};
ghost use Rattle.std.specs.Char.{is_ascii_digit, to_ascii_lowercase};
ghost use Rattle.httparse.specs.Spans.{IsHeaderWithin, header_bytes};
ghost use Rattle.adminhttp.specs.Steps.{map_ok};
ghost use Rattle.adminhttp.specs.Fields.{is_named, length_text, length_of, body_length, only};
ghost use Rattle.adminhttp.specs.Fields.{values_of};

use crate::no_command::NoCommand;
use crate::refusal::Refusal;
use httparse::spans::HeaderSpan;

/// A body has at most so many octets.
pub const MAX_BODY: usize = 1_048_576;

/// Whether a header has this name, which is given in small letters, in letters of either case.
pub fn has_name(text: &[u8], header: &HeaderSpan, word: &[u8]) -> bool
    requires within { IsHeaderWithin (length text.now) header.now }
    requires small { map to_ascii_lowercase word.now ≡ word.now }
    ensures { result ≡ is_named word.now (header_bytes text.now header.now) }
{
    header.name.of(text).eq_ignore_ascii_case(word)
}

/// Whether a header is named Transfer-Encoding.
fn is_coded(text: &[u8], headers: &[HeaderSpan]) -> bool
    requires { All (IsHeaderWithin (length text.now)) headers.now }
    ensures { result ≡ list_any (is_named (codes "transfer-encoding"))
        (map (header_bytes text.now) headers.now) }
{
    for header in headers {
        if has_name(text, header, b"transfer-encoding") {
            return true;
        }
    }
    false
}

/// The value of the one header named Content-Length. None is [`Refusal::LengthRequired`], two are
/// [`Refusal::BadRequest`].
fn only_length<'t>(text: &'t [u8], headers: &[HeaderSpan]) -> Result<&'t [u8], NoCommand>
    requires { All (IsHeaderWithin (length text.now)) headers.now }
    ensures { map_ok (λ v. v.now) result ≡ only (values_of (codes "content-length") (map (header_bytes text.now) headers.now)) }
{
    let mut found: Option<&'t [u8]> = None;
    for header in headers {
        if has_name(text, header, b"content-length") {
            if found.is_some() {
                return Err(NoCommand::Bad(Refusal::BadRequest));
            }
            found = Some(header.value.of(text));
        }
    }
    match found {
        Some(value) => Ok(value),
        None => Err(NoCommand::Bad(Refusal::LengthRequired)),
    }
}

/// The value of the one Content-Length. With a Transfer-Encoding the length isn't known:
/// [`Refusal::LengthRequired`].
fn length_field<'t>(text: &'t [u8], headers: &[HeaderSpan]) -> Result<&'t [u8], NoCommand>
    requires { All (IsHeaderWithin (length text.now)) headers.now }
    ensures { map_ok (λ v. v.now) result ≡ length_text (map (header_bytes text.now) headers.now) }
{
    if is_coded(text, headers) {
        return Err(NoCommand::Bad(Refusal::LengthRequired));
    }
    only_length(text, headers)
}

/// Whether these are decimal digits.
pub fn are_digits(value: &[u8]) -> bool
    ensures { result ≡ list_all is_ascii_digit value.now }
{
    value.iter().all(|b| b.is_ascii_digit())
}

/// The number that decimal digits write, at most 1,048,576.
pub fn read_digits(digits: &[u8]) -> Option<usize>
    requires { IsTrue (list_all is_ascii_digit digits.now) }
    ensures { result ≡ (if nat_le (digits_value 10 digits.now) MAX_BODY then Some
        (digits_value 10 digits.now) else None) }
{
    let mut length = 0;
    for digit in digits {
        length = length * 10 + (*digit - b'0') as usize;
        if length > MAX_BODY {
            return None;
        }
    }
    Some(length)
}

/// The length of a body, in octets, by the value of Content-Length: digits alone, at most
/// 1,048,576.
fn read_length(value: &[u8]) -> Result<usize, NoCommand>
    ensures { result ≡ length_of value.now }
{
    if value.is_empty() || !are_digits(value) {
        Err(NoCommand::Bad(Refusal::BadRequest))
    } else {
        match read_digits(value) {
            Some(length) => Ok(length),
            None => Err(NoCommand::Bad(Refusal::TooLarge)),
        }
    }
}

/// The length of the body that follows a head, in octets.
#[tactic(auto, unfolding(crate::specs::Fields::body_length))]
pub fn body_len(text: &[u8], headers: &[HeaderSpan]) -> Result<usize, NoCommand>
    requires { All (IsHeaderWithin (length text.now)) headers.now }
    ensures { result ≡ body_length (map (header_bytes text.now) headers.now) }
{
    let value = length_field(text, headers)?;
    read_length(value)
}
