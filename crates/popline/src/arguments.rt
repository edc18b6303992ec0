//! The parts of a command line (RFC 1939, 3): its words, its numbers, its digits.

ghost use Rattle.std.specs.Prelude.{◌≡◌, ◌==◌, ◌<◌, ◌∷◌, [], ◌+◌, ◌-◌, ◌*◌, ◌^◌, length, IfSome};
ghost use Rattle.std.specs.Prelude.{MatchOption, position, min};
ghost use Rattle.std.specs.List.{list_all, before_first, after_first, slice_split};
ghost use Rattle.creds.specs.Names.{is_digit};
ghost use Rattle.popline.specs.Commands.{is_space, trimmed, number_of, value_of, digest_of};

use hex::FromHex;

/// The octets before the first space, or all, and the octets after it, or none.
pub(crate) fn split_word(line: &[u8]) -> (&[u8], &[u8])
    ensures word { result.0.now ≡ before_first is_space line.now }
    ensures rest { result.1.now ≡ after_first is_space line.now }
{
    match first_space(line) {
        Some(at) => (&line[..at], &line[at + 1..]),
        None => (line, &[]),
    }
}

/// The octets before the first space and those after it; `None` if there is no space.
pub(crate) fn split_once(line: &[u8]) -> Option<(&[u8], &[u8])>
    ensures { MatchOption result (slice_split is_space line.now ≡ line.now ∷ [])
        (λ parts. slice_split is_space line.now ≡ parts.0.now ∷ slice_split is_space parts.1.now) }
{
    match first_space(line) {
        Some(at) => Some((&line[..at], &line[at + 1..])),
        None => None,
    }
}

fn first_space(line: &[u8]) -> Option<usize>
    ensures value { result ≡ position is_space line.now }
    ensures within { IfSome result (λ at. at < length line.now) }
{
    line.iter().position(|b| *b == b' ')
}

/// A line without the spaces at its end.
pub(crate) fn without_trailing_spaces(line: &[u8]) -> &[u8]
    ensures { result.now ≡ trimmed line.now }
{
    let mut rest = line;
    while let [front @ .., b' '] = rest {
        rest = front;
    }
    rest
}

/// The value of decimal digits, capped at 2^64 - 1. `None` for an empty text and for one with any
/// other octet.
pub(crate) fn read_number(digits: &[u8]) -> Option<u64>
    ensures { result ≡ number_of digits.now }
{
    if digits.is_empty() || !are_digits(digits) {
        return None;
    }
    Some(capped_value(digits))
}

fn are_digits(text: &[u8]) -> bool
    ensures { result ≡ list_all is_digit text.now }
{
    text.iter().all(|b| is_digit(*b))
}

fn is_digit(b: u8) -> bool
    ensures { result ≡ is_digit b }
{
    matches!(b, b'0'..=b'9')
}

fn capped_value(digits: &[u8]) -> u64
    ensures { result ≡ min (value_of digits.now) (2 ^ 64 - 1) }
{
    let mut value = 0u64;
    for b in digits {
        value = value
            .saturating_mul(10)
            .saturating_add(u64::from(b.saturating_sub(b'0')));
    }
    value
}

/// The 16 octets that 32 hexadecimal digits of either case write. `None` for any other text.
pub(crate) fn read_digest(digits: &[u8]) -> Option<[u8; 16]>
    ensures { result ≡ digest_of digits.now }
{
    <[u8; 16] as FromHex>::from_hex(digits).ok()
}
