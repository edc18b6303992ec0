//! Numbers as an administrator writes them: in a script, and in the path of a request.

ghost use Rattle.std.specs.Prelude.{◌≡◌, ◌^◌, ◌<◌, ◌≤◌, length, SomeIff};
ghost use Rattle.std.specs.Str.Parse.{IsNumeral, digits_value};
ghost use Rattle.office.specs.Numbers.{number_of};

use std::str;

/// The most digits of a number.
const MOST_DIGITS: usize = 20;

/// The number that 1 to 20 decimal digits write; leading zeros are allowed. `None` if there is
/// no digit, if there are more than 20 octets or another octet than a digit (a sign too), and
/// if the number is 2^64 or greater.
pub fn read_number(field: &[u8]) -> Option<u64>
    ensures { result ≡ number_of field.now }
{
    parse_number(field)
}

/// The same, in the words of std.
fn parse_number(field: &[u8]) -> Option<u64>
    ensures { SomeIff result (IsNumeral 10 field.now × (length field.now ≤ MOST_DIGITS)
        × (digits_value 10 field.now < 2 ^ 64)) (digits_value 10 field.now) }
{
    if field.len() > MOST_DIGITS || field.starts_with(b"+") {
        return None;
    }
    str::from_utf8(field).ok()?.parse().ok()
}
