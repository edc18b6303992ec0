//! Where the parts of a message in its kept form end: its lines, its header, and what TOP sends of
//! it.

ghost use Rattle.std.specs.Prelude.{◌≡◌, ◌==◌, ◌≤◌, length, take, count_by};
ghost use Rattle.mailtext.specs.Text.{kept_form, lines_of, ended, top_part, header_len};

use crate::lines::LF;

/// How many octets end a line: the lines of a kept form.
pub fn line_ends(octets: &[u8]) -> usize
    ensures { result ≡ count_by (λ octet. octet == 10) octets.now }
{
    octets.iter().filter(|octet| **octet == LF).count()
}

/// How many octets a kept form has through its first empty line, or all.
pub fn header_end(octets: &[u8]) -> usize
    requires { kept_form octets.now ≡ octets.now }
    ensures value { result ≡ header_len (lines_of octets.now) }
    ensures within { result ≤ length octets.now }
{
    let mut start = 0;
    for (i, octet) in octets.iter().enumerate() {
        if *octet == LF {
            if i - start == 1 {
                return i + 1;
            }
            start = i + 1;
        }
    }
    octets.len()
}

/// How many octets the first `n` lines of a body have, or all.
fn lines_end(body: &[u8], n: u64) -> usize
    requires { kept_form body.now ≡ body.now }
    ensures value { result ≡ length (ended (take n (lines_of body.now))) }
    ensures within { result ≤ length body.now }
{
    let mut left = n;
    for (i, octet) in body.iter().enumerate() {
        if left == 0 {
            return i;
        }
        if *octet == LF {
            left -= 1;
        }
    }
    body.len()
}

/// How many octets of a kept form TOP sends.
pub fn top_end(octets: &[u8], n: u64) -> usize
    requires { kept_form octets.now ≡ octets.now }
    ensures value { result ≡ length (ended (top_part (lines_of octets.now) n)) }
    ensures within { result ≤ length octets.now }
{
    let header = header_end(octets);
    header + lines_end(&octets[header..], n)
}
