//! Which requests are the administration's own: the headers Host, Origin and Sec-Fetch-Site.

ghost use Rattle.std.specs.Prelude.{◌≡◌, ◌<◌, length, map, All, codes, option_map, IfSome};
ghost use Rattle.std.specs.List.{list_any, list_all, before_first, position, slice_split};
ghost use Rattle.httparse.specs.Spans.{IsHeaderWithin, header_bytes};
ghost use Rattle.adminhttp.specs.Fields.{values_of};
ghost use Rattle.adminhttp.specs.Sites.{is_alike, is_port, is_at, is_octet, is_loopback, is_colon};
ghost use Rattle.adminhttp.specs.Sites.{is_dot, is_at_loopback, is_own_host, is_origin};
ghost use Rattle.adminhttp.specs.Sites.{is_own_origin, is_own_fetch, tells_another, is_own};
ghost use Rattle.adminhttp.specs.Sites.{only_one};

use crate::fields::{are_digits, has_name, read_digits};
use creds::HostName;
use httparse::spans::HeaderSpan;

/// Whether two texts are the same, in letters of either case.
fn is_alike(one: &[u8], other: &[u8]) -> bool
    ensures { result ≡ is_alike one.now other.now }
{
    one.eq_ignore_ascii_case(other)
}

/// Whether this may stand after a host: nothing, or a port.
fn is_port(text: &[u8]) -> bool
    ensures { result ≡ is_port text.now }
{
    match text {
        [] => true,
        [b, digits @ ..] => *b == b':' && are_digits(digits),
    }
}

/// Whether a value of Host is this host, with a port or without.
fn is_at(host: &[u8], value: &[u8]) -> bool
    ensures { result ≡ is_at host.now value.now }
{
    let len = value.len().min(host.len());
    is_alike(&value[..len], host) && is_port(&value[len..])
}

/// Whether this is an octet of an address, in decimal digits.
fn is_octet(part: &[u8]) -> bool
    ensures { result ≡ is_octet part.now }
{
    if part.is_empty() || !are_digits(part) {
        return false;
    }
    match read_digits(part) {
        Some(octet) => octet <= 255,
        None => false,
    }
}

/// Whether the parts between the dots of a host are octets.
fn are_octets(host: &[u8]) -> bool
    ensures { result ≡ list_all is_octet (slice_split is_dot host.now) }
{
    host.split(|&b| b == b'.').all(|part| is_octet(part))
}

/// How many parts a host has between its dots.
fn count_parts(host: &[u8]) -> usize
    ensures { result ≡ length (slice_split is_dot host.now) }
{
    host.split(|&b| b == b'.').count()
}

/// Whether a host is an address of 127.0.0.0/8.
fn is_loopback(host: &[u8]) -> bool
    ensures { result ≡ is_loopback host.now }
{
    host.starts_with(b"127.") && count_parts(host) == 4 && are_octets(host)
}

/// Where the first colon stands.
fn colon_in(value: &[u8]) -> Option<usize>
    ensures value { result ≡ position is_colon value.now }
    ensures within { IfSome result (λ at. at < length value.now) }
{
    value.iter().position(|b| *b == b':')
}

/// A value of Host up to its first colon.
fn before_colon(value: &[u8]) -> &[u8]
    ensures { result.now ≡ before_first is_colon value.now }
{
    match colon_in(value) {
        Some(at) => &value[..at],
        None => value,
    }
}

/// Whether a value of Host is an address of 127.0.0.0/8, with a port or without.
fn is_at_loopback(value: &[u8]) -> bool
    ensures { result ≡ is_at_loopback value.now }
{
    let host = before_colon(value);
    is_loopback(host) && is_at(host, value)
}

/// Whether a value of Host names the site, or this machine.
fn is_own_host(site: &[u8], value: &[u8]) -> bool
    ensures { result ≡ is_own_host site.now value.now }
{
    is_at(site, value)
        || is_at(b"localhost", value)
        || is_at(b"[::1]", value)
        || is_at_loopback(value)
}

/// Whether a value of Origin is of this scheme and Host.
fn is_origin(scheme: &[u8], host: &[u8], value: &[u8]) -> bool
    ensures { result ≡ is_origin scheme.now host.now value.now }
{
    value.starts_with(scheme) && is_alike(&value[scheme.len()..], host)
}

/// Whether a value of Origin is the page's that came from this Host.
fn is_own_origin(host: &[u8], value: &[u8]) -> bool
    ensures { result ≡ is_own_origin host.now value.now }
{
    is_origin(b"http://", host, value) || is_origin(b"https://", host, value)
}

/// Whether a value of Sec-Fetch-Site names the same origin, or that no page sent the request.
fn is_own_fetch(value: &[u8]) -> bool
    ensures { result ≡ is_own_fetch value.now }
{
    value == b"same-origin".as_slice() || value == b"none".as_slice()
}

/// Whether a header names another origin than this Host's.
fn tells_another(host: &[u8], text: &[u8], header: &HeaderSpan) -> bool
    requires { IsHeaderWithin (length text.now) header.now }
    ensures { result ≡ tells_another host.now (header_bytes text.now header.now) }
{
    let value = header.value.of(text);
    if has_name(text, header, b"origin") && !is_own_origin(host, value) {
        return true;
    }
    has_name(text, header, b"sec-fetch-site") && !is_own_fetch(value)
}

/// Whether one of the headers does.
fn any_tells_another(host: &[u8], text: &[u8], headers: &[HeaderSpan]) -> bool
    requires { All (IsHeaderWithin (length text.now)) headers.now }
    ensures { result ≡ list_any (tells_another host.now)
        (map (header_bytes text.now) headers.now) }
{
    for header in headers {
        if tells_another(host, text, header) {
            return true;
        }
    }
    false
}

/// The value of Host, if there is exactly one.
fn only_host<'t>(text: &'t [u8], headers: &[HeaderSpan]) -> Option<&'t [u8]>
    requires { All (IsHeaderWithin (length text.now)) headers.now }
    ensures { option_map (λ v. v.now) result
        ≡ only_one (values_of (codes "host") (map (header_bytes text.now) headers.now)) }
{
    let mut found: Option<&'t [u8]> = None;
    for header in headers {
        if has_name(text, header, b"host") {
            if found.is_some() {
                return None;
            }
            found = Some(header.value.of(text));
        }
    }
    found
}

/// Whether a request of these headers is the site's own. Without a site each is.
pub fn is_own(site: &Option<HostName>, text: &[u8], headers: &[HeaderSpan]) -> bool
    requires { All (IsHeaderWithin (length text.now)) headers.now }
    ensures { result ≡ is_own site.now (map (header_bytes text.now) headers.now) }
{
    let Some(site) = site else {
        return true;
    };
    let Some(host) = only_host(text, headers) else {
        return false;
    };
    is_own_host(site.as_bytes(), host) && !any_tells_another(host, text, headers)
}
