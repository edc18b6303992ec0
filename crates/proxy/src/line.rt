//! What a proxy's first line says.
ghost use Rattle.std.specs.Prelude.{◌≡◌, ◌<◌, ◌-◌, length, true, ◌&&◌};
ghost use Rattle.std.specs.Prelude.{MatchOption, Option, IfSome, position};
ghost use Rattle.std.specs.Net.Grammar.{IsIpv4Text, IsIpv6Text};
ghost use Rattle.std.specs.declared.net.ip_addr.IpAddr.{IpAddr as Address};
ghost use Rattle.std.specs.declared.net.ipv4_addr.Ipv4Addr.{Ipv4Addr as Address4};
ghost use Rattle.std.specs.declared.net.ipv6_addr.Ipv6Addr.{Ipv6Addr as Address6};
ghost use Rattle.proxy.specs.Lines.{is_space, is_digit, word, rest as behind_word};
ghost use Rattle.proxy.specs.Lines.{are_digits_behind, is_port, AreEnds, Tells};
ghost use Rattle.proxy.specs.Lines.{IsProxyLine};

use std::net::{IpAddr, Ipv4Addr, Ipv6Addr};

/// How many octets a line has at most, its CRLF among them.
pub const MOST_OCTETS: usize = 107;

/// The first line of a link from a proxy.
#[derive(Clone, Copy, PartialEq, Eq)]
pub struct ProxyLine {
    /// The address that the client came from; `None` if the proxy doesn't know it.
    pub source: Option<IpAddr>,
}

impl ProxyLine {
    /// Reads a line, which is given with its CRLF; `None` if it's none.
    ///
    /// A line is `PROXY TCP4` or `PROXY TCP6`, the addresses of source and destination, and their
    /// ports, one space before each, or `PROXY UNKNOWN` and anything; at most 107 octets.
    pub fn read(line: &[u8]) -> Option<ProxyLine>
        ensures { MatchOption result ((source : Option Address) → ¬ (IsProxyLine line.now source))
            (λ it. IsProxyLine line.now it.source) }
    {
        if line.len() > MOST_OCTETS || line.len() < 2 {
            return None;
        }
        let (text, end) = line.split_at(line.len() - 2);
        if end != b"\r\n".as_slice() {
            return None;
        }
        let (name, rest) = split_word(text);
        if name != b"PROXY".as_slice() {
            return None;
        }
        read_source(rest)
    }
}

/// Reads what stands after `PROXY` and a space.
fn read_source(text: &[u8]) -> Option<ProxyLine>
    ensures { MatchOption result ((source : Option Address) → ¬ (Tells text.now source))
        (λ it. Tells text.now it.source) }
{
    let (family, ends) = split_word(text);
    if family == b"UNKNOWN".as_slice() {
        return Some(ProxyLine { source: None });
    }
    if family == b"TCP4".as_slice() {
        return match source_v4(ends) {
            Some(source) => Some(ProxyLine {
                source: Some(IpAddr::V4(source)),
            }),
            None => None,
        };
    }
    if family == b"TCP6".as_slice() {
        return match source_v6(ends) {
            Some(source) => Some(ProxyLine {
                source: Some(IpAddr::V6(source)),
            }),
            None => None,
        };
    }
    None
}

/// The source of a connection over IPv4.
fn source_v4(ends: &[u8]) -> Option<Ipv4Addr>
    ensures { MatchOption result ((source : Address4) → ¬ (AreEnds IsIpv4Text ends.now source))
        (AreEnds IsIpv4Text ends.now) }
{
    let (source, others) = split_word(ends);
    let (destination, ports) = split_word(others);
    if !are_ports(ports) {
        return None;
    }
    match (
        Ipv4Addr::parse_ascii(source),
        Ipv4Addr::parse_ascii(destination),
    ) {
        (Ok(source), Ok(_)) => Some(source),
        _ => None,
    }
}

/// The source of a connection over IPv6.
fn source_v6(ends: &[u8]) -> Option<Ipv6Addr>
    ensures { MatchOption result ((source : Address6) → ¬ (AreEnds IsIpv6Text ends.now source))
        (AreEnds IsIpv6Text ends.now) }
{
    let (source, others) = split_word(ends);
    let (destination, ports) = split_word(others);
    if !are_ports(ports) {
        return None;
    }
    match (
        Ipv6Addr::parse_ascii(source),
        Ipv6Addr::parse_ascii(destination),
    ) {
        (Ok(source), Ok(_)) => Some(source),
        _ => None,
    }
}

/// Two ports with a space between them.
fn are_ports(text: &[u8]) -> bool
    ensures { result ≡ (is_port (word text.now) && is_port (behind_word text.now)) }
{
    let (source, destination) = split_word(text);
    is_port(source) && is_port(destination)
}

/// A decimal number below 65,536, without a leading zero.
fn is_port(text: &[u8]) -> bool
    ensures { result ≡ is_port text.now }
{
    match text {
        [] => false,
        [b'0', others @ ..] => others.is_empty(),
        _ => are_digits_behind(0, text),
    }
}

/// Whether digits write a number below 65,536, if they stand after those of a value.
fn are_digits_behind(value: u32, digits: &[u8]) -> bool
    requires { value < 65536 }
    ensures { result ≡ are_digits_behind value digits.now }
{
    let [digit, others @ ..] = digits else {
        return true;
    };
    if !is_digit(*digit) {
        return false;
    }
    let next = value * 10 + u32::from(*digit - b'0');
    if next >= 65_536 {
        return false;
    }
    are_digits_behind(next, others)
}

/// Whether an octet is a decimal digit.
fn is_digit(b: u8) -> bool
    ensures { result ≡ is_digit b }
{
    matches!(b, b'0'..=b'9')
}

/// The octets before the first space, or all, and those after it, or none.
fn split_word(text: &[u8]) -> (&[u8], &[u8])
    ensures word { result.0.now ≡ word text.now }
    ensures rest { result.1.now ≡ behind_word text.now }
{
    match first_space(text) {
        Some(at) => (&text[..at], &text[at + 1..]),
        None => (text, &[]),
    }
}

/// Where the first space stands.
fn first_space(text: &[u8]) -> Option<usize>
    ensures value { result ≡ position is_space text.now }
    ensures within { IfSome result (λ at. at < length text.now) }
{
    text.iter().position(|b| *b == b' ')
}
