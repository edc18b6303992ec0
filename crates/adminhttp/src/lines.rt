//! Where the head of a request begins and ends, by its lines.

ghost use Rattle.std.specs.Prelude.{◌≡◌, ◌+◌, ◌≤◌, length, true, IfSome, if◌then◌else◌};
ghost use Rattle.adminhttp.specs.Lines.{empty_line, empty_lines, through_empty_line};

/// The octets of the empty line that a text begins with, LF or CR LF; 0 if it begins with none.
fn empty_line_len(text: &[u8]) -> usize
    ensures value { result ≡ empty_line text.now }
    ensures within { result ≤ length text.now }
{
    match text {
        [b'\n', ..] => 1,
        [b'\r', b'\n', ..] => 2,
        _ => 0,
    }
}

/// How many octets the empty lines in front of a request have.
pub fn empty_lines_len(octets: &[u8]) -> usize
    ensures value { result ≡ empty_lines octets.now }
    ensures within { result ≤ length octets.now }
{
    let mut at = 0;
    'lines: while at < octets.len() {
        let len = empty_line_len(&octets[at..]);
        if len == 0 {
            break;
        }
        at += len;
    }
    at
}

/// The same if the text stands at the beginning of a line, as `fresh` says; else 0.
fn end_len(fresh: bool, text: &[u8]) -> usize
    ensures value { result ≡ (if fresh then empty_line text.now else 0) }
    ensures within { result ≤ length text.now }
{
    if fresh { empty_line_len(text) } else { 0 }
}

/// How many octets a head has, its empty line with them; `None` if none has come.
pub fn head_len(octets: &[u8]) -> Option<usize>
    ensures value { result ≡ through_empty_line true octets.now }
    ensures within { IfSome result (λ n. n ≤ length octets.now) }
{
    let mut fresh = true;
    for i in 0..octets.len() {
        let len = end_len(fresh, &octets[i..]);
        if len > 0 {
            return Some(i + len);
        }
        fresh = octets[i] == b'\n';
    }
    None
}
