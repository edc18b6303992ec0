//! Tests of replay that no transcript can show: the octets of lines and escapes, a line that comes
//! in two pieces, cut at each place, and refused files.

use converse::Flushed;
use converse::replay::{replay, tell, write_escaped};
use converse::script::{Line, read_script};
use creds::{Credential, Secret};
use office::{AdminCommand, Outcome};
use session::Removals;
use std::alloc::{AllocError, Global};
use std::io;
use std::io::{Read, Write};
use std::test::Fail;
use transcripts::playing::{Refusing, plays};
use vault::PlainVault;

/// Writes transcript lines that send a line in two pieces, on a connection of its own, and take the
/// reply.
fn write_cut(
    text: &mut String,
    at: usize,
    front: &str,
    back: &str,
    reply: &str,
) -> Result<(), AllocError> {
    writeln!(
        text,
        "> connect\nopened {at}\n> drain {at}\nsent {at} +OK POP3 server ready <{at}.7@h.test>\\r\\n\ndone"
    )?;
    writeln!(
        text,
        "> bytes {at} {front}\ndone\n> bytes {at} {back}\ndone\n> drain {at}\nsent {at} {reply}\\r\\n\ndone"
    )?;
    writeln!(text, "> gone {at}\ndone\nended {at}")
}

/// Fails unless `NOOP`, `spaces` spaces and a line end have this reply, wherever the line is cut in
/// two pieces.
fn cut_everywhere(alloc: Global, spaces: usize, end: &str, reply: &str) -> Result<(), Fail> {
    let line = format!(in alloc; "NOOP{:spaces$}{end}", "")?;
    let mut text = String::new(alloc);
    for at in 1..=spaces.saturating_add(4) {
        if let Some((front, back)) = line.as_str().split_at_checked(at) {
            write_cut(&mut text, at, front, back, reply)?;
        }
    }
    plays(alloc, text.as_str())
}

#[test]
fn line_length_limit(rt: HostRuntime) -> Result<(), Fail> {
    let alloc = rt.alloc();
    cut_everywhere(alloc, 249, r"\r\n", "-ERR wrong state")?;
    cut_everywhere(alloc, 250, r"\r\n", "-ERR line too long")?;
    cut_everywhere(alloc, 250, r"\n", "-ERR wrong state")
}

/// Whether the escapes of a line are read.
fn are_read(alloc: Global) -> Result<bool, Fail> {
    let script = b"bytes 1 a \\r\\n\\\\\\x00\\xfF\\x5c\x80 \r\n";
    let octets = b"a \r\n\\\x00\xff\\\x80 \r".as_slice();
    let lines = read_script(alloc, script)?;
    match lines.as_slice() {
        [Line::Bytes(1, piece)] => Ok(piece.as_slice() == octets),
        _ => Ok(false),
    }
}

#[test]
fn escapes(rt: HostRuntime) -> Result<(), Fail> {
    let alloc = rt.alloc();
    assert!(rt; are_read(alloc)?);
    let mut out = Vec::new(alloc);
    write_escaped(&mut out, b"a ~\r\n\\\x00\t\x1f\x7f\xff")?;
    tell(alloc, &mut out, &Outcome::Failed)?;
    assert!(rt; out.as_slice() == b"a ~\\r\\n\\\\\\x00\\x09\\x1f\\x7f\\xfffailed\n".as_slice());
    Ok(())
}

/// SHA-256 of `ann:s3 cret`.
static ANN_DIGEST: [u8; 32] = [
    0xb4, 0x3a, 0x46, 0x7a, 0x63, 0xf3, 0xc6, 0xf0, 0x8c, 0xee, 0x5d, 0x50, 0x81, 0xae, 0x0b, 0x9d,
    0xe2, 0x4a, 0xb8, 0x66, 0x3c, 0xdc, 0xa7, 0x39, 0xaa, 0x85, 0x4a, 0xbb, 0x29, 0x86, 0x18, 0x20,
];

/// Whether a line gives a clerk this credential.
fn gives(line: &Line, clerk: &str, wanted: &Credential) -> bool {
    match line {
        Line::Admin(AdminCommand::PutClerk(name, credential)) => {
            name.as_str() == clerk && *credential == *wanted
        }
        _ => false,
    }
}

/// Whether two lines give ann her password's digest, and mrose a secret that begins with a space.
fn give_both(lines: &[Line]) -> bool {
    let Some(secret) = Secret::read(b" tanstaaf") else {
        return false;
    };
    lines.len() == 2
        && gives(&lines[0], "ann", &Credential::Pass(ANN_DIGEST))
        && gives(&lines[1], "mrose", &Credential::Apop(secret))
}

#[test]
fn credentials_are_read(rt: HostRuntime) -> Result<(), Fail> {
    let script = b"clerk pass ann s3 cret\nclerk apop mrose  tan\\x73taaf";
    assert!(rt; give_both(read_script(rt.alloc(), script)?.as_slice()));
    Ok(())
}

/// Whether a run of a script whose output is refused has status 1. Its fault goes to `err`.
fn is_refused<R: Read>(alloc: Global, script: &mut R, err: &mut Vec<u8>) -> bool {
    let vault = PlainVault::new(alloc);
    let removals = Removals::JudgedAtDele;
    let mut out = Flushed::new(Refusing);
    let (status, _) = replay(alloc, script, vault, "h", 1, removals, &mut out, err);
    status == 1
}

/// A writer that takes all, and counts how often it is flushed.
#[derive(Drop)]
struct Counting {
    flushes: u64,
}

impl Write for Counting {
    fn write(&mut self, octets: &[u8]) -> io::Result<usize> {
        Ok(octets.len())
    }

    fn flush(&mut self) -> io::Result<()> {
        self.flushes = self.flushes.saturating_add(1);
        Ok(())
    }
}

/// The writer inside is flushed after each line, and at the end.
#[test]
fn each_outcome_is_flushed(rt: HostRuntime) -> Result<(), Fail> {
    let alloc = rt.alloc();
    let mut script = b"connect\ntick 1\nmaildrops\n".as_slice();
    let vault = PlainVault::new(alloc);
    let removals = Removals::JudgedAtDele;
    let mut out = Flushed::new(Counting { flushes: 0 });
    let mut err = Vec::new(alloc);
    let (status, _) = replay(
        alloc,
        &mut script,
        vault,
        "h",
        1,
        removals,
        &mut out,
        &mut err,
    );
    assert!(rt; status == 0);
    assert_eq!(rt; out.inner.flushes, 4);
    Ok(())
}

#[test]
fn refused_files(rt: HostRuntime) -> Result<(), Fail> {
    let alloc = rt.alloc();
    let mut err = Vec::new(alloc);
    let (mut script, mut empty) = (b"connect".as_slice(), b"".as_slice());
    let are_refused = is_refused(alloc, &mut Refusing, &mut err)
        && is_refused(alloc, &mut script, &mut err)
        && is_refused(alloc, &mut empty, &mut err);
    let want = b"popbox: cannot read file\npopbox: cannot write\npopbox: cannot write\n";
    assert!(rt; are_refused && err.as_slice() == want.as_slice());
    Ok(())
}
