//! Tests of `check_policy`: octets that no transcript can show, and each refusal.

use converse::check_policy::check_policy;
use converse::{Noted, Sink};
use std::alloc::Global;
use std::io::{BufWriter, Write};
use std::test::Fail;
use transcripts::playing::{Refusing, expect, run_text};

/// Fails unless the check of these octets prints this.
fn expect_check(alloc: Global, octets: &[u8], want: &str) -> Result<(), Fail> {
    let mut out = Noted::new(Vec::new(alloc));
    let mut err = Vec::new(alloc);
    let status = check_policy(alloc, octets, &mut out, &mut err);
    expect(
        run_text(alloc, status, out.inner.as_slice(), err.as_slice())?,
        want,
    )
}

#[test]
fn octets_that_are_no_text(rt: HostRuntime) -> Result<(), Fail> {
    expect_check(rt.alloc(), b"# \xff\n", "[1] popbox: NotToml\n")
}

/// Whether the check of these octets has status 1.
fn is_refused<W: Sink, E: Write>(alloc: Global, octets: &[u8], out: &mut W, err: &mut E) -> bool {
    check_policy(alloc, octets, out, err) == 1
}

#[test]
fn refused_octets(rt: HostRuntime) -> Result<(), Fail> {
    let alloc = rt.alloc();
    let mut late = Noted::new(BufWriter::new(alloc, Refusing)?);
    let (mut out, mut err) = (Noted::new(Vec::new(alloc)), Vec::new(alloc));
    let are_refused = is_refused(alloc, b"", &mut Noted::new(Refusing), &mut err)
        && is_refused(alloc, b"", &mut late, &mut err)
        && is_refused(alloc, b"x = 1", &mut out, &mut Refusing);
    let want = b"popbox: cannot write\npopbox: cannot write\n";
    assert!(rt; are_refused && out.inner.is_empty() && err.as_slice() == want.as_slice());
    Ok(())
}
