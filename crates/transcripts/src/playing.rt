//! Runs scripts, and compares what they print.

use converse::replay::replay;
use session::Removals;
use sqlvault::SqlVault;
use std::alloc::Global;
use std::io::{ErrorKind, Read, Write};
use std::test::Fail;
use std::{io, str};
use vault::{PlainVault, Vault};

/// What a run printed, as one text: standard output and, if there was a fault, the exit status
/// in brackets and standard error.
pub fn run_text(alloc: Global, status: u8, out: &[u8], err: &[u8]) -> Result<String, Fail> {
    let mut text = String::from_str(alloc, str::from_utf8(out)?)?;
    if status != 0 || !err.is_empty() {
        let fault = str::from_utf8(err)?;
        write!(text, "[{status}] {fault}")?;
    }
    Ok(text)
}

/// Runs a script over a store, at a host name and with a boot number, and gives the store back.
pub fn run_on<V: Vault + Drop>(
    alloc: Global,
    vault: V,
    host: &str,
    boot: u64,
    script: &str,
) -> Result<(String, V), Fail> {
    let mut script = script.as_bytes();
    let mut out = Vec::new(alloc);
    let mut err = Vec::new(alloc);
    let removals = Removals::JudgedAtDele;
    let (status, vault) = replay(
        alloc,
        &mut script,
        vault,
        host,
        boot,
        removals,
        &mut out,
        &mut err,
    );
    let text = run_text(alloc, status, out.as_slice(), err.as_slice())?;
    Ok((text, vault))
}

/// Runs a script over an empty store, at a host name and with a boot number.
pub fn run_at(alloc: Global, host: &str, boot: u64, script: &str) -> Result<String, Fail> {
    let (ran, _) = run_on(alloc, PlainVault::new(alloc), host, boot, script)?;
    Ok(ran)
}

/// Fails with what a run printed, unless it is what is wanted.
pub fn expect(ran: String, want: &str) -> Result<(), Fail> {
    if ran.as_str() == want {
        Ok(())
    } else {
        Err(Fail::from(ran))
    }
}

/// Splits a transcript into its script and what that must print. `> X` is the line X of the script.
/// `C: X` has connection 1 send the line X and then take all that it is owed, which `S: Y` says is
/// the reply Y. Every other line must be printed as it stands.
pub fn parts_of(alloc: Global, transcript: &str) -> Result<(String, String), Fail> {
    let mut script = String::new(alloc);
    let mut want = String::new(alloc);
    for line in transcript.lines() {
        if let Some(event) = line.strip_prefix("> ") {
            writeln!(script, "{event}")?;
        } else if let Some(said) = line.strip_prefix("C: ") {
            writeln!(script, "bytes 1 {said}\\r\\n\ndrain 1")?;
        } else if let Some(reply) = line.strip_prefix("S: ") {
            writeln!(want, "done\nsent 1 {reply}\\r\\n\ndone")?;
        } else {
            writeln!(want, "{line}")?;
        }
    }
    Ok((script, want))
}

/// Fails unless a transcript's script prints what it must, over an empty store of vectors.
pub fn plays_over_vectors(alloc: Global, transcript: &str) -> Result<(), Fail> {
    let (script, want) = parts_of(alloc, transcript)?;
    expect(run_at(alloc, "h.test", 7, script.as_str())?, want.as_str())
}

/// Fails unless it does so over an empty store of vectors and over one of tables.
pub fn plays(alloc: Global, transcript: &str) -> Result<(), Fail> {
    plays_over_vectors(alloc, transcript)?;
    let (script, want) = parts_of(alloc, transcript)?;
    let vault = SqlVault::in_memory(alloc)?;
    let (ran, _) = run_on(alloc, vault, "h.test", 7, script.as_str())?;
    expect(ran, want.as_str())
}

/// A reader and writer that refuses every call.
#[derive(Drop)]
pub struct Refusing;

impl Read for Refusing {
    fn read(&mut self, _: &mut [u8]) -> io::Result<usize> {
        Err(io::Error::from(ErrorKind::PermissionDenied))
    }
}

impl Write for Refusing {
    fn write(&mut self, _: &[u8]) -> io::Result<usize> {
        Err(io::Error::from(ErrorKind::BrokenPipe))
    }

    fn flush(&mut self) -> io::Result<()> {
        Err(io::Error::from(ErrorKind::BrokenPipe))
    }
}
