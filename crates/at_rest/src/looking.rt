//! `popbox review-policy`: a policy is looked at before it is in force.

use crate::stored::read_store;
use arguments::ReviewPolicyOptions;
use causes::{Watched, tell_bad_policy, tell_refusal, tell_unread};
use converse::review_policy::{
    review_alone, review_change, review_change_in_store, review_in_store,
};
use converse::{Fault, Noted};
use creds::Name;
use policy::Policy;
use review::{Choice, exchanged, renamed};
use std::alloc::Global;
use std::io::{BufWriter, Write};
use std::{fs, io, str};

/// Runs `popbox review-policy`: prints to standard output what the policy of the named file means.
/// The files of both policies are read first, to their ends, the new one before the old one.
pub fn run_review<E: Write>(
    rt: &HostRuntime,
    options: &ReviewPolicyOptions<'_>,
    err: &mut E,
) -> Result<u8, Fault> {
    let Some(choice) = choice_of(options) else {
        let _ = writeln!(err, "popbox: bad name");
        return Ok(1);
    };
    let new = match options.new.read(rt) {
        Ok(text) => text,
        Err(error) => {
            return Ok(tell_unread(err, options.is_verbose, options.new.name(), &error));
        }
    };
    let Some(path) = options.against else {
        return review_new(rt, new.as_slice(), &choice, options, err);
    };
    match fs::read(rt, path) {
        Ok(old) => review_both(
            rt,
            path,
            old.as_slice(),
            new.as_slice(),
            &choice,
            options,
            err,
        ),
        Err(error) => Ok(tell_unread(err, options.is_verbose, path, &error)),
    }
}

/// What the review is about; `None` if `--clerk` or `--maildrop` isn't a name.
fn choice_of(options: &ReviewPolicyOptions<'_>) -> Option<Choice> {
    let clerk = match options.clerk {
        Some(text) => Some(Name::read(text.as_bytes())?),
        None => None,
    };
    let maildrop = match options.maildrop {
        Some(text) => Some(Name::read(text.as_bytes())?),
        None => None,
    };
    Some(Choice {
        clerk,
        maildrop,
        format: options.format,
        only_changes: options.only_changes,
    })
}

/// Reviews a policy's text, beside the store that is named, if one is.
fn review_new<E: Write>(
    rt: &HostRuntime,
    new: &[u8],
    choice: &Choice,
    options: &ReviewPolicyOptions<'_>,
    err: &mut E,
) -> Result<u8, Fault> {
    let alloc: Global = rt.alloc();
    let out = BufWriter::new(alloc, io::writer(rt)).map_err(|_| Fault::OutOfMemory)?;
    let mut out = Noted::new(Watched::new(out));
    let Some(path) = options.store else {
        let status = review_alone(alloc, new, choice, &mut out, err);
        tell_why(alloc, err, options, status, new, out.inner.refusal());
        return Ok(status);
    };
    let stored = match read_store(rt, path, options.is_verbose, err) {
        Ok(stored) => stored,
        Err(status) => return Ok(status),
    };
    let (before, kept) = (&stored.policy, &stored.kept);
    let status = review_in_store(alloc, before, kept, new, choice, &mut out, err);
    tell_why(alloc, err, options, status, new, out.inner.refusal());
    Ok(status)
}

/// Reviews a policy's text against the old one's, beside the store that is named, if one is.
fn review_both<E: Write>(
    rt: &HostRuntime,
    old_name: &str,
    old: &[u8],
    new: &[u8],
    choice: &Choice,
    options: &ReviewPolicyOptions<'_>,
    err: &mut E,
) -> Result<u8, Fault> {
    let alloc: Global = rt.alloc();
    let out = BufWriter::new(alloc, io::writer(rt)).map_err(|_| Fault::OutOfMemory)?;
    let mut out = Noted::new(Watched::new(out));
    let status = match options.store {
        None => review_change(alloc, old, new, choice, &mut out, err),
        Some(path) => match read_store(rt, path, options.is_verbose, err) {
            Ok(stored) => {
                review_change_in_store(alloc, old, &stored.kept, new, choice, &mut out, err)
            }
            Err(status) => return Ok(status),
        },
    };
    if options.is_verbose && status == 1 {
        let _ = tell_bad_policy(alloc, err, old_name, old);
    }
    tell_why(alloc, err, options, status, new, out.inner.refusal());
    if options.is_verbose && status != 1 {
        tell_rules(alloc, err, old, new);
    }
    Ok(status)
}

/// Prints by `--verbose` what a fault of the new policy's text, or of standard output, is about.
fn tell_why<E: Write>(
    alloc: Global,
    err: &mut E,
    options: &ReviewPolicyOptions<'_>,
    status: u8,
    new: &[u8],
    refusal: Option<io::Error>,
) {
    if options.is_verbose && status == 1 {
        let _ = tell_bad_policy(alloc, err, options.new.name(), new);
        tell_refusal(err, "standard output", refusal);
    }
}

/// Prints which rules of the new policy say what a rule of another name said in the old one, which
/// rules are gone, and which are new.
fn tell_rules<E: Write>(alloc: Global, err: &mut E, old: &[u8], new: &[u8]) {
    let (Some(old), Some(new)) = (policy_of(alloc, old), policy_of(alloc, new)) else {
        return;
    };
    if let Ok(lines) = renamed(alloc, &old, &new) {
        let _ = err.write_all(lines.as_slice());
    }
    if let Ok(lines) = exchanged(alloc, &old, &new) {
        let _ = err.write_all(lines.as_slice());
    }
}

/// The policy that a text spells, if it is one.
fn policy_of(alloc: Global, octets: &[u8]) -> Option<Policy> {
    let text = str::from_utf8(octets).ok()?;
    Policy::read(alloc, text).ok()
}
