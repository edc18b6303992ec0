//! The calls that allocate nothing are answered as ever if no memory is left.
//!
//! They are: reading a kept text and its pieces; the cutter of lines, and reading a command; names,
//! ids, secrets, the three digests and admission; a decision, and a policy's lane; a session's
//! numbers, listings, picks, marks and reset; a refusal's response; a new store of vectors, and the
//! connection of one of tables; of the office what is owed, ready and ended, its vault, and the
//! events that a client is gone, that time passes, and that the office starts again.
//!
//! tools/check-growths refuses each growth of these tests. All are growths of what a test does
//! before these calls, and end the test; these calls have none.
use crate::twins::Desk;
use crate::views::{RULES, bob_session};
use adminhttp::Refusal;
use creds::{
    Credential, DepositId, HostName, LoginName, Name, Proof, Secret, apop_digest, pass_digest,
    text_digest,
};
use mailtext::{MailText, Stuffer, TopCut, canon};
use office::{Event, Limits, Outcome};
use policy::{Action, Policy};
use popline::{Command, Cut, Cutter};
use session::Session;
use sqlvault::SqlVault;
use std::alloc::Global;
use std::test::Fail;
use transcripts::offices::name;
use transcripts::worked::{Setting, filled, opened_at};
use vault::{PlainVault, Vault};

/// A kept text: its octets, its lines, its header, and TOP with one line.
fn is_kept(text: &MailText) -> bool {
    text.bytes() == b"Subject: a\r\n\r\nhi\r\n.\r\n".as_slice()
        && text.octets() == 21
        && text.lines() == 4
        && text.header_len() == 14
        && text.top(1) == b"Subject: a\r\n\r\nhi\r\n".as_slice()
}

/// A piece that begins with a dot, and the part of a piece that TOP without lines sends.
fn are_sent() -> bool {
    let mut out = [0u8; 16];
    let counts = Stuffer::new().feed(b".x\r\n", &mut out);
    counts == (4, 5)
        && out.starts_with(b"..x\r\n")
        && TopCut::new(0).feed(b"a: b\r\n\r\nc\r\n") == 8
}

/// The cutter gives a line, and leaves what is after it.
fn is_cut() -> bool {
    let mut cutter = Cutter::new();
    let taken = cutter.feed(b"NOOP\r\nQUIT\r\n");
    match cutter.line() {
        Some(Cut::Line(line)) => taken == 6 && Command::read(line) == Ok(Command::Noop),
        _ => false,
    }
}

/// The example of RFC 1939, 7, SHA-256 of `abc` as FIPS 180-4 begins it, and a password.
fn are_admitted(mrose: &Name, ann: &Name, secret: Secret) -> bool {
    let stamp = b"<1896.697170952@dbc.mtview.ca.us>";
    let digest = apop_digest(stamp, b"tanstaaf");
    let kept = Credential::Pass(pass_digest(ann, b"s3 cret"));
    digest.starts_with(b"\xc4\xc9\x33\x4b")
        && text_digest(b"abc").starts_with(b"\xba\x78\x16\xbf")
        && Credential::Apop(secret).admits(mrose, stamp, &Proof::Apop(digest))
        && kept.admits(ann, stamp, &Proof::Pass(b"s3 cret"))
}

/// Whether a deposit id, a host name, a login name and limits are read.
fn are_read() -> bool {
    DepositId::read(b"d1").is_some()
        && HostName::read(b"h.test").is_some()
        && LoginName::read(b"ann/orders").is_some()
        && Limits::new(600).is_some()
}

/// A decision, at once and by the clerk's lane.
fn is_decided(policy: &Policy, bob: &Name, orders: &Name, note: &Name) -> bool {
    let lane = policy.lane(bob, orders);
    policy.decide(bob, orders, note, Action::Remove).allowed
        && lane.decide(note, Action::Remove).allowed
        && lane.places() == 4
}

/// The octets of a session's messages, as they are listed.
fn octets_listed(session: &Session) -> u64 {
    let mut octets = 0u64;
    for (_, size) in session.list() {
        octets = octets.saturating_add(size);
    }
    octets
}

/// How many unique-ids of a session are listed.
fn ids_listed(session: &Session) -> u32 {
    let mut count = 0u32;
    for _ in session.uidl() {
        count = count.saturating_add(1);
    }
    count
}

/// A session's picks and marks, and its reset.
fn is_marked(session: &mut Session, policy: &Policy) -> bool {
    let is_picked = session.pick(1).is_ok() && session.pick_for(1, policy).is_ok();
    let is_marked = session.mark(2, policy).is_ok();
    let is_hidden = session.pick(2).is_err() && session.stat() == (2, 46);
    session.reset();
    is_picked && is_marked && is_hidden && session.stat() == (3, 61)
}

/// Whether an event is done.
fn does<D: Desk>(desk: &mut D, event: Event<'_>) -> bool {
    matches!(desk.give(event), Outcome::Done)
}

/// Whether three clients connect: one that is then gone, one that is idle, and one at a new start.
fn come<D: Desk>(desk: &mut D) -> bool {
    for _ in 0..3u32 {
        if !matches!(desk.give(Event::Connect), Outcome::Opened(_)) {
            return false;
        }
    }
    true
}

/// Takes what a connection is owed. Whether it is ready then.
fn takes<D: Desk>(desk: &mut D, c: u64) -> bool {
    let count = desk.lends(c).len();
    does(desk, Event::Took(c, count)) && desk.is_ready(c)
}

/// Whether each of the three connections is ended by its event.
fn are_ended<D: Desk>(desk: &mut D) -> bool {
    does(desk, Event::Gone(1))
        && desk.is_over(1)
        && does(desk, Event::Tick(10))
        && takes(desk, 3)
        && does(desk, Event::Tick(605))
        && desk.is_over(2)
        && !desk.is_over(3)
        && does(desk, Event::Restart(8))
        && desk.is_over(3)
        && desk.lends(3).is_empty()
}

/// Fails unless an office over this vault answers these events as ever. Gives the vault back.
fn events_take_none<V: Vault + Drop>(alloc: Global, vault: V) -> Result<V, Fail> {
    let vault = filled(alloc, vault, Setting::Sample)?;
    let mut office = opened_at(alloc, vault, Setting::Sample)?;
    if !come(&mut office) {
        return Err(Fail::new("error: OutOfMemory"));
    }
    if are_ended(&mut office) {
        Ok(office.into_vault())
    } else {
        Err(Fail::new("ended otherwise"))
    }
}

#[test]
fn no_growths_of_texts_and_lines(rt: HostRuntime) -> Result<(), Fail> {
    let text = canon(rt.alloc(), b"Subject: a\n\nhi\n.\n")?;
    assert!(rt; is_kept(&text));
    assert!(rt; are_sent() && is_cut());
    assert!(rt;
        Refusal::BadRequest
            .bytes()
            .starts_with(b"HTTP/1.1 400 Bad Request\r\n")
    );
    Ok(())
}

#[test]
fn no_growths_of_names_and_digests(rt: HostRuntime) -> Result<(), Fail> {
    let secret = Secret::read(b"tanstaaf").ok_or("a secret")?;
    assert!(rt; are_read() && are_admitted(&name("mrose")?, &name("ann")?, secret));
    Ok(())
}

#[test]
fn no_growths_of_policies_and_sessions(rt: HostRuntime) -> Result<(), Fail> {
    let policy = Policy::read(rt.alloc(), RULES)?;
    let mut session = bob_session(rt.alloc(), &policy)?;
    assert!(rt; is_decided(&policy, &name("bob")?, &name("orders")?, &name("note")?));
    assert!(rt; octets_listed(&session) == 61 && ids_listed(&session) == 3);
    assert!(rt; is_marked(&mut session, &policy));
    Ok(())
}

#[test]
fn no_growths_of_events(rt: HostRuntime) -> Result<(), Fail> {
    let _ = events_take_none(rt.alloc(), PlainVault::new(rt.alloc()))?;
    Ok(())
}

#[test]
fn no_growths_of_events_over_tables(rt: HostRuntime) -> Result<(), Fail> {
    let vault = events_take_none(rt.alloc(), SqlVault::in_memory(rt.alloc())?)?;
    assert!(rt; vault.into_connection().is_autocommit());
    Ok(())
}
