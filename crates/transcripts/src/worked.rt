//! The worked rows of sessions, deposits and administration, each with the store that it begins
//! with, for the tests that refuse a growth of memory or a call of the store in them.
use crate::administration::{
    CLERKS, CREDENTIALS, DEPOSITS, DROPPED, LISTED, LOWER_CASE, OPENING, POLICIES, UPPER_CASE,
};
use crate::connections::{AFTER_A_RESTART, BEFORE_A_RESTART, GONE, IDLE, SESSIONS};
use crate::logins::{NAMES_IN_FORCE, WRONG_DIGESTS, WRONG_PASSWORDS};
use crate::pipelining::{PIPELINED, QUIT};
use crate::playing::parts_of;
use crate::sessions::{
    ARGUMENTS, EMPTY_VIEW, FILTERED_VIEW, MARKING, QUITTING, REFUSALS, RETRIEVING, SAMPLE,
    TOP_LINES, TOP_WITHOUT_HEADER_END,
};
use converse::script::{Line, read_script};
use office::{Event, Limits, Office, Outcome};
use std::alloc::Global;
use std::test::Fail;
use vault::Vault;

/// What a row begins with.
#[derive(Clone, Copy)]
pub enum Setting {
    /// An empty store.
    Empty,
    /// The sample store.
    Sample,
    /// The sample store with a note of 31,003 octets.
    Long,
    /// The store of the APOP example of RFC 1939, 7, after 1,895 connections came and went.
    Digest,
}

/// A row: its name, what it begins with, and its transcript, in parts.
pub type Row = (&'static str, Setting, &'static [&'static str]);

/// Deposits and administration.
pub static OFFICE_ROWS: [Row; 7] = [
    ("the_sample_store", Setting::Empty, &[SAMPLE]),
    ("deposits_are_answered", Setting::Empty, &[DEPOSITS]),
    (
        "dropped_maildrop_is_added_again",
        Setting::Empty,
        &[DROPPED],
    ),
    ("clerks_are_answered", Setting::Empty, &[CLERKS]),
    ("clerks_are_listed", Setting::Empty, &[LISTED]),
    ("policies_are_answered", Setting::Empty, &[POLICIES]),
    ("sessions_ended_from_outside", Setting::Sample, &[SESSIONS]),
];

/// Sessions, and what comes before them.
pub static SESSION_ROWS: [Row; 19] = [
    ("retrieve_with_dots", Setting::Sample, &[RETRIEVING]),
    (
        "top_without_header_end",
        Setting::Sample,
        &[TOP_WITHOUT_HEADER_END],
    ),
    ("top_line_counts", Setting::Sample, &[TOP_LINES]),
    ("apop_with_the_rfc_digest", Setting::Digest, &[LOWER_CASE]),
    (
        "apop_with_the_rfc_digest in upper case",
        Setting::Digest,
        &[UPPER_CASE],
    ),
    ("user_name_in_force", Setting::Sample, &[NAMES_IN_FORCE]),
    ("credentials_are_judged", Setting::Empty, &[CREDENTIALS]),
    ("empty_view", Setting::Sample, &[EMPTY_VIEW]),
    ("refusals_at_login", Setting::Sample, &[REFUSALS]),
    (
        "deposit_during_a_session",
        Setting::Sample,
        &[FILTERED_VIEW],
    ),
    ("marked_numbers_and_reset", Setting::Sample, &[MARKING]),
    ("quit_under_a_new_policy", Setting::Sample, &[QUITTING]),
    ("gone_removes_nothing", Setting::Sample, &[GONE]),
    ("idle_removes_nothing", Setting::Sample, &[IDLE]),
    (
        "unique_ids_over_a_restart",
        Setting::Sample,
        &[BEFORE_A_RESTART, "> restart 8\n", AFTER_A_RESTART],
    ),
    (
        "pipelined_retrieve_delete_quit",
        Setting::Sample,
        &[PIPELINED, QUIT],
    ),
    (
        "third_failed_login_closes",
        Setting::Sample,
        &[WRONG_PASSWORDS],
    ),
    (
        "third_failed_digest_closes",
        Setting::Sample,
        &[WRONG_DIGESTS],
    ),
    ("argument_faults", Setting::Sample, &[ARGUMENTS]),
];

/// A reply that is taken in several pieces, for which pages of a message are read.
const READING_ON: &str = "> connect
> drain 1
C: USER ann/orders
C: PASS s3 cret
C: RETR 5
C: QUIT
";

/// The row of that long reply.
pub static LONG: Row = ("long_reply", Setting::Long, &[READING_ON]);

/// What the store of the APOP example has besides, so that the tests' visitor can log in as ann.
static ANN_COMES_IN: &str = r#"> clerk pass ann s3 cret
> policy [[rule]]\nname = "open"\neffect = "allow"\nclerk = "*"\nmaildrop = "*"\nclass = "*"\nactions = ["open"]\n
"#;

/// A setting's host, boot number and number of past connections, and the transcripts that fill its
/// store.
fn begun(setting: Setting) -> (&'static str, u64, u64, [&'static str; 2]) {
    match setting {
        Setting::Empty => ("h.test", 7, 0, ["", ""]),
        Setting::Sample | Setting::Long => ("h.test", 7, 0, [SAMPLE, ""]),
        Setting::Digest => (
            "dbc.mtview.ca.us",
            697_170_952,
            1895,
            [OPENING, ANN_COMES_IN],
        ),
    }
}

/// The lines of a transcript's script.
pub fn lines_of(alloc: Global, transcript: &str) -> Result<Vec<Line>, Fail> {
    let (script, _) = parts_of(alloc, transcript)?;
    Ok(read_script(alloc, script.as_bytes())?)
}

/// The event of a line; `None` if the line isn't an event.
pub fn event_of(line: &Line) -> Option<Event<'_>> {
    match line {
        Line::Connect => Some(Event::Connect),
        Line::Bytes(c, octets) => Some(Event::Bytes(*c, octets.as_slice())),
        Line::Took(c, count) => Some(Event::Took(*c, *count)),
        Line::Gone(c) => Some(Event::Gone(*c)),
        Line::Tick(now) => Some(Event::Tick(*now)),
        Line::Restart(boot) => Some(Event::Restart(*boot)),
        Line::Deposit {
            maildrop,
            class,
            id,
            text,
        } => Some(Event::Deposit(maildrop, class, id, text.as_slice())),
        Line::Admin(command) => Some(Event::Admin(command)),
        Line::Drain(_) | Line::NoPolicy(_) => None,
    }
}

/// Opens an office over a vault.
fn opened<V: Vault + Drop>(alloc: Global, vault: V, setting: Setting) -> Result<Office<V>, Fail> {
    let (host, boot, _, _) = begun(setting);
    let limits = Limits::new(600).ok_or("idle")?;
    match Office::open(alloc, vault, host, boot, limits) {
        Ok(office) => Ok(office),
        Err((fault, _)) => Err(Fail::from(fault)),
    }
}

/// Does an event before a row. If it is refused memory, the test fails with `OutOfMemory`.
fn begin<V: Vault>(office: &mut Office<V>, event: Event<'_>) -> Result<(), Fail> {
    match office.step(event) {
        Outcome::NoMemory => Err(Fail::new("error: OutOfMemory")),
        Outcome::Failed => Err(Fail::new("failed before the row")),
        _ => Ok(()),
    }
}

/// Does what a transcript's script says before a row.
fn begin_with<V: Vault>(alloc: Global, office: &mut Office<V>, before: &str) -> Result<(), Fail> {
    let lines = lines_of(alloc, before)?;
    for line in &lines {
        if let Some(event) = event_of(line) {
            begin(office, event)?;
        }
    }
    Ok(())
}

/// Fills an empty vault with what a setting begins with, and gives it back.
pub fn filled<V: Vault + Drop>(alloc: Global, vault: V, setting: Setting) -> Result<V, Fail> {
    let (_, _, _, [before, behind]) = begun(setting);
    let mut office = opened(alloc, vault, setting)?;
    begin_with(alloc, &mut office, before)?;
    begin_with(alloc, &mut office, behind)?;
    if let Setting::Long = setting {
        let long = format!(in alloc; "> deposit orders note long x{:31000}", "")?;
        begin_with(alloc, &mut office, long.as_str())?;
    }
    Ok(office.into_vault())
}

/// An office over a filled vault, after the connections that a setting begins with.
pub fn opened_at<V: Vault + Drop>(
    alloc: Global,
    vault: V,
    setting: Setting,
) -> Result<Office<V>, Fail> {
    let mut office = opened(alloc, vault, setting)?;
    let (_, _, passed, _) = begun(setting);
    for number in 1..=passed {
        begin(&mut office, Event::Connect)?;
        begin(&mut office, Event::Gone(number))?;
    }
    Ok(office)
}
