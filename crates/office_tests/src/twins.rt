//! Two offices that are given the same events. In one of them, `tested`, a growth of memory or a
//! call of the store is refused; in the other, `free`, nothing is. The first event that meets the
//! refusal must change nothing or end its connection, and all others must be answered alike.
use converse::replay::tell;
use converse::script::{Line, read_script};
use office::{Event, Office, Outcome};
use std::alloc::Global;
use std::test::Fail;
use transcripts::looks::LOOK;
use transcripts::worked::{Row, event_of, lines_of};
use vault::Vault;

/// An office, as these tests use it: without clauses, so that their proofs need not carry them.
pub trait Desk {
    /// Does an event.
    fn give(&mut self, event: Event<'_>) -> Outcome;

    /// What a connection is owed.
    fn lends(&self, c: u64) -> &[u8];

    /// Whether a connection is open and owed nothing.
    fn is_ready(&self, c: u64) -> bool;

    /// Whether a connection has ended.
    fn is_over(&self, c: u64) -> bool;
}

impl<V: Vault> Desk for Office<V> {
    fn give(&mut self, event: Event<'_>) -> Outcome {
        self.step(event)
    }

    fn lends(&self, c: u64) -> &[u8] {
        self.owed(c)
    }

    fn is_ready(&self, c: u64) -> bool {
        self.ready(c)
    }

    fn is_over(&self, c: u64) -> bool {
        self.ended(c)
    }
}

/// An office in which something is refused, and one in which nothing is.
#[derive(Drop)]
pub struct Twins<T: Desk, F: Desk> {
    alloc: Global,
    pub tested: T,
    free: F,
    /// The commands that list all that an office keeps.
    look: Vec<Line>,
    /// Whether a growth is refused, or else a call of the store.
    is_growth: bool,
    /// Whether an event met the refusal.
    pub is_met: bool,
}

/// What is wrong.
type Wrong = &'static str;

/// What a test says whose own memory is refused, and not an event's.
const OWN: Wrong = "error: OutOfMemory";

/// The replies if the store refused a call: to a QUIT, and to any other line.
static QUIT_FAILED: &[u8] = b"-ERR some deleted messages not removed\r\n";

static LINE_FAILED: &[u8] = b"-ERR store failed\r\n";

/// The most pieces in which a client takes a reply.
const TAKINGS: u32 = 100;

/// The lines that a new connection sends after a refusal.
static VISIT: [&str; 4] = [
    "USER ann/orders\r\n",
    "PASS s3 cret\r\n",
    "LIST\r\n",
    "QUIT\r\n",
];

/// Two offices that keep the same.
pub fn twins_of<T: Desk + Drop, F: Desk + Drop>(
    alloc: Global,
    tested: T,
    free: F,
    is_growth: bool,
) -> Result<Twins<T, F>, Fail> {
    Ok(Twins {
        alloc,
        tested,
        free,
        look: read_script(alloc, LOOK.as_bytes())?,
        is_growth,
        is_met: false,
    })
}

/// Fails with `wrong` unless this holds.
fn expect(holds: bool, wrong: Wrong) -> Result<(), Wrong> {
    if holds { Ok(()) } else { Err(wrong) }
}

/// Puts an outcome after a text, as replay prints it.
fn put(alloc: Global, text: &mut Vec<u8>, outcome: &Outcome) -> Result<(), Wrong> {
    match tell(alloc, text, outcome) {
        Ok(()) => Ok(()),
        Err(_) => Err(OWN),
    }
}

/// What an office keeps, as it answers the commands of `look`. These take memory; a refusal of it
/// is the test's own, unless an event of the row met one before.
fn kept<D: Desk>(
    alloc: Global,
    desk: &mut D,
    look: &[Line],
    is_met: bool,
) -> Result<Vec<u8>, Wrong> {
    let mut text = Vec::new(alloc);
    for line in look {
        if let Some(event) = event_of(line) {
            let outcome = desk.give(event);
            expect(is_met || !matches!(outcome, Outcome::NoMemory), OWN)?;
            put(alloc, &mut text, &outcome)?;
        }
    }
    Ok(text)
}

/// Fails unless both offices keep the same.
fn keep_the_same<T: Desk, F: Desk>(twins: &mut Twins<T, F>) -> Result<(), Wrong> {
    let (alloc, is_met) = (twins.alloc, twins.is_met);
    let text = kept(alloc, &mut twins.tested, &twins.look, is_met)?;
    let wanted = kept(alloc, &mut twins.free, &twins.look, is_met)?;
    expect(text == wanted, "other records or sessions")
}

/// Whether two outcomes are printed alike.
fn told_alike(alloc: Global, said: &Outcome, wanted: &Outcome) -> Result<bool, Wrong> {
    let (mut first, mut second) = (Vec::new(alloc), Vec::new(alloc));
    put(alloc, &mut first, said)?;
    put(alloc, &mut second, wanted)?;
    Ok(first == second)
}

/// Whether a connection is owed the same in both, and has ended in both or in none.
fn owes_alike<T: Desk, F: Desk>(twins: &Twins<T, F>, c: u64) -> bool {
    twins.tested.lends(c) == twins.free.lends(c) && twins.tested.is_over(c) == twins.free.is_over(c)
}

/// Whether each connection of a row is owed the same in both. They are the first four, or the first
/// four after the 1,895 of some rows.
fn owe_alike<T: Desk, F: Desk>(twins: &Twins<T, F>) -> bool {
    for c in 1..=4u64 {
        if !owes_alike(twins, c) || !owes_alike(twins, 1895 + c) {
            return false;
        }
    }
    true
}

/// Fails unless both offices answered an event alike, and now owe the same.
fn same<T: Desk, F: Desk>(
    twins: &Twins<T, F>,
    said: &Outcome,
    wanted: &Outcome,
) -> Result<(), Wrong> {
    expect(!matches!(wanted, Outcome::NoMemory), OWN)?;
    expect(told_alike(twins.alloc, said, wanted)?, "another answer")?;
    expect(owe_alike(twins), "another reply")
}

/// Gives both offices an event. Fails unless they answer alike.
fn alike<T: Desk, F: Desk>(twins: &mut Twins<T, F>, event: Event<'_>) -> Result<(), Wrong> {
    let said = twins.tested.give(event);
    let wanted = twins.free.give(event);
    same(twins, &said, &wanted)
}

/// Has a connection take what it is lent, in both offices alike.
fn take_alike<T: Desk, F: Desk>(twins: &mut Twins<T, F>, c: u64) -> Result<(), Wrong> {
    let count = twins.tested.lends(c).len();
    alike(twins, Event::Took(c, count))
}

/// Has a clerk connect and log in, in both offices alike. So no lock was left.
fn visit<T: Desk, F: Desk>(twins: &mut Twins<T, F>) -> Result<(), Wrong> {
    let said = twins.tested.give(Event::Connect);
    let wanted = twins.free.give(Event::Connect);
    same(twins, &said, &wanted)?;
    let Outcome::Opened(c) = said else {
        return Err("not opened");
    };
    for line in &VISIT {
        take_alike(twins, c)?;
        alike(twins, Event::Bytes(c, line.as_bytes()))?;
    }
    take_alike(twins, c)
}

/// Ends a connection in both offices. They must then keep the same, and let a clerk in alike.
fn be_gone<T: Desk, F: Desk>(twins: &mut Twins<T, F>, c: u64) -> Result<(), Wrong> {
    let _ = twins.tested.give(Event::Gone(c));
    let _ = twins.free.give(Event::Gone(c));
    keep_the_same(twins)?;
    visit(twins)
}

/// Checks what stands after a line or a taking that was refused memory: its connection is ended,
/// and owed nothing.
fn cut_off<T: Desk, F: Desk>(twins: &mut Twins<T, F>, c: u64) -> Result<(), Wrong> {
    expect(twins.tested.is_over(c), "not ended")?;
    expect(twins.tested.lends(c).is_empty(), "an octet of a reply")?;
    be_gone(twins, c)
}

/// Has a connection take all that it is lent.
fn take<D: Desk>(desk: &mut D, c: u64) {
    let count = desk.lends(c).len();
    let _ = desk.give(Event::Took(c, count));
}

/// Whether a connection is owed just this.
fn owes<D: Desk>(desk: &D, c: u64, octets: &[u8]) -> bool {
    desk.lends(c) == octets
}

/// Whether a connection goes on after a line that failed: its next line is answered. That may be
/// one that it sent before, which is in the wrong state without the line that failed.
fn goes_on<D: Desk>(desk: &mut D, c: u64) -> bool {
    take(desk, c);
    let _ = desk.give(Event::Bytes(c, b"CAPA\r\n"));
    desk.lends(c).starts_with(b"+OK ") || owes(desk, c, b"-ERR wrong state\r\n")
}

/// Checks what stands after a line whose call was refused: its reply says so, nothing changed, and
/// the connection goes on, or is over if the line was QUIT.
fn failed<T: Desk, F: Desk>(twins: &mut Twins<T, F>, c: u64) -> Result<(), Wrong> {
    if owes(&twins.tested, c, QUIT_FAILED) {
        take(&mut twins.tested, c);
        expect(twins.tested.is_over(c), "goes on behind a QUIT")?;
        return be_gone(twins, c);
    }
    expect(owes(&twins.tested, c, LINE_FAILED), "another reply")?;
    keep_the_same(twins)?;
    expect(goes_on(&mut twins.tested, c), "ended by a failed line")
}

/// Checks what stands after an event that met the refusal: nothing changed, and a connect, a
/// deposit or a command is answered as ever when it is given again. Answers whether the row can go
/// on.
fn met<T: Desk, F: Desk>(twins: &mut Twins<T, F>, event: Event<'_>) -> Result<bool, Wrong> {
    twins.is_met = true;
    match event {
        Event::Connect | Event::Deposit(..) | Event::Admin(_) => {
            keep_the_same(twins)?;
            alike(twins, event)?;
            Ok(true)
        }
        Event::Bytes(c, _) | Event::Took(c, _) => {
            if twins.is_growth {
                cut_off(twins, c)?;
            } else {
                failed(twins, c)?;
            }
            Ok(false)
        }
        _ => Err("refused where nothing is asked for"),
    }
}

/// Whether an outcome says that the refusal was met.
fn is_told(is_growth: bool, outcome: &Outcome) -> bool {
    match outcome {
        Outcome::NoMemory => is_growth,
        Outcome::Failed => !is_growth,
        _ => false,
    }
}

/// Gives both offices an event. Answers whether the row can go on.
fn give<T: Desk, F: Desk>(twins: &mut Twins<T, F>, event: Event<'_>) -> Result<bool, Wrong> {
    let said = twins.tested.give(event);
    if !twins.is_met && is_told(twins.is_growth, &said) {
        return met(twins, event);
    }
    let wanted = twins.free.give(event);
    same(twins, &said, &wanted)?;
    Ok(true)
}

/// Has a connection take all that it is owed, in both offices. Answers whether the row can go on.
fn drain<T: Desk, F: Desk>(twins: &mut Twins<T, F>, c: u64) -> Result<bool, Wrong> {
    for _ in 0..TAKINGS {
        let count = twins.tested.lends(c).len();
        if count == 0 {
            return Ok(true);
        }
        if !give(twins, Event::Took(c, count))? {
            return Ok(false);
        }
    }
    Err("owed for ever")
}

/// Does a script line in both offices. Answers whether the row can go on.
fn play_line<T: Desk, F: Desk>(twins: &mut Twins<T, F>, line: &Line) -> Result<bool, Wrong> {
    if let Line::Drain(c) = line {
        return drain(twins, *c);
    }
    match event_of(line) {
        Some(event) => give(twins, event),
        None => Ok(true),
    }
}

/// Does script lines in both offices, up to one whose connection the refusal ends; after the last
/// line they must keep the same. Answers whether the row can go on.
fn play_lines<T: Desk, F: Desk>(twins: &mut Twins<T, F>, lines: &[Line]) -> Result<bool, Wrong> {
    for line in lines {
        if !play_line(twins, line)? {
            return Ok(false);
        }
    }
    // a look calls the store, so it may not come before the call that is to be refused
    if twins.is_growth || twins.is_met {
        keep_the_same(twins)?;
    }
    Ok(true)
}

/// Plays a row in both offices, to its end or to a line whose connection the refusal ends.
pub fn play<T: Desk, F: Desk>(twins: &mut Twins<T, F>, row: &Row) -> Result<(), Fail> {
    let (_, _, parts) = row;
    for part in *parts {
        let lines = lines_of(twins.alloc, *part)?;
        match play_lines(twins, &lines) {
            Ok(true) => {}
            Ok(false) => break,
            Err(wrong) => return Err(Fail::new(wrong)),
        }
    }
    Ok(())
}
