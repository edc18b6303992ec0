//! An office: one function for each event.
ghost use Rattle.std.specs.Prelude.{◌≡◌, ◌⊎◌, ◌<◌, ◌≤◌, ◌↔◌, not, true, false, ℕ, List, length};
ghost use Rattle.std.specs.Prelude.{take, min, None, Ok, IfOk, IfErr, OnOk, OnErr, MatchResult};
ghost use Rattle.office.specs.Events.{Trace, given};
ghost use Rattle.office.specs.Seen.{event_seen, command_seen, outcome_seen, followed_by};
ghost use Rattle.office.specs.Events as event;
ghost use Rattle.office.specs.Trace.{rest, is_open, is_ready, IsLent, most_lent};
ghost use Rattle.office.specs.Expected.{IsOutcome, is_full, octets_taken, asks_no_store, may_show};
ghost use Rattle.office.specs.Expected.{Succeeds};
ghost use Rattle.office.specs.Outcomes.{event_tag_of, HasCause, HasMemory};
ghost use Rattle.creds.specs.Names.{is_host};
ghost use Rattle.vault.specs.Changes.{Contents};
ghost use Rattle.vault.specs.Call.{Looks};
ghost use Rattle.vault.specs.Calls.{has_grown, IsAnswer};
ghost use Rattle.office.specs.History.{Done, Failed, NoMemory};
ghost use Rattle.office.specs.Stands.{OfEachTrace, StandsFor, Keeps, lent_by, vault_of};
ghost use Rattle.office.specs.Taken.{IsAdmitted, AreAdmitted, IsSentExactly};
ghost use Rattle.office.specs.Input.{input_kept, most_input};
ghost use Rattle.office.specs.Stopping.{LeavesHeld, StaysUpUnless, StopLeaves};
ghost use Rattle.office.specs.AfterEvent.{AfterEvent};
ghost use Rattle.std.specs.Ordering.{nat_cmp};
ghost use Rattle.std.specs.BTreeMap.{Updates};
ghost use Rattle.office.specs.Locks.{Released};
ghost use Rattle.office.specs.Answered.{shown_of};
ghost use Rattle.office.specs.Accounts.{IsAccount, outcome_told, taken_told};
ghost use Rattle.office.specs.Runs.{Step as Shown, followed, Follows, Enters, Ran};
ghost use Rattle.office.specs.Runs.{HaveCauses, HaveMemory, AreAnswered, StopLeavesRun};
ghost use Rattle.office.specs.Runs.{done_before};

use crate::account::LineReport;
use crate::connection::Connection;
use crate::locks::{Locks, release};
use crate::login_state::LineOutcome;
use crate::{
    Account, AdminCommand, Answer, End, Event, EventReport, Limits, Outcome, Reason, RunFault,
    Step, Transcript,
};
use creds::{HostName, Name};
use policy::Policy;
use std::alloc::{AllocError, Global};
use std::collections::BTreeMap;
use vault::{Vault, VaultFault};

/// How many connections may be open at once.
const MOST_OPEN: usize = 64;
/// How many octets a piece of what a connection sends may have.
pub const MOST_IN_A_PIECE: usize = 4096;

/// Why an office wasn't opened.
#[derive(Clone, Copy, Debug, PartialEq, Eq)]
pub enum OpenFault {
    /// The host's name isn't one.
    BadHost,
    /// The store refused to give its policy.
    Store,
    NoMemory,
}

/// An office over a vault.
#[derive(Drop)]
pub struct Office<V: Vault> {
    pub(crate) alloc: Global,
    pub(crate) vault: V,
    /// The policy in force.
    pub(crate) policy: Policy,
    pub(crate) boot: u64,
    host: String,
    pub(crate) limits: Limits,
    /// How many connections were opened since the last restart.
    pub(crate) opened: u64,
    /// The present moment, in seconds.
    pub(crate) moment: u64,
    pub(crate) connections: BTreeMap<u64, Connection>,
    pub(crate) locks: Locks,
}

/// The outcome of the event in which a line acted.
fn outcome_of(line_outcome: LineOutcome) -> Outcome
    ensures { outcome_seen result ≡ shown_of line_outcome }
{
    match line_outcome {
        LineOutcome::Done => Outcome::Done,
        LineOutcome::Failed => Outcome::Failed,
    }
}

/// The report of the event in which a line acted.
fn after_line(line: LineReport) -> EventReport
    ensures outcome { outcome_seen result.outcome ≡ shown_of line.outcome }
    ensures account { result.account ≡ line.account }
{
    EventReport {
        outcome: outcome_of(line.outcome),
        account: line.account,
    }
}

/// The report of a taking of all that was owed, after which a line was answered so, or none was.
fn after_all(line: LineReport) -> EventReport
    ensures outcome { outcome_seen result.outcome ≡ shown_of line.outcome }
    ensures account { result.account ≡ taken_told line.account }
{
    EventReport {
        outcome: outcome_of(line.outcome),
        account: line.account.or_taken(),
    }
}

/// The account of a command by its outcome: that it ended a session, if it did.
fn ended_by(outcome: &Outcome) -> Account
    ensures { result ≡ outcome_told (outcome_seen outcome.now) }
{
    match outcome {
        Outcome::Answered(Answer::Ended) => Account::Ended(End::SessionEnded),
        _ => Account::Nothing,
    }
}

/// Ends a connection, with nothing removed, and lets the maildrop that it holds go.
fn cut_off(
    connections: &mut BTreeMap<u64, Connection>,
    locks: &mut Locks,
    c: u64,
    held: Option<Name>,
)
    ensures connections { Updates nat_cmp connections.old connections.new c None }
    ensures locks { Released held locks.old locks.new }
{
    let _ = connections.remove(&c);
    release(locks, held);
}

/// Ends a connection that lacked memory for a line, and reports it.
fn lack_memory(
    connections: &mut BTreeMap<u64, Connection>,
    locks: &mut Locks,
    c: u64,
    held: Option<Name>,
) -> EventReport
    ensures connections { Updates nat_cmp connections.old connections.new c None }
    ensures locks { Released held locks.old locks.new }
    ensures account { result.account ≡ Account.Ended End.NoMemoryForLine }
    ensures outcome { result.outcome ≡ Outcome.NoMemory }
{
    cut_off(connections, locks, c, held);
    EventReport::ended(Outcome::NoMemory, End::NoMemoryForLine)
}

impl<V: Vault> Office<V> {
    /// Opens an office over a vault, under a host's name and the number of this start. No
    /// connection is open. It reads the store's policy.
    ///
    /// `BadHost` exactly if the host isn't of 1 to 64 octets of `a-z`, `0-9`, `.` and `-`, no
    /// part between dots empty or with `-` at an end. `Store` if the store refused. After a
    /// fault the vault comes back with what it held.
    pub fn open(
        alloc: Global,
        vault: V,
        host: &str,
        boot: u64,
        limits: Limits,
    ) -> Result<Office<V>, (OpenFault, V)>
        ensures opened { IfOk result (λ office. (T : Trace) → Keeps (V.holds vault) T
            → V.is_clean (vault_of office) → StandsFor V.holds office
            (given T (event.Start host.now boot limits) (event.Tagged Done))) }
        ensures host { MatchResult result (λ _. is_host host.now ≡ true)
            (λ e. (e.0 ≡ OpenFault.BadHost) ↔ (is_host host.now ≡ false)) }
        ensures kept { IfErr result (λ e. (c : Contents) → V.holds vault c → V.is_clean e.1
            → V.holds e.1 c) }
        ensures left { IfOk result (λ office. (c : Contents) → V.holds vault c
            → V.is_clean (vault_of office) → V.holds (vault_of office) c) }
        ensures up { IfOk result (λ office. (c : Contents) → V.holds vault c
            → V.is_clean (vault_of office) → V.is_up vault → V.is_up (vault_of office)) }
        ensures stop { MatchResult result (λ office. (c : Contents) → V.holds vault c
            → V.is_clean (vault_of office) → V.is_up vault
            → LeavesHeld (V.may_leave (vault_of office)) c)
            (λ e. (c : Contents) → V.holds vault c → V.is_clean e.1 → V.is_up vault
            → LeavesHeld (V.may_leave e.1) c) }
        ensures clean { MatchResult result (λ office. V.is_clean (vault_of office)
            → V.is_clean vault) (λ e. V.is_clean e.1 → V.is_clean vault) }
        ensures counted { MatchResult result (λ office. V.faults vault ≤ V.faults (vault_of office))
            (λ e. V.faults vault ≤ V.faults e.1) }
        ensures cause { IfErr result (λ e. e.0 ≡ OpenFault.Store → (c : Contents) → V.holds vault c
            → V.is_clean e.1 → has_grown (V.faults vault) (V.faults e.1) ≡ true) }
    {
        if HostName::read(host.as_bytes()).is_none() {
            return Err((OpenFault::BadHost, vault));
        }
        let Ok(host) = String::from_str(alloc, host) else {
            return Err((OpenFault::NoMemory, vault));
        };
        let mut vault = vault;
        match vault.policy() {
            Err(VaultFault::NoMemory) => Err((OpenFault::NoMemory, vault)),
            Err(_) => Err((OpenFault::Store, vault)),
            Ok(policy) => Ok(Office {
                alloc,
                vault,
                policy,
                boot,
                host,
                limits,
                opened: 0,
                moment: 0,
                connections: BTreeMap::new(alloc),
                locks: BTreeMap::new(alloc),
            }),
        }
    }

    /// Whether no further connection may be opened.
    fn is_full(&self) -> bool
        ensures value { (T : Trace) → StandsFor V.holds self.now T → result ≡ is_full T }
        ensures room { result ≡ false → self.now.opened < u64.MAX }
    {
        self.connections.len() >= MOST_OPEN || self.opened == u64::MAX
    }

    fn connect(&mut self) -> Outcome
        ensures after { AfterEvent V.Vault self.old self.new event.Connect (outcome_seen result) }
        ensures unasked { vault_of self.new ≡ vault_of self.old }
    {
        if self.is_full() {
            return Outcome::Ignored(Reason::TooManyConnections);
        }
        let c = self.opened + 1;
        let Ok(connection) = Connection::open(
            self.alloc,
            c,
            self.boot,
            self.host.as_str(),
            self.moment,
            self.limits.removals(),
        ) else {
            return Outcome::NoMemory;
        };
        if self.connections.insert(c, connection).is_err() {
            return Outcome::NoMemory;
        }
        self.opened = c;
        Outcome::Opened(c)
    }

    fn bytes(&mut self, c: u64, piece: &[u8]) -> EventReport
        ensures after { AfterEvent V.Vault self.old self.new (event.Bytes c piece.now)
            (outcome_seen result.outcome) }
        ensures unasked { (T : Trace) → StandsFor V.holds self.old T
            → V.is_clean (vault_of self.old) → may_show T (event.Bytes c piece.now) Failed ≡ false
            → vault_of self.new ≡ vault_of self.old }
        ensures account { OfEachTrace V.Vault self.old self.new (λ T.
            IsAccount T (event.Bytes c piece.now) (outcome_seen result.outcome) result.account) }
    {
        let Some(connection) = self.connections.get_mut(&c) else {
            return EventReport::ignored(Reason::NoSuchConnection);
        };
        if !connection.owes_nothing() {
            return EventReport::ignored(Reason::NotReady);
        }
        if piece.len() > MOST_IN_A_PIECE {
            return EventReport::ignored(Reason::PieceTooLong);
        }
        let held = connection.maildrop();
        match connection.hear(
            self.alloc,
            &mut self.vault,
            &self.policy,
            &mut self.locks,
            c,
            piece,
            self.moment,
        ) {
            Ok(line) => after_line(line),
            Err(_) => lack_memory(&mut self.connections, &mut self.locks, c, held),
        }
    }

    fn took(&mut self, c: u64, octets: usize) -> EventReport
        ensures after { AfterEvent V.Vault self.old self.new (event.Took c octets)
            (outcome_seen result.outcome) }
        ensures unasked { (T : Trace) → StandsFor V.holds self.old T
            → V.is_clean (vault_of self.old) → may_show T (event.Took c octets) Failed ≡ false
            → vault_of self.new ≡ vault_of self.old }
        ensures account { OfEachTrace V.Vault self.old self.new (λ T.
            IsAccount T (event.Took c octets) (outcome_seen result.outcome) result.account) }
    {
        let Some(connection) = self.connections.get_mut(&c) else {
            return EventReport::ignored(Reason::NoSuchConnection);
        };
        if !connection.lends(octets) {
            return EventReport::ignored(Reason::NotReady);
        }
        let held = connection.maildrop();
        let taken = match connection.take(self.alloc, &mut self.vault, octets, self.moment) {
            Ok(taken) => taken,
            Err(_) => {
                cut_off(&mut self.connections, &mut self.locks, c, held);
                return EventReport::ended(Outcome::NoMemory, End::NoMemory);
            }
        };
        if !taken {
            cut_off(&mut self.connections, &mut self.locks, c, held);
            return EventReport::ended(Outcome::Failed, End::StoreFailed);
        }
        if !connection.owes_nothing() {
            return EventReport::silent(Outcome::Done);
        }
        if connection.is_closing() {
            let _ = self.connections.remove(&c);
            return EventReport::all_taken();
        }
        match connection.resume(
            self.alloc,
            &mut self.vault,
            &self.policy,
            &mut self.locks,
            c,
        ) {
            Ok(line) => after_all(line),
            Err(_) => lack_memory(&mut self.connections, &mut self.locks, c, held),
        }
    }

    fn gone(&mut self, c: u64) -> EventReport
        ensures after { AfterEvent V.Vault self.old self.new (event.Gone c)
            (outcome_seen result.outcome) }
        ensures unasked { vault_of self.new ≡ vault_of self.old }
        ensures done { (result.outcome ≡ Outcome.Done) ⊎ (result.outcome
            ≡ Outcome.Ignored Reason.NoSuchConnection) }
        ensures account { (T : Trace)
            → IsAccount T (event.Gone c) (outcome_seen result.outcome) result.account }
    {
        match self.connections.remove(&c) {
            None => EventReport::ignored(Reason::NoSuchConnection),
            Some(connection) => {
                release(&mut self.locks, connection.maildrop());
                EventReport::ended(Outcome::Done, End::Gone)
            }
        }
    }

    /// Does a command. Its account says whether it ended a session.
    fn command(&mut self, command: &AdminCommand) -> EventReport
        ensures after { AfterEvent V.Vault self.old self.new (event.Admin
            (command_seen command.now)) (outcome_seen result.outcome) }
        ensures account { OfEachTrace V.Vault self.old self.new (λ T. IsAccount T (event.Admin
            (command_seen command.now)) (outcome_seen result.outcome) result.account) }
    {
        let outcome = self.administer(command);
        let account = ended_by(&outcome);
        EventReport { outcome, account }
    }

    /// Does one event, and reports what it judged.
    fn handle(&mut self, event: Event<'_>) -> EventReport
        ensures after { AfterEvent V.Vault self.old self.new (event_seen event.entry)
            (outcome_seen result.outcome) }
        ensures unasked { asks_no_store (event_seen event.entry) ≡ true
            → vault_of self.new ≡ vault_of self.old }
        ensures unasked_line { (T : Trace) → StandsFor V.holds self.old T
            → V.is_clean (vault_of self.old) → may_show T (event_seen event.entry) Failed ≡ false
            → vault_of self.new ≡ vault_of self.old }
        ensures succeeds { Succeeds (event_seen event.entry) (outcome_seen result.outcome) }
        ensures account { OfEachTrace V.Vault self.old self.new (λ T.
            IsAccount T (event_seen event.entry) (outcome_seen result.outcome) result.account) }
    {
        match event {
            Event::Connect => EventReport::silent(self.connect()),
            Event::Bytes(c, piece) => self.bytes(c, piece),
            Event::Took(c, octets) => self.took(c, octets),
            Event::Gone(c) => self.gone(c),
            Event::Tick(now) => EventReport::silent(self.tick(now)),
            Event::Deposit(maildrop, class, id, text) => {
                EventReport::silent(self.deposit(maildrop, class, id, text))
            }
            Event::Admin(command) => self.command(command),
            Event::Restart(boot) => EventReport::silent(self.restart(boot)),
        }
    }

    /// Does one event. An opening, the end of a connection, a tick and a restart ask no store; the
    /// last three take no memory and never fail.
    pub fn step(&mut self, event: Event<'_>) -> Outcome
        ensures stands { OfEachTrace V.Vault self.old self.new (λ T.
            StandsFor V.holds self.new (followed_by T (event_seen event.entry) result)) }
        ensures outcome { OfEachTrace V.Vault self.old self.new (λ T.
            IsOutcome T (lent_by self.old) (event_seen event.entry) (outcome_seen result)) }
        ensures cause { OfEachTrace V.Vault self.old self.new (λ T.
            HasCause (V.faults (vault_of self.old)) (V.faults (vault_of self.new))
            (outcome_seen result)) }
        ensures counted { V.faults (vault_of self.old) ≤ V.faults (vault_of self.new) }
        ensures clean { V.is_clean (vault_of self.new) → V.is_clean (vault_of self.old) }
        ensures up { OfEachTrace V.Vault self.old self.new (λ T.
            StaysUpUnless (V.is_up (vault_of self.old)) (V.is_up (vault_of self.new))
            (outcome_seen result)) }
        ensures stop { OfEachTrace V.Vault self.old self.new (λ T.
            V.is_up (vault_of self.old) → StopLeaves (V.may_leave (vault_of self.new)) T
            (event_seen event.entry) (outcome_seen result)) }
        ensures admitted { OfEachTrace V.Vault self.old self.new (λ T.
            IsAdmitted T (event_seen event.entry) (event_tag_of (outcome_seen result))) }
        // If each event so far was answered as it may be, each connection is sent exactly what
        // the history sends it.
        ensures sent { OfEachTrace V.Vault self.old self.new (λ T.
            AreAdmitted T → (c : ℕ) → IsSentExactly (followed_by T
            (event_seen event.entry) result) c) }
        ensures unasked { asks_no_store (event_seen event.entry) ≡ true
            → vault_of self.new ≡ vault_of self.old }
        // An event that may not be answered `Failed` asks no store: a line that needs none, and a
        // QUIT that removes nothing.
        ensures unasked_line { (T : Trace) → StandsFor V.holds self.old T
            → V.is_clean (vault_of self.old) → may_show T (event_seen event.entry) Failed ≡ false
            → vault_of self.new ≡ vault_of self.old }
        ensures succeeds { Succeeds (event_seen event.entry) (outcome_seen result) }
        // Some events are never answered `NoMemory`: a piece without LF, a taking of a part if
        // all that is owed is lent, and others (`may_lack_memory_at`).
        ensures memory { OfEachTrace V.Vault self.old self.new (λ T.
            may_show T (event_seen event.entry) NoMemory ≡ false → HasMemory
            (outcome_seen result)) }
    {
        self.step_with_account(event).outcome
    }

    /// Does one event, as [`Office::step`] does, and says what it judged: the report has its
    /// outcome and its account. The account is that of the line that acted, also if the store
    /// failed; or why the connection ended, if it is gone, memory was wanting, a page was refused
    /// or a command ended its session; or, if the line that acts then has no account, that all that
    /// was owed is taken. Other events have none, nor has one that is ignored.
    pub fn step_with_account(&mut self, event: Event<'_>) -> EventReport
        ensures stands { OfEachTrace V.Vault self.old self.new (λ T.
            StandsFor V.holds self.new (followed_by T (event_seen event.entry) result.outcome)) }
        ensures outcome { OfEachTrace V.Vault self.old self.new (λ T. IsOutcome T (lent_by self.old)
            (event_seen event.entry) (outcome_seen result.outcome)) }
        ensures cause { OfEachTrace V.Vault self.old self.new (λ T.
            HasCause (V.faults (vault_of self.old)) (V.faults (vault_of self.new))
            (outcome_seen result.outcome)) }
        ensures counted { V.faults (vault_of self.old) ≤ V.faults (vault_of self.new) }
        ensures clean { V.is_clean (vault_of self.new) → V.is_clean (vault_of self.old) }
        ensures up { OfEachTrace V.Vault self.old self.new (λ T.
            StaysUpUnless (V.is_up (vault_of self.old)) (V.is_up (vault_of self.new))
            (outcome_seen result.outcome)) }
        ensures stop { OfEachTrace V.Vault self.old self.new (λ T.
            V.is_up (vault_of self.old) → StopLeaves (V.may_leave (vault_of self.new)) T
            (event_seen event.entry) (outcome_seen result.outcome)) }
        ensures admitted { OfEachTrace V.Vault self.old self.new (λ T.
            IsAdmitted T (event_seen event.entry) (event_tag_of
            (outcome_seen result.outcome))) }
        ensures sent { OfEachTrace V.Vault self.old self.new (λ T.
            AreAdmitted T → (c : ℕ) → IsSentExactly (followed_by T
            (event_seen event.entry) result.outcome) c) }
        ensures unasked { asks_no_store (event_seen event.entry) ≡ true
            → vault_of self.new ≡ vault_of self.old }
        ensures unasked_line { (T : Trace) → StandsFor V.holds self.old T
            → V.is_clean (vault_of self.old) → may_show T (event_seen event.entry) Failed ≡ false
            → vault_of self.new ≡ vault_of self.old }
        ensures succeeds { Succeeds (event_seen event.entry) (outcome_seen result.outcome) }
        ensures memory { OfEachTrace V.Vault self.old self.new (λ T.
            may_show T (event_seen event.entry) NoMemory ≡ false
            → HasMemory (outcome_seen result.outcome)) }
        // What is reported is what the history says of the line that acted, if one did.
        ensures account { OfEachTrace V.Vault self.old self.new (λ T.
            IsAccount T (event_seen event.entry)
            (outcome_seen result.outcome) result.account) }
    {
        self.handle(event)
    }

    /// Does events in order. The transcript has a step for each: its outcome, and the octets that
    /// it took.
    ///
    /// `NoMemory(done)` if the transcript couldn't grow: exactly the first `done` events are
    /// done.
    pub fn run(&mut self, events: &[Event<'_>]) -> Result<Transcript, RunFault>
        ensures ok { IfOk result (λ steps. OfEachTrace V.Vault self.old self.new (λ T.
            Follows V.holds events.now steps T self.new)) }
        ensures err_before_the_end { IfErr result (λ e. done_before e < length events.now) }
        ensures err { IfErr result (λ e. (steps : List Shown)
            × (OfEachTrace V.Vault self.old self.new
            (λ T. Follows V.holds (take (done_before e) events.now) steps T self.new))) }
        ensures cause { IfOk result (λ steps. OfEachTrace V.Vault self.old self.new (λ T.
            HaveCauses (V.faults (vault_of self.old)) (V.faults (vault_of self.new)) steps)) }
        ensures up { IfOk result (λ steps. OfEachTrace V.Vault self.old self.new (λ T.
            V.is_up (vault_of self.old) → AreAnswered steps → V.is_up (vault_of self.new))) }
        ensures stop { IfOk result (λ steps. OfEachTrace V.Vault self.old self.new (λ T.
            V.is_up (vault_of self.old) → StopLeavesRun (V.may_leave
            (vault_of self.new)) T events.now steps)) }
        ensures admitted { IfOk result (λ steps. OfEachTrace V.Vault self.old self.new (λ T.
            AreAdmitted T → AreAdmitted (followed T events.now steps))) }
        ensures sent { IfOk result (λ steps. OfEachTrace V.Vault self.old self.new (λ T.
            AreAdmitted T → (c : ℕ) → IsSentExactly (followed T events.now steps) c)) }
        ensures memory { IfOk result (λ steps. OfEachTrace V.Vault self.old self.new (λ T.
            HaveMemory T events.now steps)) }
        // The same of the events that were done before the transcript couldn't grow.
        ensures err_ran { IfErr result (λ e. (steps : List Shown)
            × (OfEachTrace V.Vault self.old self.new
            (λ T. Ran V.holds V.faults V.is_up V.may_leave (take (done_before e) events.now) steps T
            self.old self.new))) }
        ensures counted { V.faults (vault_of self.old) ≤ V.faults (vault_of self.new) }
        ensures clean { V.is_clean (vault_of self.new) → V.is_clean (vault_of self.old) }
    {
        let mut steps = Vec::new(self.alloc);
        for (done, event) in events.iter().enumerate() {
            match self.enter(*event, &mut steps) {
                Ok(()) => {}
                Err(_) => return Err(RunFault::NoMemory(done)),
            }
        }
        Ok(Transcript::new(steps))
    }

    /// Does one event and enters its step into the transcript; at want of memory neither.
    fn enter(&mut self, event: Event<'_>, steps: &mut Vec<Step>) -> Result<(), AllocError>
        ensures ok { OnOk result (OfEachTrace V.Vault self.old self.new (λ T.
            Enters V.Vault event.entry steps.old.items steps.new.items self.old self.new T)) }
        ensures err { OnErr result (self.new ≡ self.old) }
        ensures err_steps { OnErr result (steps.new.items ≡ steps.old.items) }
        ensures counted { V.faults (vault_of self.old) ≤ V.faults (vault_of self.new) }
        ensures clean { V.is_clean (vault_of self.new) → V.is_clean (vault_of self.old) }
    {
        steps.reserve(1)?;
        let octets = self.next_octets(event)?;
        let outcome = self.step(event);
        let _ = steps.push(Step::new(outcome, octets));
        Ok(())
    }

    /// A copy of the octets that an event would take.
    fn next_octets(&self, event: Event<'_>) -> Result<Vec<u8>, AllocError>
        ensures { IfOk result (λ octets. (T : Trace) (outcome : Outcome)
            → StandsFor V.holds self.now T → IsOutcome T (lent_by self.now) (event_seen event.entry)
            (outcome_seen outcome) → octets.items ≡ octets_taken T (event_seen event.entry)
            (event_tag_of (outcome_seen outcome))) }
    {
        let mut octets = Vec::new(self.alloc);
        if let Event::Took(c, count) = event {
            let lent = self.owed(c);
            if count <= lent.len() {
                octets.extend_from_slice(&lent[..count])?;
            }
        }
        Ok(octets)
    }

    /// The octets that a connection may take now: the first 16,384 that it is owed, or all if
    /// they are fewer. None if it isn't open.
    pub fn owed(&self, c: u64) -> &[u8]
        ensures lent { (T : Trace) → StandsFor V.holds self.now T → IsLent (rest T c) result.now }
        ensures count { length result.now ≡ lent_by self.now c }
        ensures exact { (T : Trace) → StandsFor V.holds self.now T
            → length result.now ≡ min (length (rest T c)) most_lent }
        ensures most { length result.now ≤ most_lent }
    {
        match self.connections.get(&c) {
            None => &[],
            Some(connection) => connection.owed(),
        }
    }

    /// How many octets of its input are kept of a connection, whatever the store does: at most 255
    /// of a line and 4,096 of a piece. None if it isn't open. The program doesn't call it: it is
    /// here for this bound.
    pub fn input_kept(&self, c: u64) -> usize
        ensures value { result ≡ input_kept self.now c }
        ensures most { input_kept self.now c ≤ most_input }
    {
        match self.connections.get(&c) {
            None => 0,
            Some(connection) => connection.input(),
        }
    }

    /// Whether a connection is open and owed nothing: octets may come.
    pub fn ready(&self, c: u64) -> bool
        ensures { (T : Trace) → StandsFor V.holds self.now T → result ≡ is_ready T c }
    {
        match self.connections.get(&c) {
            None => false,
            Some(connection) => connection.owes_nothing(),
        }
    }

    /// Whether a connection isn't open: it never was, or it ended.
    pub fn ended(&self, c: u64) -> bool
        ensures { (T : Trace) → StandsFor V.holds self.now T → result ≡ not (is_open T c) }
    {
        !self.connections.contains_key(&c)
    }

    /// Has the store do what it has put off, as [`Vault::maintain`] does, for a time in which no
    /// client waits. It is no event: the office stands for the trace that it stood for, also if the
    /// store refuses.
    pub fn maintain(&mut self) -> Result<(), VaultFault>
        ensures stands { OfEachTrace V.Vault self.old self.new (λ T.
            StandsFor V.holds self.new T) }
        ensures answer { IsAnswer (Ok tt) result }
        ensures looks { Looks V.holds V.faults V.is_clean V.is_up V.may_leave
            (vault_of self.old) (vault_of self.new) result }
    {
        self.vault.maintain()
    }

    /// Ends the office, and gives its vault back.
    pub fn into_vault(self) -> V
        ensures { result ≡ vault_of self }
    {
        self.vault
    }
}
