//! One connection: the input that isn't cut yet, and the octets that it is owed.
ghost use Rattle.std.specs.Prelude.{◌≡◌, ◌+◌, ◌≤◌, ◌<◌, ◌==◌, ◌||◌, nat_lt, ℕ, List, []};
ghost use Rattle.std.specs.Prelude.{Option, None, true, false, is_some, OnOk, OnErr, IfOk};
ghost use Rattle.std.specs.Prelude.{Ok, IsOkAnd, IsTrue, drop, length, string_bytes};
ghost use Rattle.popline.specs.Replies.{Greeting, bytes_of, timestamp};
ghost use Rattle.popline.specs.Cutting.{has_newline, nothing_held};
ghost use Rattle.vault.specs.Changes.{Contents};
ghost use Rattle.vault.specs.Call.{Looks};
ghost use Rattle.vault.specs.Calls.{has_grown, IsPrepared};
ghost use Rattle.vault.specs.Parts.{OnlyLooks};
ghost use Rattle.vault.specs.declared.answer.Progress.TheVariants.{Ready};
ghost use Rattle.office.specs.Stopping.{WasDone, ActsOnce};
ghost use Rattle.office.specs.Replying.{is_empty};
ghost use Rattle.office.specs.Output.{nothing_owed, lent_of, is_feeding, reads_text};
ghost use Rattle.office.specs.Output.{Owes};
ghost use Rattle.office.specs.Transaction.{Transaction};
ghost use Rattle.office.specs.Kept.{clocked, line_after, asks, nothing_said, maildrop_of};
ghost use Rattle.office.specs.Idle.{is_idle};
ghost use Rattle.office.specs.InSession.{name_of};
ghost use Rattle.office.specs.Input.{most_input};
ghost use Rattle.office.specs.Connections.{reading};
ghost use Rattle.office.specs.Expected.{most_in_a_piece};
ghost use Rattle.office.specs.Answered.{is_locked_by, HasTransaction, LocksFollow, held_if};
ghost use Rattle.office.specs.AfterLine.{AfterNext, NothingDone, cut_through, line_of};
ghost use Rattle.office.specs.Waiting.{next_brings, line_with};
ghost use Rattle.office.specs.Quitting.{sees_many_in, marks_many_in};
ghost use Rattle.office.specs.Quitting.{is_found as is_found_at};

use crate::account::{Account, LineReport};
use crate::brought::{Brought, brought_by};
use crate::command_line::CommandLine;
use crate::lines;
use crate::locks::Locks;
use crate::login_state::{LineContext, LineOutcome, LoginState};
use crate::output::{Output, Source};
use crate::quit::prepare;
use creds::{LoginName, Name};
use policy::Policy;
use popline::{Cutter, Reply};
use session::{Pick, Removals, Session};
use std::alloc::{AllocError, Global};
use std::marker::Model;
use vault::{Head, Progress, Vault, VaultFault};

/// A QUIT that removes more messages is worth preparing.
const MANY: u64 = 128;

/// What is kept of a connection. Of its input that is at most 4,096 octets of the last piece, and
/// 255 of the line that is being cut.
#[derive(Drop)]
pub struct Connection {
    cutter: Cutter,
    /// Octets of the last piece; the first `cut` of them are cut into lines.
    pending: Vec<u8>,
    cut: usize,
    output: Output,
    state: LoginState,
    /// The timestamp of the greeting, which APOP signs.
    stamp: String,
    session: Option<Session>,
    /// The moment of its opening, of its last line that acted or of its last taking, in seconds.
    clock: u64,
}

impl Model for Connection {
    ghost use Rattle.std.specs.Prelude.{drop, length, string_bytes, ◌≤◌};
    ghost use Rattle.office.specs.Expected.{most_in_a_piece};
    ghost use Rattle.office.specs.Kept.{Kept};

    ghost Value = { Kept };

    ghost view = { λ l. record {
      held = l.cutter;
      pending = drop l.cut l.pending.items;
      output =
          l.output;
      state = l.state;
      stamp = string_bytes l.stamp;
      session = l.session;
      clock =
          l.clock;
    } };

    ghost invariant = { λ l. (l.cut ≤ length l.pending.items)
        × (length l.pending.items ≤ most_in_a_piece) };
}

impl Connection {
    /// A connection that was opened at this moment and is owed its greeting. `removals` says when
    /// its session's removals are judged.
    pub fn open(
        alloc: Global,
        number: u64,
        boot: u64,
        host: &str,
        now: u64,
        removals: Removals,
    ) -> Result<Connection, AllocError>
        ensures { IfOk result (λ k. k ≡ record {
          held = nothing_held;
          pending = [];
          output = record
              { ready = bytes_of (Greeting number boot host.now); source = Source.Nothing };
          state =
              nothing_said removals;
          stamp = timestamp number boot host.now;
          session = None;
          clock =
              now;
        }) }
    {
        let mut output = Output::new(alloc)?;
        let greeting = Reply::Greeting { number, boot, host };
        output.say(alloc, &greeting)?;
        let stamp = timestamp_of(alloc, number, boot, host)?;
        Ok(Connection {
            cutter: Cutter::new(),
            pending: Vec::new(alloc),
            cut: 0,
            output,
            state: LoginState::new(removals),
            stamp,
            session: None,
            clock: now,
        })
    }

    /// The octets that may be taken now: all that stand ready, but at most 16,384.
    pub fn owed(&self) -> &[u8]
        ensures { result.now ≡ lent_of self.now.output }
    {
        self.output.lent()
    }

    /// Whether so many octets may be taken: some, and no more than are lent.
    pub fn lends(&self, octets: usize) -> bool
        ensures some { result ≡ true → (0 < octets) × (octets ≤ length (lent_of self.now.output)) }
        ensures none { result ≡ false → (octets == 0
            || nat_lt (length (lent_of self.now.output)) octets) ≡ true }
    {
        0 < octets && octets <= self.owed().len()
    }

    /// Whether nothing is owed.
    pub fn owes_nothing(&self) -> bool
        ensures value { result ≡ is_empty self.now.output.ready }
        ensures nothing { result ≡ true → self.now.output ≡ nothing_owed }
    {
        self.output.is_empty()
    }

    /// How many octets of its input are kept: of the line that is being cut, and of the last piece.
    pub fn input(&self) -> usize
        ensures value { result ≡ length self.now.held.octets + length self.now.pending }
        ensures most { result ≤ most_input }
    {
        self.cutter.held() + self.pending[self.cut..].len()
    }

    pub fn is_closing(&self) -> bool
        ensures { result ≡ self.now.state.closing }
    {
        self.state.closing
    }

    /// Takes octets that stand ready, at this moment, and reads more if few are left. `false`
    /// if the store refused a page: the caller then ends the connection.
    pub fn take<V: Vault>(
        &mut self,
        alloc: Global,
        vault: &mut V,
        octets: usize,
        now: u64,
    ) -> Result<bool, AllocError>
        requires { octets ≤ length self.old.output.ready }
        ensures kept { self.new ≡ record self.old { output = self.new.output; clock = now } }
        ensures owes { IfOk result (λ taken. taken ≡ true → (c : Contents) (owed : List ℕ)
            → V.holds vault.old c → V.is_clean vault.new
            → Owes c self.old.session self.old.output owed
            → Owes c self.old.session self.new.output (drop octets owed)) }
        ensures kind { IfOk result (λ taken. reads_text self.new.output.source ≡ true
            → reads_text self.old.output.source ≡ true) }
        ensures cause { IfOk result (λ taken. taken ≡ false → (c : Contents) (owed : List ℕ)
            → V.holds vault.old c → V.is_clean vault.new
            → Owes c self.old.session self.old.output owed
            → has_grown (V.faults vault.old) (V.faults vault.new) ≡ true) }
        // Only a message can be refused, and only what is still coming takes memory.
        ensures refused { IfOk result (λ taken. taken ≡ false
            → reads_text self.old.output.source ≡ true) }
        ensures err { OnErr result (is_feeding self.old.output.source ≡ true) }
        ensures looks { OnlyLooks V.Vault vault.old vault.new (IsOkAnd result IsTrue) }
        ensures unasked { reads_text self.old.output.source ≡ false → vault.new ≡ vault.old }
    {
        self.clock = now;
        match self.output.take(octets) {
            Source::Nothing => Ok(true),
            Source::Sizes(done) => {
                if let Some(session) = &self.session {
                    self.output.send_sizes(alloc, session, done)?;
                }
                Ok(true)
            }
            Source::Uids(done) => {
                if let Some(session) = &self.session {
                    self.output.send_uids(alloc, session, done)?;
                }
                Ok(true)
            }
            Source::Text(text) => self.output.send_text(vault, text),
        }
    }

    /// Whether the connection has done nothing for so many seconds at this moment.
    pub fn is_idle(&self, moment: u64, seconds: u64) -> bool
        ensures { result ≡ is_idle moment seconds self.now }
    {
        moment >= self.clock && moment - self.clock >= seconds
    }

    /// The maildrop that the connection's session holds, if it has one.
    pub fn maildrop(&self) -> Option<Name>
        ensures { result ≡ maildrop_of self.now.session }
    {
        match &self.session {
            None => None,
            Some(session) => Some(session.maildrop()),
        }
    }

    /// Who is in session on the connection.
    pub fn login(&self) -> Option<LoginName>
        ensures { result ≡ name_of self.now.session }
    {
        match &self.session {
            None => None,
            Some(session) => Some(LoginName {
                clerk: session.clerk(),
                maildrop: session.maildrop(),
            }),
        }
    }

    /// Whether somebody is in session on the connection.
    pub fn is_in_session(&self) -> bool
        ensures { result ≡ is_some self.now.session }
    {
        self.session.is_some()
    }

    /// How many credentials the connection had refused; at most 255 are counted.
    pub fn refusals(&self) -> u8
        ensures { result ≡ self.now.state.failures }
    {
        self.state.failures
    }

    /// What the line that is whole with this piece brings. The piece isn't taken.
    pub fn brings(&self, piece: &[u8]) -> Brought
        ensures { result ≡ next_brings (is_some self.now.session) self.now.state.user
            (line_with self.now piece.now) }
    {
        let mut cutter = self.cutter.copied();
        let _fed = cutter.feed(piece);
        let Some(cut) = cutter.line() else {
            return Brought::Nothing;
        };
        brought_by(
            &CommandLine::read(cut),
            self.session.is_some(),
            self.state.user,
        )
    }

    /// Whether somebody is in session with a view of more than [`MANY`] messages.
    pub fn sees_many(&self) -> bool
        ensures { result ≡ sees_many_in self.now.session }
    {
        match &self.session {
            None => false,
            Some(session) => is_found(&session.pick(MANY + 1)),
        }
    }

    /// Whether somebody is in session and has marked more than [`MANY`] messages.
    pub fn marks_many(&self) -> bool
        ensures { result ≡ marks_many_in self.now.session }
    {
        match &self.session {
            None => false,
            Some(session) => session.marked() as u64 > MANY,
        }
    }

    /// Has the vault prepare what a QUIT would remove now.
    pub fn prepare_quit<V: Vault>(
        &self,
        vault: &mut V,
        policy: &Policy,
    ) -> Result<Progress, VaultFault>
        ensures answer { IsPrepared result }
        ensures looks { Looks V.holds V.faults V.is_clean V.is_up V.may_leave vault.old vault.new
            result }
        ensures alone { is_some self.now.session ≡ false → result ≡ Ok Ready }
    {
        match &self.session {
            None => Ok(Progress::Ready),
            Some(session) => prepare(vault, policy, session),
        }
    }

    /// Takes the next piece at this moment, and answers the first line that is now whole; the lines
    /// after it wait for [`Connection::resume`]. The report has what was judged. An error is want
    /// of memory.
    pub fn hear<V: Vault>(
        &mut self,
        alloc: Global,
        vault: &mut V,
        policy: &Policy,
        locks: &mut Locks,
        number: u64,
        piece: &[u8],
        now: u64,
    ) -> Result<LineReport, AllocError>
        requires { length piece.now ≤ most_in_a_piece }
        ensures answered { IfOk result (λ r. (c : Contents) (v : Option Transaction)
            → V.holds vault.old c → V.is_clean vault.new → HasTransaction c self.old.session v
            → AfterNext (V.holds vault.new) (has_grown (V.faults vault.old) (V.faults vault.new)) c
            policy.now locks.old v (cut_through piece.now (clocked now piece.now self.old)) self.new
            r.outcome r.account) }
        ensures locks { OnOk result (LocksFollow number self.old.session self.new.session locks.old
            locks.new) }
        ensures err { OnErr result ((has_newline piece.now ≡ true) × NothingDone V.Vault vault.old
            vault.new locks.old locks.new) }
        ensures acts { ActsOnce V.Vault vault.old vault.new
            (IsOkAnd result (λ r. WasDone r.outcome))
            (held_if (has_newline piece.now) LineOutcome.Done policy.now self.old.session
            (reading (line_after self.old piece.now))) }
        ensures unasked { (c : Contents) (v : Option Transaction)
            → HasTransaction c self.old.session v
            → (has_newline piece.now ≡ true → asks policy.now self.old.state v
            (reading (line_after self.old piece.now)) ≡ false) → vault.new ≡ vault.old }
    {
        self.cut_piece(piece, now)?;
        self.answer_next(alloc, vault, policy, locks, number)
    }

    /// Answers the next whole line of the octets that were kept, if there is one. The report has
    /// what was judged. An error is want of memory.
    pub fn resume<V: Vault>(
        &mut self,
        alloc: Global,
        vault: &mut V,
        policy: &Policy,
        locks: &mut Locks,
        number: u64,
    ) -> Result<LineReport, AllocError>
        ensures answered { IfOk result (λ r. (c : Contents) (v : Option Transaction)
            → V.holds vault.old c → V.is_clean vault.new → HasTransaction c self.old.session v
            → AfterNext (V.holds vault.new) (has_grown (V.faults vault.old) (V.faults vault.new)) c
            policy.now locks.old v (cut_through self.old.pending self.old) self.new r.outcome
            r.account) }
        ensures locks { OnOk result (LocksFollow number self.old.session self.new.session locks.old
            locks.new) }
        ensures err { OnErr result ((has_newline self.old.pending ≡ true) × NothingDone V.Vault
            vault.old vault.new locks.old locks.new) }
        ensures acts { ActsOnce V.Vault vault.old vault.new
            (IsOkAnd result (λ r. WasDone r.outcome))
            (held_if (has_newline self.old.pending) LineOutcome.Done policy.now self.old.session
            (reading (line_after self.old self.old.pending))) }
        ensures unasked { (c : Contents) (v : Option Transaction)
            → HasTransaction c self.old.session v
            → (has_newline self.old.pending ≡ true → asks policy.now self.old.state v
            (reading (line_after self.old self.old.pending)) ≡ false) → vault.new ≡ vault.old }
    {
        self.cut += self.cutter.feed(&self.pending[self.cut..]);
        self.answer_next(alloc, vault, policy, locks, number)
    }

    /// Cuts a piece that came at this moment up to its first LF, and keeps what follows it. Only
    /// a piece with LF sets the clock, and takes memory.
    fn cut_piece(&mut self, piece: &[u8], now: u64) -> Result<(), AllocError>
        requires { length piece.now ≤ most_in_a_piece }
        ensures cut { OnOk result (self.new ≡ cut_through piece.now
            (clocked now piece.now self.old)) }
        ensures err { OnErr result (has_newline piece.now ≡ true) }
    {
        self.pending.clear();
        self.cut = 0;
        let n = self.cutter.feed(piece);
        let Some(_) = self.cutter.line() else {
            return Ok(());
        };
        self.clock = now;
        self.pending.extend_from_slice(&piece[n..])?;
        Ok(())
    }

    /// Answers the line that is whole, if one is; what was owed is taken. The report has what was
    /// judged. An error is want of memory.
    fn answer_next<V: Vault>(
        &mut self,
        alloc: Global,
        vault: &mut V,
        policy: &Policy,
        locks: &mut Locks,
        number: u64,
    ) -> Result<LineReport, AllocError>
        ensures answered { IfOk result (λ r. (c : Contents) (v : Option Transaction)
            → V.holds vault.old c → V.is_clean vault.new → HasTransaction c self.old.session v
            → AfterNext (V.holds vault.new) (has_grown (V.faults vault.old) (V.faults vault.new)) c
            policy.now locks.old v self.old self.new r.outcome r.account) }
        ensures locks { OnOk result (LocksFollow number self.old.session self.new.session locks.old
            locks.new) }
        ensures err { OnErr result ((self.old.held.whole ≡ true) × NothingDone V.Vault vault.old
            vault.new locks.old locks.new) }
        ensures acts { ActsOnce V.Vault vault.old vault.new
            (IsOkAnd result (λ r. WasDone r.outcome))
            (held_if self.old.held.whole LineOutcome.Done policy.now self.old.session
            (reading (line_of self.old))) }
        ensures unasked { (c : Contents) (v : Option Transaction)
            → HasTransaction c self.old.session v
            → (self.old.held.whole ≡ true → asks policy.now self.old.state v
            (reading (line_of self.old)) ≡ false) → vault.new ≡ vault.old }
    {
        self.output.clear();
        let Some(cut) = self.cutter.line() else {
            return Ok(LineReport {
                outcome: LineOutcome::Done,
                account: Account::Nothing,
            });
        };
        let context = LineContext {
            policy,
            stamp: self.stamp.as_bytes(),
            number,
        };
        lines::answer(
            alloc,
            vault,
            context,
            locks,
            cut,
            &mut self.output,
            &mut self.state,
            &mut self.session,
        )
    }
}

/// Whether a reference to a number found a message, be it marked.
fn is_found(picked: &Result<Head, Pick>) -> bool
    ensures { result ≡ is_found_at picked.now }
{
    match picked {
        Ok(_) => true,
        Err(Pick::NoSuch) => false,
        Err(Pick::Deleted | Pick::Denied(_)) => true,
    }
}

/// The timestamp of a greeting (RFC 1939, 7).
fn timestamp_of(alloc: Global, number: u64, boot: u64, host: &str) -> Result<String, AllocError>
    ensures { IfOk result (λ text. string_bytes text ≡ timestamp number boot host.now) }
{
    let text = format!(in alloc; "<{number}.{boot}@{host}>")?;
    Ok(text)
}
