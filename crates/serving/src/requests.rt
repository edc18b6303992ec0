//! The links of the administration: one request over HTTP each, and its response.
ghost use Rattle.std.specs.Prelude.{◌≡◌, ◌+◌, ◌<◌, ◌≤◌, ◌==◌, ◌++◌, ℕ, Bool, List, [], Some, Ok};
ghost use Rattle.std.specs.Prelude.{length, option_map, IfNone, IfOk, ◌⊎◌, true, false};
ghost use Rattle.std.specs.Prelude.{not, if◌then◌else◌, OnErr};
ghost use Rattle.vault.specs.Records.{Records};
ghost use Rattle.office.specs.Events.{Log};
ghost use Rattle.office.specs.Log.{access_in};
ghost use Rattle.office.specs.Taken.{trace_of};
ghost use Rattle.office.specs.Seen.{answer_seen, command_seen, outcome_seen};
ghost use Rattle.office.specs.Stands.{StandsFor, vault_of};
ghost use Rattle.adminhttp.specs.Request.{IsRequest};
ghost use Rattle.adminhttp.specs.Sites.{Site};
ghost use Rattle.adminhttp.specs.Responses.{answer_response, refusal_response, fault_response};
ghost use Rattle.adminhttp.specs.Contents.{response_of as response_of_content};
ghost use Rattle.adminhttp.specs.declared.refusal.Refusal.TheVariants.{OutOfMemory};
ghost use Rattle.serving.specs.HttpTurns.{is_late_at, most_exchanges, TheseGoOn};
ghost use Rattle.serving.specs.HttpParts.{ComeTo, GivesApart, DoesApart, AskingApart, AsksApart};
ghost use Rattle.serving.specs.HttpParts.{ServesApart, HadTurnAt, ServesPlace, Writes};
ghost use Rattle.serving.specs.HttpParts.{KeepsLink, KeepsWritten};
ghost use Rattle.serving.specs.HttpWorks.{HasAcceptedForAdmin, HasRead, HasWritten, HasHttpTurn};
ghost use Rattle.serving.specs.HttpWorks.{HadHttpTurns, response_of};
ghost use Rattle.serving.specs.Parts.{PollsBy};
ghost use Rattle.serving.specs.Hearing.{Hearing, HasHeard, HeardApart, heard_by};
ghost use Rattle.serving.specs.Requests.{octets_of, IsResponseTo, HasAsked, HasOneMore};
ghost use Rattle.serving.specs.Requests.{StillAnswers, StillAsked, AllStillAnswer, AllStillAsked};

use crate::ends::close_link;
use crate::links::{MOST_WRITES, SHARE_AMONG_OTHERS};
use crate::listener::{AdminRequest, LinkEvent, Listener};
use crate::octets::part_of;
use crate::server::Server;
use crate::wire::{Io, Link, Port, Wire};
use adminhttp::{
    Content, Got, Method, Refusal, Request, RequestLine, Target, policy_response, response,
};
use creds::HostName;
use office::{Account, AdminCommand, Answer, Event, MOST_IN_A_PIECE, Office, Outcome};
use policy::PolicyFault;
use std::alloc::{AllocError, Global};
use vault::Vault;

/// How many links of the administration may be open at once.
pub const MOST_REQUESTS: usize = 8;

/// A link of the administration is closed, finished or not, in the first turn that is so many
/// seconds or more after its acceptance.
const MOST_SECONDS: u64 = 60;

/// The response to a request.
#[derive(Drop)]
pub(crate) enum Response {
    /// These octets.
    Made(Vec<u8>),
    /// The fixed text of a refusal, which takes no memory.
    Fixed(Refusal),
}

impl Response {
    /// The response's octets.
    fn octets(&self) -> &[u8]
        ensures { result.now ≡ octets_of self.now }
    {
        match self {
            Response::Made(octets) => octets.as_slice(),
            Response::Fixed(refusal) => refusal.bytes(),
        }
    }
}

/// A link of the administration, with its request and its response.
#[derive(Drop)]
pub(crate) struct Exchange {
    link: Link,
    /// When the link was accepted, in seconds.
    since: u64,
    /// What was read of the request.
    read: Vec<u8>,
    /// The response, once the request is whole or refused.
    response: Option<Response>,
    /// How many octets of the response were written.
    written: usize,
    /// Nothing is to be read or written any more.
    is_over: bool,
}

impl Exchange {
    /// Whether its link was accepted 60 seconds ago or more.
    fn is_late(&self, now: u64) -> bool
        ensures { result ≡ is_late_at now self.now }
    {
        now.saturating_sub(self.since) >= MOST_SECONDS
    }
}

/// The open links of the administration, in the order in which they were accepted.
#[derive(Drop)]
pub(crate) struct Requests {
    alloc: Global,
    pub(crate) exchanges: Vec<Exchange>,
    /// More can be written at once: the next turn doesn't wait.
    pub(crate) poll_now: bool,
}

impl Requests {
    /// No link is open.
    pub(crate) fn new(alloc: Global) -> Requests
        ensures { result.exchanges.items ≡ [] }
    {
        Requests {
            alloc,
            exchanges: Vec::new(alloc),
            poll_now: false,
        }
    }

    /// How many links are open.
    pub(crate) fn count(&self) -> usize
        ensures { result ≡ length self.now.exchanges.items }
    {
        self.exchanges.len()
    }

    /// Keeps a link that was accepted, unless eight are open. Returns whether it is kept. Its error
    /// is [`AllocError`]: memory for it was refused.
    fn keep(&mut self, link: Link, now: u64) -> Result<bool, AllocError>
        ensures kept { IfOk result (λ kept. kept ≡ true → HasOneMore now link
            self.old.exchanges.items self.new.exchanges.items) }
        ensures full { IfOk result (λ kept. kept ≡ false
            → most_exchanges ≤ length self.old.exchanges.items) }
        ensures turned_away { IfOk result (λ kept. kept ≡ false
            → self.new.exchanges.items ≡ self.old.exchanges.items) }
        ensures refused { OnErr result (self.new.exchanges.items ≡ self.old.exchanges.items) }
        ensures few { length self.old.exchanges.items ≤ most_exchanges
            → length self.new.exchanges.items ≤ most_exchanges }
    {
        if self.exchanges.len() >= MOST_REQUESTS {
            return Ok(false);
        }
        let exchange = Exchange {
            link,
            since: now,
            read: Vec::new(self.alloc),
            response: None,
            written: 0,
            is_over: false,
        };
        self.exchanges.push(exchange)?;
        Ok(true)
    }
}

/// The fixed response of a refusal, and its content.
fn fixed<'a>(refusal: Refusal) -> (Response, Content<'a>)
    ensures response { octets_of result.0 ≡ refusal_response refusal }
    ensures content { octets_of result.0 ≡ response_of_content result.1 }
{
    (Response::Fixed(refusal), Content::Refusal(refusal))
}

/// The response to an answer, and its content.
fn response_to_answer<'a>(alloc: Global, answer: &'a Answer) -> (Response, Content<'a>)
    ensures response { (octets_of result.0 ≡ answer_response (answer_seen answer.now))
        ⊎ (octets_of result.0 ≡ refusal_response OutOfMemory) }
    ensures content { octets_of result.0 ≡ response_of_content result.1 }
{
    match response(alloc, answer) {
        Ok(octets) => (Response::Made(octets), Content::Answer(answer)),
        Err(_) => fixed(Refusal::OutOfMemory),
    }
}

/// The response to a command that had this outcome, and its content.
fn response_to<'a>(alloc: Global, outcome: &'a Outcome) -> (Response, Content<'a>)
    ensures response { IsResponseTo (outcome_seen outcome.now) (octets_of result.0) }
    ensures content { octets_of result.0 ≡ response_of_content result.1 }
{
    match outcome {
        Outcome::Answered(answer) => response_to_answer(alloc, answer),
        Outcome::NoMemory => fixed(Refusal::OutOfMemory),
        _ => fixed(Refusal::StoreFailed),
    }
}

/// Tells the listener of the connection whose session a command ended.
fn report_end<L: Listener>(listener: &mut L, command: &AdminCommand, account: &Account)
    ensures { HasHeard L.heard listener.old listener.new (heard_by (command_seen command.now)
        account.now) }
{
    if let AdminCommand::EndSession(connection) = command {
        listener.on_account(*connection, account);
    }
}

/// Gives a command to the office, makes the response, and reports it to the listener.
fn run_command<V: Vault, L: Listener>(
    alloc: Global,
    office: &mut Office<V>,
    listener: &mut L,
    link: Link,
    command: &AdminCommand,
) -> Response
    ensures works { (site : Site) (read : List ℕ) → ((B : Records) (L : Log)
        → StandsFor V.holds office.old (trace_of B L)
        → IsRequest site (access_in L) read (Ok (command_seen command.now)))
        → GivesApart V.Vault office.old office.new
        (HeardApart L.heard listener.old listener.new
        (ComeTo site read (Some (octets_of result)))) }
    ensures asked { (site : Site) (B : Records) (L : Log) (read : List ℕ)
        → StandsFor V.holds office.old (trace_of B L)
        → IsRequest site (access_in L) read (Ok (command_seen command.now))
        → V.is_clean (vault_of office.new)
        → HasAsked V.holds site B L read office.new (Some (octets_of result)) }
    ensures clean { V.is_clean (vault_of office.new) → V.is_clean (vault_of office.old) }
{
    let report = office.step_with_account(Event::Admin(command));
    report_end(listener, command, &report.account);
    let (response, content) = response_to(alloc, &report.outcome);
    let line = Some(RequestLine::of(command));
    listener.on_request(link, &AdminRequest { line, content });
    response
}

/// Tells the listener of a refused request. Returns its response.
fn refuse<L: Listener>(
    alloc: Global,
    listener: &mut L,
    link: Link,
    read: &[u8],
    refusal: Refusal,
) -> Response
    ensures response { octets_of result ≡ refusal_response refusal }
    ensures heard { (h : List Hearing) → L.heard listener.old h → L.heard listener.new h }
{
    let line = RequestLine::read(alloc, read).unwrap_or(None);
    let content = Content::Refusal(refusal);
    listener.on_request(link, &AdminRequest { line, content });
    Response::Fixed(refusal)
}

/// The response to a body that isn't a policy, and its content.
fn response_to_fault<'a>(alloc: Global, fault: &PolicyFault) -> (Response, Content<'a>)
    ensures response { (octets_of result.0 ≡ fault_response fault.now)
        ⊎ (octets_of result.0 ≡ refusal_response OutOfMemory) }
    ensures content { octets_of result.0 ≡ response_of_content result.1 }
{
    match policy_response(alloc, fault) {
        Ok(octets) => (Response::Made(octets), Content::Fault(*fault)),
        Err(_) => fixed(Refusal::OutOfMemory),
    }
}

/// Tells the listener of a body that is no policy. Returns the response.
fn refuse_policy<L: Listener>(
    alloc: Global,
    listener: &mut L,
    link: Link,
    fault: &PolicyFault,
) -> Response
    ensures response { (octets_of result ≡ fault_response fault.now)
        ⊎ (octets_of result ≡ refusal_response OutOfMemory) }
    ensures heard { (h : List Hearing) → L.heard listener.old h → L.heard listener.new h }
{
    let (response, content) = response_to_fault(alloc, fault);
    let line = Some(RequestLine {
        method: Method::Put,
        target: Target::Policy,
    });
    listener.on_request(link, &AdminRequest { line, content });
    response
}

/// The response to what was read of a request to a site; `None` while the request isn't whole. A
/// command is given to the office.
fn respond_to<V: Vault, L: Listener>(
    alloc: Global,
    office: &mut Office<V>,
    listener: &mut L,
    site: &Option<HostName>,
    link: Link,
    read: &[u8],
) -> Option<Response>
    ensures works { GivesApart V.Vault office.old office.new
        (HeardApart L.heard listener.old listener.new
        (ComeTo site.now read.now (option_map octets_of result))) }
    ensures asked { (B : Records) (L : Log) → StandsFor V.holds office.old (trace_of B L)
        → V.is_clean (vault_of office.new) → HasAsked V.holds site.now B L read.now office.new
        (option_map octets_of result) }
{
    match Request::read(alloc, site, office.admin_access(), read) {
        Got::More => None,
        Got::Bad(refusal) => Some(refuse(alloc, listener, link, read, refusal)),
        Got::BadPolicy(fault) => Some(refuse_policy(alloc, listener, link, &fault)),
        Got::Command(asked) => Some(run_command(alloc, office, listener, link, &asked)),
        Got::NoMemory => Some(refuse(alloc, listener, link, read, Refusal::OutOfMemory)),
    }
}

/// Takes a piece of a request, and makes the response once the request is whole or refused.
fn take_piece<V: Vault, L: Listener>(
    alloc: Global,
    office: &mut Office<V>,
    listener: &mut L,
    site: &Option<HostName>,
    exchange: &mut Exchange,
    piece: &[u8],
)
    ensures works { GivesApart V.Vault office.old office.new
        (HeardApart L.heard listener.old listener.new
        (ComeTo site.now (exchange.old.read.items ++ piece.now) (response_of exchange.new))) }
    ensures asked { (B : Records) (L : Log) → StandsFor V.holds office.old (trace_of B L)
        → V.is_clean (vault_of office.new) → HasAsked V.holds site.now B L
        (exchange.old.read.items ++ piece.now) office.new
        (option_map octets_of exchange.new.response) }
    ensures read { IfNone exchange.new.response
        (exchange.new.read.items ≡ exchange.old.read.items ++ piece.now) }
    ensures keeps { KeepsWritten exchange.old exchange.new }
{
    let link = exchange.link;
    if exchange.read.extend_from_slice(piece).is_err() {
        let read = exchange.read.as_slice();
        let response = refuse(alloc, listener, link, read, Refusal::OutOfMemory);
        exchange.response = Some(response);
        return;
    }
    exchange.response = respond_to(
        alloc,
        office,
        listener,
        site,
        link,
        exchange.read.as_slice(),
    );
}

/// Writes once of a response. Returns how many octets were taken. The exchange is over if nothing
/// is left, or the link is broken or at its end.
fn write_some<W: Wire, L: Listener>(
    wire: &mut W,
    listener: &mut L,
    exchange: &mut Exchange,
) -> usize
    ensures works { AskingApart W.asked wire.old wire.new
        (Writes exchange.old exchange.new (if result == 0 then 0 else 1) result
        (not (result == 0))) }
    ensures keeps { KeepsLink exchange.old exchange.new }
    ensures answers { StillAnswers W.tells wire.old exchange.old wire.new exchange.new }
    ensures heard { (h : List Hearing) → L.heard listener.old h → L.heard listener.new h }
{
    if exchange.is_over {
        return 0;
    }
    let Some(response) = &exchange.response else {
        return 0;
    };
    let octets = response.octets();
    let whole = octets.len();
    if exchange.written >= whole {
        exchange.is_over = true;
        return 0;
    }
    let part = part_of(octets, exchange.written, SHARE_AMONG_OTHERS);
    match wire.write(Port::Admin, exchange.link, part) {
        Io::Count(count) => {
            listener.on_link(wire, Port::Admin, exchange.link, LinkEvent::WasWritten);
            exchange.written += count;
            exchange.is_over = exchange.written >= whole;
            count
        }
        Io::Later => 0,
        Io::End | Io::Broken => {
            exchange.is_over = true;
            0
        }
    }
}

/// Writes a response until the link takes no more, or its share is reached. Returns whether more
/// can be written at once.
fn write_response<W: Wire, L: Listener>(
    wire: &mut W,
    listener: &mut L,
    exchange: &mut Exchange,
) -> bool
    ensures works { AskingApart W.asked wire.old wire.new
        (λ calls. HasWritten exchange.old exchange.new calls × PollsBy false result calls) }
    ensures keeps { KeepsLink exchange.old exchange.new }
    ensures answers { StillAnswers W.tells wire.old exchange.old wire.new exchange.new }
    ensures heard { (h : List Hearing) → L.heard listener.old h → L.heard listener.new h }
{
    let mut written: usize = 0;
    for _times in 0..MOST_WRITES {
        let count = write_some(wire, listener, exchange);
        if count == 0 {
            return false;
        }
        written = written.saturating_add(count);
        if written >= SHARE_AMONG_OTHERS {
            return true;
        }
    }
    true
}

impl<V: Vault, W: Wire, L: Listener> Server<V, W, L> {
    /// Accepts a link of the administration; or closes it, if eight are open or memory for it was
    /// refused. Returns whether one came.
    fn accept_admin_link(&mut self, requests: &mut Requests, now: u64) -> bool
        ensures few { length requests.old.exchanges.items ≤ most_exchanges
            → length requests.new.exchanges.items ≤ most_exchanges }
        ensures works { AsksApart W.Wire L.Listener self.old self.new
            (HasAcceptedForAdmin now 1 result requests.old.exchanges.items
            requests.new.exchanges.items) }
        ensures answers { AllStillAnswer W.tells self.old.wire requests.old.exchanges.items
            self.new.wire requests.new.exchanges.items }
    {
        let Some(link) = self.wire.accept(Port::Admin) else {
            return false;
        };
        self.listener
            .on_link(&self.wire, Port::Admin, link, LinkEvent::Came);
        match requests.keep(link, now) {
            Ok(true) => {}
            Ok(false) => close_link(&mut self.wire, &mut self.listener, Port::Admin, link),
            Err(_) => close_link(&mut self.wire, &mut self.listener, Port::Admin, link),
        }
        true
    }

    /// Accepts the links of the administration that came, at most so many.
    pub(crate) fn accept_admin_links(&mut self, requests: &mut Requests, most: usize, now: u64)
        ensures few { length requests.old.exchanges.items ≤ most_exchanges
            → length requests.new.exchanges.items ≤ most_exchanges }
        ensures works { (has_more : Bool) × AsksApart W.Wire L.Listener self.old self.new
            (HasAcceptedForAdmin now most has_more requests.old.exchanges.items
            requests.new.exchanges.items) }
        ensures answers { AllStillAnswer W.tells self.old.wire requests.old.exchanges.items
            self.new.wire requests.new.exchanges.items }
    {
        for _times in 0..most {
            if !self.accept_admin_link(requests, now) {
                return;
            }
        }
    }

    /// Reads a piece of a request that isn't whole. The exchange is over if the link is at its end
    /// or broken.
    fn read_request(&mut self, alloc: Global, site: &Option<HostName>, exchange: &mut Exchange)
        ensures works { DoesApart V.Vault W.Wire L.Listener self.old self.new
            (λ B L. HasRead site.now B L exchange.old exchange.new) }
        ensures asked { StillAsked V.holds V.is_clean W.tells site.now
            self.old.office self.old.wire exchange.old
            self.new.office self.new.wire exchange.new }
        ensures keeps { KeepsLink exchange.old exchange.new }
    {
        if exchange.is_over {
            return;
        }
        if exchange.response.is_some() {
            return;
        }
        let mut room = [0; MOST_IN_A_PIECE];
        match self.wire.read(Port::Admin, exchange.link, &mut room) {
            Io::Count(count) => {
                let piece = &room[..count];
                take_piece(
                    alloc,
                    &mut self.office,
                    &mut self.listener,
                    site,
                    exchange,
                    piece,
                );
            }
            Io::Later => {}
            Io::End | Io::Broken => exchange.is_over = true,
        }
    }

    /// If the link was accepted 60 seconds ago or more, marks the exchange as over and does nothing
    /// else. Otherwise reads the next piece of the request, and writes what follows of the
    /// response. Returns whether more can be written at once.
    fn serve_exchange(
        &mut self,
        alloc: Global,
        site: &Option<HostName>,
        exchange: &mut Exchange,
        now: u64,
    ) -> bool
        ensures works { ServesApart V.Vault W.Wire L.Listener self.old self.new
            (PollsBy false result)
            (λ B L. HasHttpTurn site.now now B L exchange.old exchange.new) }
        ensures asked { StillAsked V.holds V.is_clean W.tells site.now
            self.old.office self.old.wire exchange.old
            self.new.office self.new.wire exchange.new }
        ensures keeps { KeepsLink exchange.old exchange.new }
        ensures timely { exchange.new.is_over ≡ false → is_late_at now exchange.new ≡ false }
    {
        if exchange.is_late(now) {
            exchange.is_over = true;
            return false;
        }
        self.read_request(alloc, site, exchange);
        write_response(&mut self.wire, &mut self.listener, exchange)
    }

    /// Serves the link at one place, and closes it if its exchange is over. Returns
    /// whether it stays.
    fn serve_place(
        &mut self,
        requests: &mut Requests,
        site: &Option<HostName>,
        place: usize,
        now: u64,
    ) -> bool
        requires { place < length requests.old.exchanges.items }
        ensures works { ServesApart V.Vault W.Wire L.Listener self.old self.new
            (PollsBy requests.old.poll_now requests.new.poll_now)
            (HadTurnAt site.now now place result requests.old.exchanges.items
            requests.new.exchanges.items) }
        ensures asked { AllStillAsked V.holds V.is_clean W.tells site.now
            self.old.office self.old.wire requests.old.exchanges.items
            self.new.office self.new.wire requests.new.exchanges.items }
        ensures left { length requests.new.exchanges.items + (if result then 0 else 1)
            ≡ length requests.old.exchanges.items }
        ensures held { ServesPlace now place result requests.old.exchanges.items
            requests.new.exchanges.items }
    {
        let alloc = requests.alloc;
        let exchange = &mut requests.exchanges[place];
        requests.poll_now |= self.serve_exchange(alloc, site, exchange, now);
        if !exchange.is_over {
            return true;
        }
        let link = exchange.link;
        close_link(&mut self.wire, &mut self.listener, Port::Admin, link);
        requests.exchanges.remove(place);
        false
    }

    /// Serves each link of the administration, in the order in which they were accepted, and closes
    /// those that are over.
    pub(crate) fn serve_requests(
        &mut self,
        requests: &mut Requests,
        site: &Option<HostName>,
        now: u64,
    )
        ensures works { ServesApart V.Vault W.Wire L.Listener self.old self.new
            (PollsBy false requests.new.poll_now)
            (λ B L. HadHttpTurns site.now now B L requests.old.exchanges.items
            requests.new.exchanges.items) }
        ensures asked { AllStillAsked V.holds V.is_clean W.tells site.now
            self.old.office self.old.wire requests.old.exchanges.items
            self.new.office self.new.wire requests.new.exchanges.items }
        ensures stay { TheseGoOn now requests.new.exchanges.items }
        ensures no_more { length requests.new.exchanges.items
            ≤ length requests.old.exchanges.items }
    {
        requests.poll_now = false;
        let mut place = 0;
        while place < requests.exchanges.len() {
            if self.serve_place(requests, site, place, now) {
                place += 1;
            }
        }
    }
}
