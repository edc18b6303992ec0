//! A wire whose clients come through a proxy on the same machine.
ghost use Rattle.std.specs.Prelude.{◌≡◌, ◌<◌, ◌++◌, ◌∷◌, ◌⊎◌, ℕ, List, [], Option, Some, None};
ghost use Rattle.std.specs.Prelude.{false, length, IfSome, if◌then◌else◌};
ghost use Rattle.std.specs.Ordering.{nat_cmp};
ghost use Rattle.std.specs.declared.net.ip_addr.IpAddr.{IpAddr as Address};
ghost use Rattle.std.specs.BTreeMap.{get};
ghost use Rattle.arrayvec.specs.ArrayVec.{array_vec_len};
ghost use Rattle.serving.specs.Wires.{ToldOfPorts, AreFresh, at_port, has_read, has_accepted};
ghost use Rattle.serving.specs.Wires.{has_closed, counted, is_fault, IsWithin};
ghost use Rattle.serving.specs.Calls.{Call};
ghost use Rattle.serving.specs.Calls as call;
ghost use Rattle.serving.specs.declared.wire.Io.{Io as AnIo};
ghost use Rattle.serving.specs.declared.wire.Port.TheVariants.{Pop as ThePop};
ghost use Rattle.serving.specs.declared.wire.Io.TheVariants.{Later as TheLater};
ghost use Rattle.serving.specs.declared.wire.Io.TheVariants.{Broken as TheBroken};
ghost use Rattle.proxy.specs.Proxied.{TellsProxy, TellsProxied, proxy_once, IsLineRead, IsAmid};
ghost use Rattle.proxy.specs.Proxied.{IsAsFarAs, has_line, IsAddressOf};
ghost use Rattle.proxy.specs.Behind.{TakesLine, AskedAmid, AskedBehind, AreBehindLines};
ghost use Rattle.proxy.specs.Lines.{IsProxyLine};
ghost use Rattle.proxy.specs.Refusals.{refusal_of, address_by, address_behind};
ghost use Rattle.proxy.specs.declared.wire.Progress.{Progress as HowFar};

use crate::line::{MOST_OCTETS, ProxyLine};
use arrayvec::ArrayVec;
use serving::{Io, Link, NotedWire, Port, Refusal, Wire};
use std::alloc::Global;
use std::collections::BTreeMap;
use std::net::{IpAddr, SocketAddr};
use std::time::Clock;

/// How many seconds after its acceptance the first line of a link has to be whole.
const MOST_SECONDS: u64 = 10;

/// The octets of a line that isn't whole yet, or just became so.
type Line = ArrayVec<u8, MOST_OCTETS>;

/// A first line that isn't whole yet.
#[derive(Drop)]
pub(crate) struct Begun {
    line: Line,
    /// The clock's second in which the link was accepted.
    since: u64,
}

/// How far a line was read.
#[derive(Clone, Copy)]
pub(crate) enum Progress {
    /// To its end.
    Whole,
    /// It isn't whole; what the last read gave.
    Open(Io),
}

/// A link that was refused.
#[derive(Clone, Copy)]
pub(crate) struct Refused {
    link: u64,
    why: Refusal,
}

/// A wire that does what the one inside does, but for the first line of each client's link, which
/// is a proxy's.
///
/// That line is read here, and never handed on: a read gives `Later` until it was read whole, and a
/// look gives `Later` too. A link is closed, and its read gives `Broken`, if the first line is
/// no PROXY line, is longer than 107 octets, isn't whole at a read ten seconds or more after the
/// acceptance, or if memory for it is wanting; `refusal` tells which of these it was. Links of
/// the administration have no such line.
///
/// Contracts see what the wire inside records, but of what was read from a client's link only the
/// octets after its first line; and that these are after a PROXY line. They see too what it was
/// asked, and that the wire inside was asked the same, but for what reads on first lines.
#[derive(Drop)]
pub struct ProxiedWire<W: Wire, C: Clock> {
    pub wire: W,
    pub clock: C,
    /// The lines that aren't whole, by the numbers of their links.
    begun: BTreeMap<u64, Begun>,
    /// The sources that lines named, by the numbers of their links.
    known: BTreeMap<u64, Option<IpAddr>>,
    /// A line was read whole since the last wait, and more may lie after it.
    hurries: bool,
    /// The link that was refused last.
    refused: Option<Refused>,
}

/// How long a wait is: no time if a line was read whole, and more may lie after it.
fn wait_of(hurries: bool, millis: u32) -> u32
    ensures { result ≡ (if hurries then 0 else millis) }
{
    if hurries { 0 } else { millis }
}

/// The address of a link: the source that its line named, if it named one; else that of the wire
/// inside. `None` while no line is known.
fn address_by(known: Option<Option<IpAddr>>, inside: Option<IpAddr>) -> Option<IpAddr>
    ensures { result ≡ address_by known inside }
{
    match known {
        Some(Some(source)) => Some(source),
        Some(None) => inside,
        None => None,
    }
}

/// Reads the next octet of a line.
fn read_octet<W: Wire>(wire: &mut W, link: Link, line: &mut Line) -> Progress
    requires { array_vec_len line.old < 107 }
    ensures told { (t : ToldOfPorts) → W.tells wire.old t
        → IsLineRead W.tells wire.new link.number line.old.items line.new.items result t }
    ensures so_far { has_line line.old.items ≡ false → IsAsFarAs result line.new.items }
    ensures called { (a : List Call) → W.asked wire.old a
        → TakesLine W.asked wire.new link 1 result a }
{
    let mut one = [0u8; 1];
    match wire.read(Port::Pop, link, &mut one) {
        Io::Count(_) => {}
        Io::Later => return Progress::Open(Io::Later),
        Io::End => return Progress::Open(Io::End),
        Io::Broken => return Progress::Open(Io::Broken),
    }
    let octet = one[0];
    line.push(octet);
    if octet == b'\n' {
        return Progress::Whole;
    }
    Progress::Open(Io::Count(1))
}

/// Reads octets of a line, one by one, until it is whole or has 107, or no octet comes; and stops
/// after one more than `left`.
fn read_octets<W: Wire>(wire: &mut W, link: Link, line: &mut Line, left: usize) -> Progress
    requires { array_vec_len line.old < 107 }
    ensures told { (t : ToldOfPorts) → W.tells wire.old t
        → IsLineRead W.tells wire.new link.number line.old.items line.new.items result t }
    ensures so_far { has_line line.old.items ≡ false → IsAsFarAs result line.new.items }
    ensures called { (a : List Call) → W.asked wire.old a
        → TakesLine W.asked wire.new link 1 result a }
{
    match read_octet(wire, link, line) {
        Progress::Open(Io::Count(count)) => {
            if left == 0 {
                return Progress::Open(Io::Count(count));
            }
            if line.is_full() {
                return Progress::Open(Io::Count(count));
            }
            read_octets(wire, link, line, left - 1)
        }
        Progress::Open(Io::Later) => Progress::Open(Io::Later),
        Progress::Open(Io::End) => Progress::Open(Io::End),
        Progress::Open(Io::Broken) => Progress::Open(Io::Broken),
        Progress::Whole => Progress::Whole,
    }
}

impl<W: Wire, C: Clock> ProxiedWire<W, C> {
    /// A wire around this one, from which nothing was accepted yet. The clock measures how long a
    /// link's first line takes.
    pub fn new(alloc: Global, wire: W, clock: C) -> ProxiedWire<W, C>
        ensures wire { result.wire ≡ wire }
        ensures tells { (t : ToldOfPorts) → W.tells wire t → AreFresh t
            → TellsProxy W.tells result.wire (get nat_cmp result.begun) (get nat_cmp result.known)
            t }
        ensures asked { W.asked wire [] → AskedBehind W.asked result.wire
            (get nat_cmp result.known) result.hurries [] }
    {
        ProxiedWire {
            wire,
            clock,
            begun: BTreeMap::new(alloc),
            known: BTreeMap::new(alloc),
            hurries: false,
            refused: None,
        }
    }

    /// The clock's second; 0 if it can't be read.
    fn second(&self) -> u64 {
        match self.clock.monotonic() {
            Ok(time) => time.as_secs(),
            Err(_) => 0,
        }
    }

    /// Closes a client's link that was read from in vain, and says that it is broken.
    fn break_off(&mut self, link: Link, why: Refusal) -> Io
        ensures told { (u : ToldOfPorts) → TellsProxy W.tells self.old.wire
            (get nat_cmp self.old.begun) (get nat_cmp self.old.known)
            (at_port ThePop (λ of. has_read of link.number TheLater []) u)
            → TellsProxy W.tells self.new.wire (get nat_cmp self.new.begun)
            (get nat_cmp self.new.known) (at_port ThePop (λ of. has_read of link.number result [])
            u) }
        ensures broken { result ≡ TheBroken }
        ensures refused { refusal_of link.number self.new.refused ≡ Some why }
        ensures called { (least : ℕ) (far : HowFar) (room : ℕ) (a : List Call)
            → AskedAmid W.asked self.old.wire (get nat_cmp self.old.known)
            self.old.hurries link least far a
            → AskedBehind W.asked self.new.wire (get nat_cmp self.new.known)
            self.new.hurries (a ++ call.Read ThePop link room result [] ∷ []) }
    {
        self.wire.close(Port::Pop, link);
        self.refused = Some(Refused {
            link: link.number,
            why,
        });
        Io::Broken
    }

    /// Reads on a client's link whose first line isn't wanted any more, or never was: what lies
    /// there stays unread, and the link is closed.
    fn refuse(&mut self, link: Link, why: Refusal) -> Io
        ensures told { (u : ToldOfPorts) → TellsProxy W.tells self.old.wire
            (get nat_cmp self.old.begun) (get nat_cmp self.old.known) u
            → TellsProxy W.tells self.new.wire (get nat_cmp self.new.begun)
            (get nat_cmp self.new.known) (at_port ThePop (λ of. has_read of link.number result [])
            u) }
        ensures within { IsWithin 0 result }
        ensures called { (room : ℕ) (a : List Call)
            → get nat_cmp self.old.known link.number ≡ None
            → AskedBehind W.asked self.old.wire (get nat_cmp self.old.known)
            self.old.hurries a
            → AskedBehind W.asked self.new.wire (get nat_cmp self.new.known)
            self.new.hurries (a ++ call.Read ThePop link room result [] ∷ []) }
    {
        let mut none = [0u8; 0];
        match self.wire.read(Port::Pop, link, &mut none) {
            Io::End => Io::End,
            Io::Broken => Io::Broken,
            Io::Later | Io::Count(_) => self.break_off(link, why),
        }
    }

    /// Keeps what was read of a line that isn't whole; or closes the link, if the line is too
    /// long or takes too long.
    fn keep(&mut self, link: Link, begun: Begun) -> Io
        ensures told { (u : ToldOfPorts) → IsAmid W.tells self.old.wire (get nat_cmp self.old.begun)
            (get nat_cmp self.old.known) link.number begun.line.items u
            → has_line begun.line.items ≡ false → TellsProxy W.tells self.new.wire
            (get nat_cmp self.new.begun) (get nat_cmp self.new.known)
            (at_port ThePop (λ of. has_read of link.number result []) u) }
        ensures within { IsWithin 0 result }
        ensures called { (io : AnIo) (room : ℕ) (a : List Call) → is_fault io ≡ false
            → AskedAmid W.asked self.old.wire (get nat_cmp self.old.known)
            self.old.hurries link 1 (Progress.Open io) a
            → AskedBehind W.asked self.new.wire (get nat_cmp self.new.known)
            self.new.hurries (a ++ call.Read ThePop link room result [] ∷ []) }
        ensures too_long { array_vec_len begun.line ≡ 107
            → refusal_of link.number self.new.refused ≡ Some Refusal.NoLine }
        ensures open_yet { array_vec_len begun.line < 107 → (result ≡ TheLater)
            ⊎ (refusal_of link.number self.new.refused ≡ Some Refusal.TooLate)
            ⊎ (refusal_of link.number self.new.refused ≡ Some Refusal.NoMemory) }
    {
        if begun.line.is_full() {
            return self.break_off(link, Refusal::NoLine);
        }
        if self.second().saturating_sub(begun.since) >= MOST_SECONDS {
            return self.break_off(link, Refusal::TooLate);
        }
        match self.begun.insert(link.number, begun) {
            Ok(_) => Io::Later,
            Err(_) => self.break_off(link, Refusal::NoMemory),
        }
    }

    /// Learns the source that a whole line names; or closes the link, if it is no PROXY line.
    fn learn(&mut self, link: Link, line: &[u8]) -> Io
        ensures told { (u : ToldOfPorts) → IsAmid W.tells self.old.wire (get nat_cmp self.old.begun)
            (get nat_cmp self.old.known) link.number line.now u → IsAsFarAs Progress.Whole line.now
            → TellsProxy W.tells self.new.wire (get nat_cmp self.new.begun)
            (get nat_cmp self.new.known) (at_port ThePop (λ of. has_read of link.number result [])
            u) }
        ensures within { IsWithin 0 result }
        ensures called { (room : ℕ) (a : List Call)
            → AskedAmid W.asked self.old.wire (get nat_cmp self.old.known)
            self.old.hurries link 1 Progress.Whole a
            → AskedBehind W.asked self.new.wire (get nat_cmp self.new.known)
            self.new.hurries (a ++ call.Read ThePop link room result [] ∷ []) }
        ensures none { ((source : Option Address) → ¬ (IsProxyLine line.now source))
            → refusal_of link.number self.new.refused ≡ Some Refusal.NoLine }
        ensures taken { (source : Option Address) → IsProxyLine line.now source
            → (result ≡ TheLater)
            ⊎ (refusal_of link.number self.new.refused ≡ Some Refusal.NoMemory) }
    {
        let Some(read) = ProxyLine::read(line) else {
            return self.break_off(link, Refusal::NoLine);
        };
        match self.known.insert(link.number, read.source) {
            Ok(_) => {
                self.hurries = true;
                Io::Later
            }
            Err(_) => self.break_off(link, Refusal::NoMemory),
        }
    }

    /// Reads on a client's link whose first line isn't known.
    fn read_line(&mut self, link: Link) -> Io
        ensures told { (u : ToldOfPorts) → TellsProxy W.tells self.old.wire
            (get nat_cmp self.old.begun) (get nat_cmp self.old.known) u
            → TellsProxy W.tells self.new.wire (get nat_cmp self.new.begun)
            (get nat_cmp self.new.known) (at_port ThePop (λ of. has_read of link.number result [])
            u) }
        ensures within { IsWithin 0 result }
        ensures called { (room : ℕ) (a : List Call)
            → get nat_cmp self.old.known link.number ≡ None
            → AskedBehind W.asked self.old.wire (get nat_cmp self.old.known)
            self.old.hurries a
            → AskedBehind W.asked self.new.wire (get nat_cmp self.new.known)
            self.new.hurries (a ++ call.Read ThePop link room result [] ∷ []) }
    {
        let Some(mut begun) = self.begun.remove(&link.number) else {
            return self.refuse(link, Refusal::NoMemory);
        };
        if begun.line.is_full() {
            return self.refuse(link, Refusal::NoLine);
        }
        // What is looked at comes from memory then, octet by octet.
        let mut shown = [0; MOST_OCTETS];
        let _ = self.wire.look(Port::Pop, link, &mut shown);
        match read_octets(&mut self.wire, link, &mut begun.line, MOST_OCTETS) {
            Progress::Whole => self.learn(link, begun.line.as_slice()),
            Progress::Open(Io::End) => Io::End,
            Progress::Open(Io::Broken) => Io::Broken,
            Progress::Open(Io::Later) => self.keep(link, begun),
            Progress::Open(Io::Count(_)) => self.keep(link, begun),
        }
    }

    /// Reads from a client's link.
    fn read_client(&mut self, link: Link, buffer: &mut [u8]) -> Io
        ensures within { IsWithin (length buffer.old) result }
        ensures told { (u : ToldOfPorts) → TellsProxy W.tells self.old.wire
            (get nat_cmp self.old.begun) (get nat_cmp self.old.known) u
            → TellsProxy W.tells self.new.wire (get nat_cmp self.new.begun)
            (get nat_cmp self.new.known) (at_port ThePop
            (λ of. has_read of link.number result (counted result buffer.new)) u) }
        ensures called { (a : List Call)
            → AskedBehind W.asked self.old.wire (get nat_cmp self.old.known) self.old.hurries a
            → AskedBehind W.asked self.new.wire (get nat_cmp self.new.known)
            self.new.hurries
            (a ++ call.Read ThePop link (length buffer.old) result
            (counted result buffer.new) ∷ []) }
    {
        if self.known.contains_key(&link.number) {
            return self.wire.read(Port::Pop, link, buffer);
        }
        self.read_line(link)
    }

    /// Begins to read the first line of a link that was accepted. If memory is wanting the link
    /// has none, and its first read closes it.
    fn begin(&mut self, link: Link)
        ensures told { (t u : ToldOfPorts) → link.number ≡ t.pop.accepted
            → W.tells self.old.wire (at_port ThePop has_accepted t)
            → TellsProxied (get nat_cmp self.old.begun) (get nat_cmp self.old.known) t u
            → TellsProxy W.tells self.new.wire (get nat_cmp self.new.begun)
            (get nat_cmp self.new.known) (at_port ThePop has_accepted u) }
        ensures called { (a : List Call)
            → AskedBehind W.asked self.old.wire (get nat_cmp self.old.known) self.old.hurries a
            → AskedBehind W.asked self.new.wire (get nat_cmp self.new.known)
            self.new.hurries a }
    {
        let begun = Begun {
            line: ArrayVec::new(),
            since: self.second(),
        };
        let _ = self.begun.insert(link.number, begun);
    }
}

impl<W: Wire, C: Clock> Wire for ProxiedWire<W, C> {
    ghost tells = { λ r u. TellsProxy W.tells r.wire (get nat_cmp r.begun) (get nat_cmp r.known)
        u };

    ghost asked = { λ r calls. AskedBehind W.asked r.wire (get nat_cmp r.known) r.hurries calls };

    ghost address_of = { λ r. address_behind (get nat_cmp r.known) (W.address_of r.wire) };

    ghost peer_of = { λ r. W.peer_of r.wire };

    ghost closed_for = { λ r link. refusal_of link.number r.refused };

    ghost tells_once = { λ r u v a b. proxy_once W.tells W.tells_once r.wire (get nat_cmp r.begun)
        (get nat_cmp r.known) u v a b };

    fn wait(&mut self, millis: u32) {
        let wait = wait_of(self.hurries, millis);
        self.hurries = false;
        self.wire.wait(wait);
    }

    fn accept(&mut self, port: Port) -> Option<Link> {
        let link = self.wire.accept(port)?;
        match port {
            Port::Pop => self.begin(link),
            Port::Admin => {}
        }
        Some(link)
    }

    fn look(&mut self, port: Port, link: Link, buffer: &mut [u8]) -> Io {
        match port {
            Port::Pop => {
                if self.known.contains_key(&link.number) {
                    return self.wire.look(port, link, buffer);
                }
                Io::Later
            }
            Port::Admin => self.wire.look(port, link, buffer),
        }
    }

    fn read(&mut self, port: Port, link: Link, buffer: &mut [u8]) -> Io {
        match port {
            Port::Pop => self.read_client(link, buffer),
            Port::Admin => self.wire.read(port, link, buffer),
        }
    }

    fn write(&mut self, port: Port, link: Link, octets: &[u8]) -> Io {
        self.wire.write(port, link, octets)
    }

    /// The address that the link's first line named; that of the wire inside if the proxy doesn't
    /// know it; `None` while the line isn't whole.
    ///
    /// What it gives of a client's link is what that line says, or that line says no address.
    fn address(&self, port: Port, link: Link) -> Option<IpAddr>
        ensures is { result ≡ address_behind (get nat_cmp self.now.known)
            (W.address_of self.now.wire) port link }
        ensures told { (source : Address) → port ≡ ThePop
            → get nat_cmp self.now.known link.number ≡ Some (Some source) → result ≡ Some source }
        ensures open_yet { port ≡ ThePop → get nat_cmp self.now.known link.number ≡ None
            → result ≡ None }
        ensures said { (u : ToldOfPorts) → port ≡ ThePop → TellsProxy W.tells self.now.wire
            (get nat_cmp self.now.begun) (get nat_cmp self.now.known) u
            → IfSome result (IsAddressOf W.tells self.now.wire link.number) }
    {
        let inside = self.wire.address(port, link);
        match port {
            Port::Pop => address_by(self.known.get(&link.number).copied(), inside),
            Port::Admin => inside,
        }
    }

    /// The proxy's end: a client's own address is the link's `address`.
    fn peer(&self, port: Port, link: Link) -> Option<SocketAddr> {
        self.wire.peer(port, link)
    }

    /// Why a client's link was refused, if it is the one that was refused last; else `None`.
    fn refusal(&self, link: Link) -> Option<Refusal> {
        let refused = self.refused?;
        if refused.link == link.number {
            return Some(refused.why);
        }
        None
    }

    /// Closes a link, and forgets what is known of it.
    fn close(&mut self, port: Port, link: Link)
        ensures told { (u : ToldOfPorts) → TellsProxy W.tells self.old.wire
            (get nat_cmp self.old.begun) (get nat_cmp self.old.known) u
            → TellsProxy W.tells self.new.wire (get nat_cmp self.new.begun)
            (get nat_cmp self.new.known) (at_port port (λ of. has_closed of link.number) u) }
        ensures called { (a : List Call)
            → AskedBehind W.asked self.old.wire (get nat_cmp self.old.known) self.old.hurries a
            → AskedBehind W.asked self.new.wire (get nat_cmp self.new.known) self.new.hurries
            (a ++ call.Closed port link ∷ []) }
        ensures forgotten { port ≡ ThePop → (get nat_cmp self.new.begun link.number ≡ None)
            × (get nat_cmp self.new.known link.number ≡ None) }
    {
        self.wire.close(port, link);
        match port {
            Port::Pop => {
                let _ = self.begun.remove(&link.number);
                let _ = self.known.remove(&link.number);
            }
            Port::Admin => {}
        }
    }
}

/// A law: of the calls of the wire that a server's loop uses, these reached the sockets, in this
/// order, and were answered so: those that stand in the notes right around the sockets. Each call
/// is handed on as it is, but for the first line of each client's link (`AreBehindLines`).
pub fn sockets_were_asked<W: Wire, C: Clock>(wire: &ProxiedWire<NotedWire<W>, C>)
    ensures { (calls : List Call)
        → ⟦<ProxiedWire<NotedWire<W>, C> as Wire>⟧.asked wire.now calls
        → AreBehindLines wire.now.wire.notes.calls calls }
{}
