//! `popbox serve`: clients over the network.
ghost use Rattle.std.specs.Prelude.{◌≡◌, ◌≤◌, ◌↔◌, ◌||◌, [], Err, is_some, is_none};
ghost use Rattle.std.specs.Prelude.{IfSome, IsSome, IfOk, IfErr};
ghost use Rattle.vault.specs.Changes.{Contents};
ghost use Rattle.office.specs.Events.{Trace};
ghost use Rattle.office.specs.Stands.{Keeps, StandsFor, vault_of};
ghost use Rattle.serving.specs.HttpTurns.{AreFew, AreShort};
ghost use Rattle.serving.specs.Settings.{settings, none_set};
ghost use Rattle.converse.specs.declared.fault.Fault.TheVariants.{CannotWrite, NoClock};
ghost use Rattle.server.specs.Served.{IsServed, WasServedBySome, limits_by, IsIdleTime};
ghost use Rattle.server.specs.Served.{AreSetBy, site_by, HasServedStore, IsUnsaid};
ghost use Rattle.server.specs.Served.{HasGiven, answer_by, HasServed, HasServedAnew};
ghost use Rattle.server.specs.Served.{HasServedLinks};
ghost use Rattle.server.specs.Served.{HasListened, HasKept, IsStatus};

use crate::by_options::{admin_site, start_settings};
use arguments::{IS_PROVED, SLOW, ServeOptions};
use converse::{Fault, tell_fault};
use journal::{
    FileId, Folder, GuardedSpool, Journal, LoggedSpool, LoggedVault, Loss, NotedWatch, Shared,
    StoreWatch, note_end, note_loss, note_opening, note_start,
};
use notes::Notes;
use office::{AdminAccess, Limits, Office};
use proxy::ProxiedWire;
use recent::Recent;
use serving::{
    Clock, FolderSpool, Links, Listener, NotedListener, NotedSpool, NotedWire, Server, SocketWire,
    Spool, Wire,
};
use std::io;
use std::io::Write;
use std::net::{Ipv4Addr, SocketAddr};
use std::time::Instant;
use vault::{Total, Vault, VaultFault};

/// The sockets of a server, which are noted.
type Sockets = NotedWire<SocketWire>;

/// The same, if each client's link is a proxy's.
type Proxied<'a> = ProxiedWire<Sockets, &'a HostRuntime>;

/// A watch over the store's files, which is noted.
type WatchOf<'a> = NotedWatch<&'a StoreWatch<'a>>;

/// The spool of a server, whose files are noted right around the folder.
type ServedSpool<'a> = GuardedSpool<
    LoggedSpool<'a, NotedSpool<FolderSpool<'a, HostRuntime>>>,
    WatchOf<'a>,
>;

/// Notes, if there is a log, that the store is about to be opened, and how large its files are.
pub fn note_store(rt: &HostRuntime, options: &ServeOptions<'_>) {
    let shared = Shared::new(rt.alloc());
    let journal = Journal::new(rt, options.log, &shared);
    note_opening(&journal, rt, options.store);
}

/// The office's limits by the options; `None` if idle connections are to end sooner or later than
/// an office can.
fn limits_of(options: &ServeOptions<'_>) -> Option<Limits>
    ensures valid { IsSome result ↔ IsIdleTime options.now.idle }
    ensures value { IfSome result (λ limits. limits ≡ limits_by options.now) }
{
    let limits = Limits::new(options.idle)?.with_removals(options.removals);
    Some(limits.with_access(AdminAccess {
        lists_clerks: options.list_clerks,
    }))
}

/// Serves clients at an address, over a vault, until so many turns are over, or its store is lost.
/// `before` is the file that stood at the store's path before it was opened. Gives the vault back.
pub fn serve_over<V: Vault, E: Write>(
    rt: &HostRuntime,
    vault: V,
    boot: u64,
    at: SocketAddr,
    before: Option<FileId>,
    options: &ServeOptions<'_>,
    err: &mut E,
) -> (Result<u8, Fault>, V)
    ensures served { (T : Trace) → Keeps (V.holds vault) T → V.is_clean result.1 → (U : Trace)
        × IsServed options.now boot T U × Keeps (V.holds result.1) U }
    ensures did { (T : Trace) → Keeps (V.holds vault) T → V.is_clean result.1 → (U : Trace)
        × HasKept ⟦<LoggedVault<'static, Recent<V>> as Vault>⟧ ⟦<Sockets as Wire>⟧
        ⟦<Proxied<'static> as Wire>⟧ ⟦<ServedSpool<'static> as Spool>⟧
        ⟦<NotedListener<Journal<'static>> as Listener>⟧ options.now boot T result.0 U
        × Keeps (V.holds result.1) U }
    ensures done { (T : Trace) → Keeps (V.holds vault) T → V.is_clean result.1 → (U : Trace)
        × HasServedStore options.now boot T (V.faults vault) (V.faults result.1) result.0 U
        × Keeps (V.holds result.1) U }
    ensures clean { V.is_clean result.1 → V.is_clean vault }
{
    let Some(limits) = limits_of(options) else {
        return (Ok(2), vault);
    };
    let Ok(path) = String::from_str(rt.alloc(), options.store) else {
        return (Err(Fault::OutOfMemory), vault);
    };
    let Ok(spool) = String::from_str(rt.alloc(), options.spool) else {
        return (Err(Fault::OutOfMemory), vault);
    };
    let shared = Shared::new(rt.alloc());
    let journal = Journal::new(rt, options.log, &shared);
    let message_ids = options.message_ids;
    let mut vault = LoggedVault::new(Recent::new(rt.alloc(), vault), journal, message_ids);
    let totals = totals_of(&mut vault, &journal);
    let watch = StoreWatch::new(rt, path.as_str(), before);
    match Office::open(rt.alloc(), vault, options.host, boot, limits) {
        Err((fault, vault)) => (Err(Fault::from(fault)), vault.into_vault().into_vault()),
        Ok(office) => {
            let (served, office) = serve(
                rt,
                office,
                at,
                spool.as_str(),
                options,
                journal,
                &watch,
                &totals,
                err,
            );
            (served, office.into_vault().into_vault().into_vault())
        }
    }
}

/// What a store holds, maildrop by maildrop, if there is a log that has it.
fn totals_of<V: Vault>(vault: &mut V, journal: &Journal<'_>) -> Option<Vec<Total>>
    ensures held { (c : Contents) → V.holds vault.old c → V.is_clean vault.new
        → V.holds vault.new c }
    ensures clean { V.is_clean vault.new → V.is_clean vault.old }
    ensures counted { V.faults vault.old ≤ V.faults vault.new }
{
    if !journal.is_on() {
        return None;
    }
    vault.maildrops().ok()
}

/// Listens for clients at an address, and for the administration at a port of 127.0.0.1. Gives the
/// wire and both ports; its error is the address at which the system refused to listen, and why.
fn listen(
    rt: &HostRuntime,
    at: SocketAddr,
    admin: u16,
) -> Result<(Sockets, u16, u16), (SocketAddr, io::Error)>
    ensures { IfOk result (λ listening. ⟦<Sockets as Wire>⟧.asked listening.0 []) }
{
    let (mut wire, port) = SocketWire::bind(rt, rt.alloc(), at).map_err(|error| (at, error))?;
    let admin_at = SocketAddr::from((Ipv4Addr::LOCALHOST, admin));
    let bound = wire.bind_admin(rt, admin_at);
    let admin_port = bound.map_err(|error| (admin_at, error))?;
    Ok((NotedWire::new(wire), port, admin_port))
}

/// Prints that the system refused to listen at an address. Gives the exit status.
fn tell_refused<E: Write>(err: &mut E, is_verbose: bool, at: SocketAddr, error: &io::Error) -> u8
    ensures { result ≡ 1 }
{
    let _ = writeln!(err, "popbox: cannot listen");
    if is_verbose {
        let _ = writeln!(err, "why: {at}: {error}");
    }
    1
}

/// Prints how slow the program is, if it isn't proved.
fn tell_slow<E: Write>(err: &mut E) {
    if !IS_PROVED {
        let _ = writeln!(err, "{SLOW}");
    }
}

/// Prints at which ports the server listens.
fn say_ports(rt: &HostRuntime, at: SocketAddr, ports: (u16, u16)) -> Result<(), Fault>
    ensures { IfErr result (λ fault. fault ≡ CannotWrite) }
{
    let (port, admin_port) = ports;
    let mut out = io::writer(rt);
    let is_said = writeln!(out, "pop on {}:{}", at.ip(), port).is_ok()
        && writeln!(out, "admin on 127.0.0.1:{admin_port}").is_ok();
    if !is_said {
        return Err(Fault::CannotWrite);
    }
    Ok(())
}

/// Says at which ports the server listens, on standard output and in the log.
fn say_start<E: Write>(
    rt: &HostRuntime,
    at: SocketAddr,
    ports: (u16, u16),
    spool: &str,
    options: &ServeOptions<'_>,
    journal: &Journal<'_>,
    watch: &StoreWatch<'_>,
    totals: &Option<Vec<Total>>,
    err: &mut E,
) -> Result<(), Fault>
    ensures { IfErr result (IsUnsaid options.now) }
{
    say_ports(rt, at, ports)?;
    tell_slow(err);
    let settings = start_settings(options)?;
    let (port, admin_port) = ports;
    let pop = SocketAddr::from((at.ip(), port));
    let path = watch.path();
    note_start(journal, rt, pop, admin_port, path, totals, &settings);
    if options.is_verbose && !journal.is_on() {
        Folder::new(rt, spool).tell_left(err);
    }
    Ok(())
}

/// Listens, says so, and serves the clients and administrators that come. Gives the office back.
fn serve<'a, V: Vault, E: Write>(
    rt: &'a HostRuntime,
    office: Office<V>,
    at: SocketAddr,
    spool: &'a str,
    options: &ServeOptions<'_>,
    journal: Journal<'a>,
    watch: &'a StoreWatch<'a>,
    totals: &Option<Vec<Total>>,
    err: &mut E,
) -> (Result<u8, Fault>, Office<V>)
    ensures clean { V.is_clean (vault_of result.1) → V.is_clean (vault_of office) }
    ensures served { (T : Trace) → StandsFor V.holds office T → V.is_clean (vault_of result.1)
        → WasServedBySome V.Vault T office result.1 (HasListened V.Vault
        ⟦<Sockets as Wire>⟧ ⟦<Proxied<'a> as Wire>⟧ ⟦<ServedSpool<'a> as Spool>⟧
        ⟦<NotedListener<Journal<'a>> as Listener>⟧ T options.now office result.0 result.1) }
{
    let (wire, port, admin_port) = match listen(rt, at, options.admin_port) {
        Ok(listening) => listening,
        Err((at, error)) => {
            let status = tell_refused(err, options.is_verbose, at, &error);
            return (Ok(status), office);
        }
    };
    let ports = (port, admin_port);
    let said = say_start(rt, at, ports, spool, options, &journal, watch, totals, err);
    if let Err(fault) = said {
        return (Err(fault), office);
    }
    let (served, office) = serve_links(rt, office, wire, spool, options, journal, watch);
    let status = status_of(err, options.is_verbose, &journal, watch, served);
    note_end(&journal);
    (status, office)
}

/// Serves what comes over sockets, each client's link as a proxy's if that is asked for. Gives the
/// office back.
fn serve_links<'a, V: Vault>(
    rt: &'a HostRuntime,
    office: Office<V>,
    wire: Sockets,
    spool: &'a str,
    options: &ServeOptions<'_>,
    journal: Journal<'a>,
    watch: &'a StoreWatch<'a>,
) -> (Result<u8, Fault>, Office<V>)
    ensures clean { V.is_clean (vault_of result.1) → V.is_clean (vault_of office) }
    ensures served { ⟦<Sockets as Wire>⟧.asked wire [] → (T : Trace) → StandsFor V.holds office T
        → V.is_clean (vault_of result.1) → WasServedBySome V.Vault T office result.1
        (HasServedLinks V.Vault ⟦<Sockets as Wire>⟧ ⟦<Proxied<'a> as Wire>⟧
        ⟦<ServedSpool<'a> as Spool>⟧ ⟦<NotedListener<Journal<'a>> as Listener>⟧ T options.now
        office wire result.0 result.1) }
{
    if options.proxy_protocol {
        let wire = ProxiedWire::new(rt.alloc(), wire, rt);
        return serve_turns(rt, office, wire, spool, options, journal, watch);
    }
    serve_turns(rt, office, wire, spool, options, journal, watch)
}

/// The exit status of a server whose loop ended so: if the store was lost, that is printed.
fn status_of<E: Write>(
    err: &mut E,
    is_verbose: bool,
    journal: &Journal<'_>,
    watch: &StoreWatch<'_>,
    served: Result<u8, Fault>,
) -> Result<u8, Fault>
    ensures { IsStatus served result }
{
    match served {
        Ok(status) => match watch.loss() {
            Some(loss) => Ok(tell_loss(err, is_verbose, journal, watch, loss)),
            None => Ok(status),
        },
        Err(fault) => Err(fault),
    }
}

/// Prints that the store's files aren't those any more that the server has open. Gives the exit
/// status.
fn tell_loss<E: Write>(
    err: &mut E,
    is_verbose: bool,
    journal: &Journal<'_>,
    watch: &StoreWatch<'_>,
    loss: Loss,
) -> u8
    ensures { result ≡ 1 }
{
    note_loss(journal, watch.path(), loss);
    let status = tell_fault(err, Fault::from(VaultFault::Store));
    if is_verbose {
        let _ = writeln!(err, "why: {}: {loss}", watch.path());
    }
    status
}

/// Why a clock gave no moment.
#[derive(Clone, Copy)]
enum Stop {
    /// The store's files aren't those any more that are open.
    StoreLost,
    /// The system gave no time.
    NoTime,
}

/// The moments of a server's turns: the seconds since its start, until its store is lost. A turn
/// asks after its wait, and then this looks at the store's files: once it sees that they are lost
/// nothing more is read or answered.
#[derive(Drop)]
struct ServerClock<'a> {
    rt: &'a HostRuntime,
    start: Instant,
    watch: &'a StoreWatch<'a>,
    /// Why it gave no moment, if it once gave none.
    stop: Option<Stop>,
    /// What it gave, in the proofs alone.
    notes: Notes<Option<u64>>,
}

impl<'a> ServerClock<'a> {
    /// The clock of a server that starts now.
    fn start(rt: &'a HostRuntime, watch: &'a StoreWatch<'a>) -> Result<ServerClock<'a>, Fault>
        ensures fresh { IfOk result (λ clock. HasGiven clock.stop clock.notes.items []) }
        ensures err { IfErr result (λ fault. fault ≡ NoClock) }
    {
        let Ok(start) = Instant::now(rt) else {
            return Err(Fault::NoClock);
        };
        Ok(ServerClock {
            rt,
            start,
            watch,
            stop: None,
            notes: Notes::new(),
        })
    }

    /// The moment by the system's clock, unless the store is lost.
    fn find(&mut self) -> Option<u64>
        ensures stop { is_some self.new.stop ≡ (is_some self.old.stop || is_none result) }
        ensures notes { self.new.notes ≡ self.old.notes }
    {
        self.watch.look();
        if self.watch.is_lost() {
            self.stop = Some(Stop::StoreLost);
            return None;
        }
        let Ok(elapsed) = self.start.elapsed(self.rt) else {
            self.stop = Some(Stop::NoTime);
            return None;
        };
        Some(elapsed.as_secs())
    }

    /// How a loop ended that asked this clock.
    fn answer(&self) -> Result<u8, Fault>
        ensures { result ≡ answer_by self.now.stop }
    {
        match self.stop {
            None => Ok(0),
            Some(Stop::StoreLost) => Ok(1),
            Some(Stop::NoTime) => Err(Fault::NoClock),
        }
    }
}

impl Clock for ServerClock<'_> {
    ghost gave = { λ clock answers. HasGiven clock.stop clock.notes.items answers };

    fn moment(&mut self) -> Option<u64> {
        let moment = self.find();
        self.notes.note(&moment);
        moment
    }
}

/// Serves a wire, and the spool that is named, until so many turns are over, or the store is lost.
/// Gives the office back.
fn serve_turns<'a, V: Vault, W: Wire + Drop>(
    rt: &'a HostRuntime,
    office: Office<V>,
    wire: W,
    spool: &'a str,
    options: &ServeOptions<'_>,
    journal: Journal<'a>,
    watch: &'a StoreWatch<'a>,
) -> (Result<u8, Fault>, Office<V>)
    ensures clean { V.is_clean (vault_of result.1) → V.is_clean (vault_of office) }
    ensures served { (T : Trace) → StandsFor V.holds office T → V.is_clean (vault_of result.1)
        → WasServedBySome V.Vault T office result.1 (HasServedAnew V.Vault W.Wire
        ⟦<ServedSpool<'a> as Spool>⟧ ⟦<NotedListener<Journal<'a>> as Listener>⟧ T options.now
        office wire result.0 result.1) }
{
    let mut server = Server {
        office,
        wire,
        listener: NotedListener::new(journal.with_reads(options.reads)),
    };
    let files = NotedSpool::new(FolderSpool::new(rt, rt.alloc(), spool));
    let folder = Folder::new(rt, spool);
    let mut spool = GuardedSpool::new(
        LoggedSpool::new(files, journal, folder),
        NotedWatch::new(watch),
    );
    let served = serve_until(rt, &mut server, &mut spool, options, watch);
    (served, server.office)
}

/// Sets links with which a loop begins as the options say. Its fault is that of the site's name.
fn set_links(links: &mut Links, options: &ServeOptions<'_>) -> Result<(), Fault>
    ensures err { IfErr result (λ met. site_by options.now.admin_site ≡ Err met) }
    ensures set { IfOk result (λ _. settings links.old ≡ none_set → AreFew links.old
        → AreShort links.old → AreSetBy options.now links.new) }
{
    let site = admin_site(options)?;
    links.set_wait(u64::from(options.wait));
    links.set_login_seconds(u64::from(options.login_seconds));
    links.set_make_room(options.make_room);
    links.set_slow_guesses(options.slow_guesses);
    links.set_site(site);
    Ok(())
}

/// Serves a spool, until so many turns are over, or the store is lost.
fn serve_until<V: Vault, W: Wire, S: Spool, L: Listener>(
    rt: &HostRuntime,
    server: &mut Server<V, W, L>,
    spool: &mut S,
    options: &ServeOptions<'_>,
    watch: &StoreWatch<'_>,
) -> Result<u8, Fault>
    ensures clean { V.is_clean (vault_of server.new.office)
        → V.is_clean (vault_of server.old.office) }
    ensures served { (T : Trace) → StandsFor V.holds server.old.office T
        → V.is_clean (vault_of server.new.office)
        → WasServedBySome V.Vault T server.old.office server.new.office
        (HasServed V.Vault W.Wire S.Spool L.Listener T options.now
        server.old.office server.old.wire spool.old server.old.listener
        result server.new.office server.new.wire spool.new server.new.listener) }
{
    let mut links = server.begin(rt.alloc(), spool);
    set_links(&mut links, options)?;
    let mut clock = ServerClock::start(rt, watch)?;
    let turns = options.turns.unwrap_or(u64::MAX);
    server.serve_while(&mut links, spool, &mut clock, turns);
    clock.answer()
}
