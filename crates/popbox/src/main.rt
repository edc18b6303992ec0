//! popbox, a POP3 server for shared maildrops: the program.
#![tactic(auto)]

use arguments::{
    CheckPolicyOptions, Input, ReplayOptions, ServeOptions, Subcommand, TalkOptions, make_command,
};
use at_rest::{is_log_alone, make_file, run_check, run_export, run_review, tell_readers};
use causes::{
    Keeping, Watched, tell_bad_line, tell_bad_policy, tell_closed_store, tell_host, tell_refusal,
    tell_stop, tell_unread,
};
use clap::error::ErrorKind;
use converse::check_policy::{check_policy, write_policy};
use converse::script::{ScriptFault, read_script};
use converse::{Fault, Flushed, Noted, tell_fault};
use jobs::{Job, Replaying, Talking, open_do_close};
use journal::FileId;
use server::{admin_site, note_store, serve_over};
use sqlite::{Error, Wary};
use std::alloc::Global;
use std::io::{BufWriter, Read, Stderr, Write};
use std::net::{Ipv4Addr, SocketAddr};
use std::process::ExitCode;
use std::rt::{Env, Files};
use std::time::Clock;
use std::{env, fs, io};
use vault::{PlainVault, Vault, VaultFault};

/// The exit status if the command line can't be read.
const UNREADABLE: u8 = 2;

/// The last line on standard error if the command line can't be read.
const VERBOSE: &str = "With '--verbose' after the command, an error also says what it is about.";

fn main(rt: HostRuntime) -> ExitCode {
    let mut err = rt.stderr();
    let status = match run(&rt, &mut err) {
        Ok(status) => status,
        Err(fault) => tell_fault(&mut err, fault),
    };
    ExitCode::from(status)
}

/// Does what the command line asks for, and gives the exit status.
fn run<E: Write>(rt: &HostRuntime, err: &mut E) -> Result<u8, Fault> {
    let words: Vec<String> = match env::args(rt) {
        Ok(words) => words.collect(rt.alloc())?,
        Err(error) if error.kind() == io::ErrorKind::OutOfMemory => {
            return Err(Fault::OutOfMemory);
        }
        Err(_) => {
            let _ = writeln!(err, "popbox: the command line isn't UTF-8");
            return Ok(UNREADABLE);
        }
    };
    run_words(rt, words.as_slice(), err)
}

/// Does what the words of a command line ask for.
fn run_words<E: Write>(rt: &HostRuntime, words: &[String], err: &mut E) -> Result<u8, Fault> {
    let command = make_command(rt.alloc())?;
    match command.try_get_matches_from(words) {
        Ok(found) => match Subcommand::read(&found) {
            Some(subcommand) => run_subcommand(rt, &subcommand, err),
            None => Ok(UNREADABLE),
        },
        Err(error) if error.kind() == ErrorKind::OutOfMemory => Err(Fault::OutOfMemory),
        Err(error) => {
            error.print(rt).map_err(|_| Fault::CannotWrite)?;
            if error.kind() != ErrorKind::DisplayHelpOnMissingArgumentOrSubcommand
                && error.use_stderr()
            {
                let _ = writeln!(err, "{VERBOSE}");
            }
            Ok(error.exit_code() as u8)
        }
    }
}

/// Does what a subcommand asks for.
fn run_subcommand<E: Write>(
    rt: &HostRuntime,
    subcommand: &Subcommand<'_>,
    err: &mut E,
) -> Result<u8, Fault> {
    let done = match subcommand {
        Subcommand::Replay(options) => run_replay(rt, options, err),
        Subcommand::Talk(options) => run_talk(rt, options, err),
        Subcommand::Serve(options) => run_serve(rt, options, err),
        Subcommand::CheckPolicy(options) => run_check_policy(rt, options, err),
        Subcommand::ReviewPolicy(options) => run_review(rt, options, err),
        Subcommand::Export(options) => run_export(rt, options, err),
        Subcommand::Check(options) => run_check(rt, options, err),
    };
    match done {
        Ok(status) => Ok(status),
        Err(fault) => {
            let (is_verbose, host) = (subcommand.is_verbose(), subcommand.host());
            Ok(tell_stop(err, is_verbose, host, fault))
        }
    }
}

/// Runs `popbox replay`: opens the script, the file that is named or standard input, and runs it
/// over the store that is named, or over an empty one in memory.
fn run_replay<E: Write>(
    rt: &HostRuntime,
    options: &ReplayOptions<'_>,
    err: &mut E,
) -> Result<u8, Fault> {
    match options.script {
        Input::Standard => replay_from(rt, rt.reader(), options, err),
        Input::File(path) => match fs::open(rt, path) {
            Ok(file) => replay_from(rt, file, options, err),
            Err(error) => Ok(tell_unread(err, options.is_verbose, path, &error)),
        },
    }
}

/// Runs a script, and prints to standard output.
fn replay_from<S: Read + Drop, E: Write>(
    rt: &HostRuntime,
    script: S,
    options: &ReplayOptions<'_>,
    err: &mut E,
) -> Result<u8, Fault> {
    let out = BufWriter::new(rt.alloc(), io::writer(rt)).map_err(|_| Fault::OutOfMemory)?;
    if options.is_verbose {
        return replay_verbosely(rt, script, out, options, err);
    }
    let job = replaying(rt, script, out, options);
    match do_job(rt, job, options.store, false, err) {
        Ok(left) => Ok(left.status),
        Err(status) => Ok(status),
    }
}

/// A script as a job over the store that is named.
fn replaying<'a, S: Read, W: Write>(
    rt: &HostRuntime,
    script: S,
    out: W,
    options: &ReplayOptions<'a>,
) -> Replaying<'a, S, Flushed<W>, Stderr> {
    Replaying {
        alloc: rt.alloc(),
        script,
        host: options.host,
        boot: options.boot,
        removals: options.removals,
        out: Flushed::new(out),
        err: rt.stderr(),
    }
}

/// Runs a script as `replay_from` does, and prints what a fault is about, and how many events
/// failed. It keeps the script until the last event is done.
fn replay_verbosely<S: Read + Drop, W: Write + Drop, E: Write>(
    rt: &HostRuntime,
    script: S,
    out: W,
    options: &ReplayOptions<'_>,
    err: &mut E,
) -> Result<u8, Fault> {
    let alloc: Global = rt.alloc();
    let job = replaying(rt, Keeping::new(alloc, script), Watched::new(out), options);
    let left = match do_job(rt, job, options.store, true, err) {
        Ok(left) => left,
        Err(status) => return Ok(status),
    };
    let name = options.script.name();
    if left.status != 0 {
        tell_script(alloc, err, name, &left.script);
        tell_host(err, options.host);
        tell_refusal(err, "standard output", left.out.inner.refusal());
    }
    if left.out.inner.failed() > 0 {
        let _ = writeln!(
            err,
            "note: {name}: {} events failed, which the store refused",
            left.out.inner.failed()
        );
    }
    Ok(left.status)
}

/// Prints what the system answered to a script, if it refused; or which of its lines isn't an
/// event, and why. If all of its lines are events, it prints nothing.
fn tell_script<R, E: Write>(alloc: Global, err: &mut E, name: &str, script: &Keeping<R>) {
    if script.refusal().is_some() {
        tell_refusal(err, name, script.refusal());
        return;
    }
    let text = script.text();
    let Err(ScriptFault::BadEvent(number)) = read_script(alloc, text) else {
        return;
    };
    let at = usize::try_from(number)
        .unwrap_or(usize::MAX)
        .saturating_sub(1);
    if let Some(line) = text.split(|octet| *octet == b'\n').nth(at) {
        let _ = tell_bad_line(alloc, err, name, number, line);
    }
}

/// Runs `popbox talk`: one conversation over the store that is named.
fn run_talk<E: Write>(
    rt: &HostRuntime,
    options: &TalkOptions<'_>,
    err: &mut E,
) -> Result<u8, Fault> {
    let boot = match options.boot {
        Some(boot) => boot,
        None => milliseconds(rt)?,
    };
    if options.is_verbose {
        return talk_verbosely(rt, boot, options, err);
    }
    let job = talking(rt, rt.reader(), io::writer(rt), boot, options);
    match do_job(rt, job, Some(options.store), false, err) {
        Ok(left) => Ok(left.status),
        Err(status) => Ok(status),
    }
}

/// A conversation as a job over the store that is named.
fn talking<'a, S: Read, W: Write>(
    rt: &HostRuntime,
    input: S,
    out: W,
    boot: u64,
    options: &TalkOptions<'a>,
) -> Talking<'a, Noted<S>, Noted<W>, Stderr> {
    Talking {
        alloc: rt.alloc(),
        reader: Noted::new(input),
        writer: Noted::new(out),
        host: options.host,
        boot,
        removals: options.removals,
        err: rt.stderr(),
    }
}

/// Has one conversation as `run_talk` does, and prints what a fault is about.
fn talk_verbosely<E: Write>(
    rt: &HostRuntime,
    boot: u64,
    options: &TalkOptions<'_>,
    err: &mut E,
) -> Result<u8, Fault> {
    let (input, out) = (Watched::new(rt.reader()), Watched::new(io::writer(rt)));
    let job = talking(rt, input, out, boot, options);
    let left = match do_job(rt, job, Some(options.store), true, err) {
        Ok(left) => left,
        Err(status) => return Ok(status),
    };
    if left.status != 0 {
        tell_host(err, options.host);
        tell_refusal(err, Input::Standard.name(), left.reader.inner.refusal());
        tell_refusal(err, "standard output", left.writer.inner.refusal());
    }
    Ok(left.status)
}

/// Runs `popbox serve`: clients over the network, over the store that is named.
fn run_serve<E: Write>(
    rt: &HostRuntime,
    options: &ServeOptions<'_>,
    err: &mut E,
) -> Result<u8, Fault> {
    let (listen, path, is_verbose) = (options.listen, options.store, options.is_verbose);
    let Ok(address) = listen.parse::<Ipv4Addr>() else {
        let _ = writeln!(err, "popbox: bad address");
        if is_verbose {
            let _ = writeln!(
                err,
                "why: --listen {listen:?}: four numbers of 0 to 255, as 192.0.2.7"
            );
        }
        return Ok(1);
    };
    if admin_site(options).is_err() {
        return Ok(tell_bad_site(err, options));
    }
    let boot = milliseconds(rt)?;
    note_store(rt, options);
    if let Err(status) = prepare(rt, path, is_verbose, err) {
        return Ok(status);
    }
    let job = Serving {
        rt,
        boot,
        at: SocketAddr::from((address, options.pop_port)),
        before: FileId::at(rt, path),
        options,
    };
    match do_prepared(rt, job, path, is_verbose, err) {
        Ok(ran) => ran,
        Err(status) => Ok(status),
    }
}

/// Prints that the name of the administration's site hasn't the form of a host's. Gives the exit
/// status.
fn tell_bad_site<E: Write>(err: &mut E, options: &ServeOptions<'_>) -> u8 {
    let name = options.admin_site.unwrap_or("");
    let _ = writeln!(err, "popbox: bad site");
    if options.is_verbose {
        let _ = writeln!(
            err,
            "why: --admin-site {name:?}: a host's name, 1 to 64 of a-z, 0-9, . and -, as localhost"
        );
    }
    1
}

/// The milliseconds since 1970. Its fault is `NoClock`, if the system doesn't give the time.
fn milliseconds(clock: &impl Clock) -> Result<u64, Fault> {
    let Ok(now) = clock.since_1970() else {
        return Err(Fault::NoClock);
    };
    u64::try_from(now.as_millis()).map_err(|_| Fault::NoClock)
}

/// Makes the file of the store at a path if there is none, and no log of another. If there is
/// such a log, that is reported, and an `Err` is the exit status.
fn prepare<E: Write>(
    rt: &HostRuntime,
    path: &str,
    is_verbose: bool,
    err: &mut E,
) -> Result<(), u8> {
    if is_log_alone(rt, path) {
        let status = tell_fault(err, Fault::from(VaultFault::Store));
        if is_verbose {
            let _ = writeln!(
                err,
                "why: {path}-wal: a store's log, whose file isn't there"
            );
        }
        return Err(status);
    }
    make_file(rt, path);
    Ok(())
}

/// Does a job over the store at a path, or over an empty one in memory. If the store can't be
/// opened or is refused, that is reported, and an `Err` is the exit status.
fn do_job<J: Job + Drop, E: Write>(
    rt: &HostRuntime,
    job: J,
    store: Option<&str>,
    is_verbose: bool,
    err: &mut E,
) -> Result<J::Answer, u8> {
    let Some(path) = store else {
        let (answer, _vault) = job.run(PlainVault::new(rt.alloc()));
        return Ok(answer);
    };
    prepare(rt, path, is_verbose, err)?;
    do_prepared(rt, job, path, is_verbose, err)
}

/// Does a job as `do_job` does, over the store at a path that was prepared. The store is closed at
/// the end. What was done is in the file or in its log by then, so a failure to close loses
/// nothing: it is printed, and the answer is the job's.
fn do_prepared<J: Job + Drop, E: Write>(
    rt: &HostRuntime,
    job: J,
    path: &str,
    is_verbose: bool,
    err: &mut E,
) -> Result<J::Answer, u8> {
    let over = OverStore {
        rt,
        path,
        is_verbose,
        job,
    };
    match open_do_close(rt, path, Wary, over) {
        Ok((answer, closed)) => {
            tell_unclosed(err, is_verbose, path, &closed);
            Ok(answer)
        }
        Err(fault) => {
            let status = tell_fault(err, Fault::from(fault));
            if is_verbose {
                let _ = tell_closed_store(rt, err, path, fault);
            }
            Err(status)
        }
    }
}

/// Prints that the store at a path couldn't be closed, if that is so.
fn tell_unclosed<F, E: Write>(
    err: &mut E,
    is_verbose: bool,
    path: &str,
    closed: &Result<F, (Error, F)>,
) {
    let Err(refused) = closed else {
        return;
    };
    let _ = writeln!(err, "popbox: cannot close store");
    if is_verbose {
        let error = &refused.0;
        let _ = writeln!(err, "why: {path}: {error}; what was answered is there");
    }
}

/// A job over the store in the file at a path, before which it prints who else may read the file.
#[derive(Drop)]
struct OverStore<'a, J> {
    rt: &'a HostRuntime,
    path: &'a str,
    is_verbose: bool,
    job: J,
}

impl<J: Job> Job for OverStore<'_, J> {
    type Answer = J::Answer;

    ghost tells = { λ over. J.tells over.job };

    ghost does = { λ over T U first last answer. J.does over.job T U first last answer };

    fn run<V: Vault>(self, vault: V) -> (J::Answer, V) {
        let OverStore {
            rt,
            path,
            is_verbose,
            job,
        } = self;
        if is_verbose {
            tell_readers(rt, &mut rt.stderr(), path);
        }
        job.run(vault)
    }
}

/// `popbox serve`, as a job: clients at an address. `before` is the file that stood at the store's
/// path before it was opened.
#[derive(Drop)]
struct Serving<'a, 'w> {
    rt: &'a HostRuntime,
    boot: u64,
    at: SocketAddr,
    before: Option<FileId>,
    options: &'a ServeOptions<'w>,
}

impl Job for Serving<'_, '_> {
    ghost use Rattle.std.specs.Prelude.{⊤};
    ghost use Rattle.server.specs.Served.{HasServedStore};

    type Answer = Result<u8, Fault>;

    ghost tells = { λ _. ⊤ };

    ghost does = { λ job T U first last answer. HasServedStore job.options.now job.boot T
        first last answer U };

    fn run<V: Vault>(self, vault: V) -> (Result<u8, Fault>, V) {
        let Serving {
            rt,
            boot,
            at,
            before,
            options,
        } = self;
        serve_over(rt, vault, boot, at, before, options, &mut rt.stderr())
    }
}

/// Runs `popbox check-policy`: prints to standard output how many rules the policy of the named
/// file, or of standard input, has; by `--write` the policy as it is written. The input is read
/// first, to its end.
fn run_check_policy<E: Write>(
    rt: &HostRuntime,
    options: &CheckPolicyOptions<'_>,
    err: &mut E,
) -> Result<u8, Fault> {
    let (name, is_verbose) = (options.file.name(), options.is_verbose);
    let text = match options.file.read(rt) {
        Ok(text) => text,
        Err(error) => return Ok(tell_unread(err, is_verbose, name, &error)),
    };
    let alloc: Global = rt.alloc();
    let out = BufWriter::new(alloc, io::writer(rt)).map_err(|_| Fault::OutOfMemory)?;
    let mut out = Noted::new(Watched::new(out));
    let status = if options.write {
        write_policy(alloc, text.as_slice(), &mut out, err)
    } else {
        check_policy(alloc, text.as_slice(), &mut out, err)
    };
    if is_verbose && status != 0 {
        let _ = tell_bad_policy(alloc, err, name, text.as_slice());
        tell_refusal(err, "standard output", out.inner.refusal());
    }
    Ok(status)
}
