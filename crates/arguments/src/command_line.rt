//! The command line of popbox: its subcommands, their options and defaults.

use crate::version::{FOOT, VERSION};
use clap::builder::ValueParser;
use clap::{Arg, ArgAction, Command, value_parser};
use std::alloc::{AllocError, Global};

/// The end of `review-policy --help`: which rules it reports.
const NEVER_DECIDES: &str = "A rule is reported as one that never decides only if one earlier rule \
                             covers it, and not if several do together";

/// `--NAME VALUE`.
fn option<'a>(alloc: Global, name: &'a str, value: &'a str, help: &'a str) -> Arg<'a> {
    Arg::new(alloc, name)
        .long(name)
        .value_name(value)
        .help(help)
}

/// `--host NAME`: the host name that greetings have.
fn host<'a>(alloc: Global) -> Arg<'a> {
    option(alloc, "host", "NAME", "The host name in greetings").default_value("localhost")
}

/// `--boot N`: the boot number that greetings have, below 2^64.
fn boot<'a>(alloc: Global) -> Arg<'a> {
    option(alloc, "boot", "N", "The boot number in greetings").value_parser(value_parser!(u64))
}

/// `--removals WHEN`: when removals are judged, `dele` or `quit`.
fn removals<'a>(alloc: Global) -> Arg<'a> {
    let help = "When a denied removal is refused: at the DELE, or at the QUIT";
    option(alloc, "removals", "WHEN", help)
        .default_value("dele")
        .value_parser(ValueParser::Names(&["dele", "quit"]))
}

/// `--admin-site NAME`: the administration's site.
fn admin_site<'a>(alloc: Global) -> Arg<'a> {
    let help = "The administration's host name: requests from pages of other sites are refused";
    option(alloc, "admin-site", "NAME", help)
}

/// `--store PATH`: the file of the store.
fn store<'a>(alloc: Global, help: &'a str) -> Arg<'a> {
    option(alloc, "store", "PATH", help)
}

/// `--verbose`: what a fault is about is printed too.
fn verbose<'a>(alloc: Global) -> Arg<'a> {
    Arg::new(alloc, "verbose")
        .long("verbose")
        .action(ArgAction::SetTrue)
        .help("Says on standard error what an error is about")
}

/// A subcommand with these arguments and `--verbose`.
fn subcommand<'a>(
    alloc: Global,
    name: &'a str,
    about: &'a str,
    arguments: Vec<Arg<'a>>,
) -> Result<Command<'a>, AllocError> {
    Command::new(alloc, name)
        .about(about)
        .args(arguments)?
        .arg(verbose(alloc))
}

/// `replay [--store PATH] [--host NAME] [--boot N] [--removals WHEN] [--verbose] [SCRIPT]`.
fn replay<'a>(alloc: Global) -> Result<Command<'a>, AllocError> {
    let arguments = vec![in alloc;
        store(alloc, "The store's file; without it, a store in memory"),
        host(alloc),
        boot(alloc).default_value("1"),
        removals(alloc),
        Arg::new(alloc, "SCRIPT").help("The script's file; - or none means standard input"),
    ]?;
    let about = "Runs the events of a script, and prints what each gives";
    subcommand(alloc, "replay", about, arguments)
}

/// `talk --store PATH [--host NAME] [--boot N] [--removals WHEN] [--verbose]`.
fn talk<'a>(alloc: Global) -> Result<Command<'a>, AllocError> {
    let arguments = vec![in alloc;
        store(alloc, "The store's file, which is made if it doesn't exist").required(true),
        host(alloc),
        boot(alloc),
        removals(alloc),
    ]?;
    let about = "Has one conversation with a client, on standard input and output";
    subcommand(alloc, "talk", about, arguments)
}

/// `check-policy [--write] [--verbose] FILE`.
fn check_policy<'a>(alloc: Global) -> Result<Command<'a>, AllocError> {
    let file = Arg::new(alloc, "FILE").help("The policy's file; - is standard input");
    let write = "Prints the policy as popbox writes it, without comments";
    let arguments = vec![in alloc; flag(alloc, "write", write), file.required(true)]?;
    let about = "Checks a policy, and prints how many rules it has or its first fault";
    subcommand(alloc, "check-policy", about, arguments)
}

/// `review-policy [--against OLD] [--store PATH] [--clerk NAME] [--maildrop NAME] [--only PART]
/// [--format FORMAT] [--verbose] NEW`.
fn review_policy<'a>(alloc: Global) -> Result<Command<'a>, AllocError> {
    let against = option(
        alloc,
        "against",
        "OLD",
        "The file of the policy that NEW is to replace",
    );
    let store = store(
        alloc,
        "A store that no server has open: its names are used, and its policy if there is no OLD",
    );
    let clerk = option(alloc, "clerk", "NAME", "Prints this clerk alone");
    let maildrop = option(alloc, "maildrop", "NAME", "Prints this maildrop alone");
    let only = option(alloc, "only", "PART", "Leaves out who may do what");
    let format = option(alloc, "format", "FORMAT", "The form of what is printed");
    let file = Arg::new(alloc, "NEW").help("The policy's file; - is standard input");
    let arguments = vec![in alloc;
        against,
        store,
        clerk,
        maildrop,
        only.value_parser(["changes"].as_slice()),
        format
            .value_parser(["text", "csv", "html", "json"].as_slice())
            .default_value("text"),
        file.required(true),
    ]?;
    let about = "Prints who may do what, what a change changes, and which rules never decide";
    let command = subcommand(alloc, "review-policy", about, arguments)?;
    Ok(command.after_help(NEVER_DECIDES))
}

/// `--NAME`, which takes no value.
fn flag<'a>(alloc: Global, name: &'a str, help: &'a str) -> Arg<'a> {
    Arg::new(alloc, name)
        .long(name)
        .help(help)
        .action(ArgAction::SetTrue)
}

/// `[--idle N] [--wait N] [--login-seconds N] [--make-room] [--slow-guesses] [--proxy-protocol]`:
/// how long clients may be idle, wait and guess, who gets a place, and how addresses are known.
fn patience<'a>(alloc: Global) -> Result<Vec<Arg<'a>>, AllocError> {
    let idle = "After how many seconds an idle client is disconnected";
    let wait = "How many seconds a login waits for a maildrop that is in use";
    let login = "After how many seconds a client that hasn't logged in is disconnected; 0: never";
    let room = "While all 64 places are taken, a new client gets that of one not logged in";
    let slow = "After a refused login, the next one under that name from that address has to wait";
    let proxied = "Each connection begins with a proxy's line that has the client's address";
    let arguments = vec![in alloc;
        option(alloc, "idle", "N", idle)
            .default_value("600")
            .value_parser(value_parser!(u32).range(600..=86400)),
        option(alloc, "wait", "N", wait)
            .default_value("0")
            .value_parser(value_parser!(u32).range(0..=60)),
        option(alloc, "login-seconds", "N", login)
            .default_value("0")
            .value_parser(value_parser!(u32).range(0..=600)),
        flag(alloc, "make-room", room),
        flag(alloc, "slow-guesses", slow),
        flag(alloc, "proxy-protocol", proxied),
    ]?;
    Ok(arguments)
}

/// `[--log] [--log-message-ids] [--log-reads]`: what is logged.
fn logging<'a>(alloc: Global) -> Result<Vec<Arg<'a>>, AllocError> {
    let log = "Writes a line for each event to standard error";
    let ids = "With --log: a deposit's line has the Message-ID of the message";
    let reads = "With --log: a line for each RETR that begins to send a message";
    let arguments = vec![in alloc;
        flag(alloc, "log", log),
        flag(alloc, "log-message-ids", ids),
        flag(alloc, "log-reads", reads),
    ]?;
    Ok(arguments)
}

/// `serve --store PATH --spool DIR [--listen IPV4] [--pop-port N] [--admin-port N]
/// [--admin-site NAME] [--host NAME] [--idle N] [--wait N] [--login-seconds N]
/// [--make-room] [--slow-guesses] [--proxy-protocol] [--removals WHEN] [--list-clerks] [--turns N]
/// [--log] [--log-message-ids] [--log-reads] [--verbose]`.
fn serve<'a>(alloc: Global) -> Result<Command<'a>, AllocError> {
    let listen = option(
        alloc,
        "listen",
        "IPV4",
        "The address at which clients connect",
    );
    let port = option(alloc, "pop-port", "N", "The port at which clients connect");
    let admin = option(
        alloc,
        "admin-port",
        "N",
        "The port of 127.0.0.1 for the administration's HTTP requests",
    );
    let turns = option(alloc, "turns", "N", "Ends after so many turns");
    let spool = option(
        alloc,
        "spool",
        "DIR",
        "The folder into which messages are put",
    );
    let arguments = vec![in alloc;
        store(alloc, "The store's file, which is made if it doesn't exist").required(true),
        spool.required(true),
        listen.default_value("127.0.0.1"),
        port.default_value("1110").value_parser(value_parser!(u16)),
        admin.default_value("1111").value_parser(value_parser!(u16)),
        admin_site(alloc),
        host(alloc),
        removals(alloc),
        flag(
            alloc,
            "list-clerks",
            "The administration's port lists the clerks at /clerks"
        ),
        turns.value_parser(value_parser!(u64)),
    ]?;
    let about = "Serves clients over the network, and takes messages from a folder";
    let command = subcommand(alloc, "serve", about, arguments)?;
    command.args(patience(alloc)?)?.args(logging(alloc)?)
}

/// `export --store PATH --maildrop M [--damaged] [--verbose] DIR`.
fn export<'a>(alloc: Global) -> Result<Command<'a>, AllocError> {
    let maildrop = option(
        alloc,
        "maildrop",
        "M",
        "The maildrop whose messages are written",
    );
    let folder = Arg::new(alloc, "DIR").help("The folder, which must exist; no file is replaced");
    let arguments = vec![in alloc;
        store(alloc, "The store's file, which no server may have open").required(true),
        maildrop.required(true),
        flag(
            alloc,
            "damaged",
            "Also writes messages whose texts differ from their digests"
        ),
        folder.required(true),
    ]?;
    let about = "Writes each message of a maildrop as a file, the oldest first";
    subcommand(alloc, "export", about, arguments)
}

/// `check --store PATH [--quick] [--verbose]`.
fn check<'a>(alloc: Global) -> Result<Command<'a>, AllocError> {
    let file = store(alloc, "The store's file, which no server may have open");
    let quick = "Doesn't compare the messages' texts with their digests";
    let arguments = vec![in alloc; file.required(true), flag(alloc, "quick", quick)]?;
    let about = "Opens a store, checks all that is in it, and prints what that is";
    subcommand(alloc, "check", about, arguments)
}

/// Adds a subcommand that was made.
fn add<'a>(
    command: Command<'a>,
    made: Result<Command<'a>, AllocError>,
) -> Result<Command<'a>, AllocError> {
    command.subcommand(made?)
}

/// The whole command line.
pub fn make_command<'a>(alloc: Global) -> Result<Command<'a>, AllocError> {
    let command = Command::new(alloc, "popbox")
        .version(VERSION)
        .about("A POP3 server for shared maildrops")
        .after_help(FOOT)
        .subcommand_required(true)
        .arg_required_else_help(true);
    let command = add(command, replay(alloc))?;
    let command = add(command, talk(alloc))?;
    let command = add(command, serve(alloc))?;
    let command = add(command, check_policy(alloc))?;
    let command = add(command, review_policy(alloc))?;
    let command = add(command, export(alloc))?;
    add(command, check(alloc))
}
