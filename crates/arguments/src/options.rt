//! What the command line asks for: the subcommand and its options, each read once.
//!
//! A new option of a subcommand is an argument in `command_line`, where its default stands, a field
//! here, and a line of that struct's `read`. An option of `serve` that a server's start logs is a
//! field of the journal's `Settings` too, and a line of the server's `start_settings`.

use clap::ArgMatches;
use review::Format;
use session::Removals;
use std::io::Read;
use std::{fs, io};

/// What a command reads.
#[derive(Clone, Copy)]
pub enum Input<'a> {
    /// The file at a path.
    File(&'a str),
    Standard,
}

impl<'a> Input<'a> {
    /// What the command line names: `-` is standard input.
    fn at(path: &'a str) -> Input<'a> {
        match path {
            "-" => Input::Standard,
            _ => Input::File(path),
        }
    }

    /// What faults call it.
    pub fn name(&self) -> &'a str {
        match *self {
            Input::File(path) => path,
            Input::Standard => "standard input",
        }
    }

    /// Its octets, to its end.
    pub fn read(&self, rt: &HostRuntime) -> io::Result<Vec<u8>> {
        if let Input::File(path) = *self {
            return fs::read(rt, path);
        }
        let mut octets = Vec::new(rt.alloc());
        rt.reader().read_to_end(&mut octets)?;
        Ok(octets)
    }
}

/// A subcommand and its options.
#[derive(Clone, Copy)]
pub enum Subcommand<'a> {
    Replay(ReplayOptions<'a>),
    Talk(TalkOptions<'a>),
    Serve(ServeOptions<'a>),
    CheckPolicy(CheckPolicyOptions<'a>),
    ReviewPolicy(ReviewPolicyOptions<'a>),
    Export(ExportOptions<'a>),
    Check(CheckOptions<'a>),
}

impl<'a> Subcommand<'a> {
    /// Reads the subcommand that was found. Gives `None` if there is none, or if an option that is
    /// required or has a default has no value; then `clap` refused the command line before.
    pub fn read(found: &ArgMatches<'a>) -> Option<Subcommand<'a>> {
        let (name, found) = found.subcommand()?;
        match name {
            "replay" => Some(Subcommand::Replay(ReplayOptions::read(found)?)),
            "talk" => Some(Subcommand::Talk(TalkOptions::read(found)?)),
            "serve" => Some(Subcommand::Serve(ServeOptions::read(found)?)),
            "check-policy" => Some(Subcommand::CheckPolicy(CheckPolicyOptions::read(found)?)),
            "review-policy" => Some(Subcommand::ReviewPolicy(ReviewPolicyOptions::read(found)?)),
            "export" => Some(Subcommand::Export(ExportOptions::read(found)?)),
            "check" => Some(Subcommand::Check(CheckOptions::read(found)?)),
            _ => None,
        }
    }

    /// Whether faults are printed with what they are about.
    pub fn is_verbose(&self) -> bool {
        match self {
            Subcommand::Replay(options) => options.is_verbose,
            Subcommand::Talk(options) => options.is_verbose,
            Subcommand::Serve(options) => options.is_verbose,
            Subcommand::CheckPolicy(options) => options.is_verbose,
            Subcommand::ReviewPolicy(options) => options.is_verbose,
            Subcommand::Export(options) => options.is_verbose,
            Subcommand::Check(options) => options.is_verbose,
        }
    }

    /// The host name that greetings have; "" if none are sent.
    pub fn host(&self) -> &'a str {
        match self {
            Subcommand::Replay(options) => options.host,
            Subcommand::Talk(options) => options.host,
            Subcommand::Serve(options) => options.host,
            _ => "",
        }
    }
}

/// The options of `replay`.
#[derive(Clone, Copy)]
pub struct ReplayOptions<'a> {
    /// The store's file; without one the store is in memory.
    pub store: Option<&'a str>,
    pub host: &'a str,
    pub boot: u64,
    pub removals: Removals,
    pub script: Input<'a>,
    pub is_verbose: bool,
}

impl<'a> ReplayOptions<'a> {
    fn read(found: &ArgMatches<'a>) -> Option<ReplayOptions<'a>> {
        Some(ReplayOptions {
            store: found.get_str("store"),
            host: found.get_str("host")?,
            boot: found.get_one("boot")?,
            removals: removals_of(found)?,
            script: match found.get_str("SCRIPT") {
                Some(path) => Input::at(path),
                None => Input::Standard,
            },
            is_verbose: found.get_flag("verbose"),
        })
    }
}

/// The options of `talk`.
#[derive(Clone, Copy)]
pub struct TalkOptions<'a> {
    pub store: &'a str,
    pub host: &'a str,
    /// Without one the clock gives it.
    pub boot: Option<u64>,
    pub removals: Removals,
    pub is_verbose: bool,
}

impl<'a> TalkOptions<'a> {
    fn read(found: &ArgMatches<'a>) -> Option<TalkOptions<'a>> {
        Some(TalkOptions {
            store: found.get_str("store")?,
            host: found.get_str("host")?,
            boot: found.get_one("boot"),
            removals: removals_of(found)?,
            is_verbose: found.get_flag("verbose"),
        })
    }
}

/// The options of `serve`.
#[derive(Clone, Copy)]
pub struct ServeOptions<'a> {
    pub store: &'a str,
    pub spool: &'a str,
    /// The address at which clients connect, as it was written.
    pub listen: &'a str,
    pub pop_port: u16,
    pub admin_port: u16,
    /// The host's name of the administration's site, as it was written.
    pub admin_site: Option<&'a str>,
    /// Whether the administration lists the clerks.
    pub list_clerks: bool,
    pub host: &'a str,
    /// After how many turns it ends; without them it goes on.
    pub turns: Option<u64>,
    /// Whether events are logged.
    pub log: bool,
    pub message_ids: bool,
    pub reads: bool,
    pub removals: Removals,
    /// In seconds, as the next three.
    pub idle: u32,
    pub wait: u32,
    pub login_seconds: u32,
    pub make_room: bool,
    pub slow_guesses: bool,
    pub proxy_protocol: bool,
    pub is_verbose: bool,
}

impl<'a> ServeOptions<'a> {
    fn read(found: &ArgMatches<'a>) -> Option<ServeOptions<'a>> {
        Some(ServeOptions {
            store: found.get_str("store")?,
            spool: found.get_str("spool")?,
            listen: found.get_str("listen")?,
            pop_port: found.get_one("pop-port")?,
            admin_port: found.get_one("admin-port")?,
            admin_site: found.get_str("admin-site"),
            list_clerks: found.get_flag("list-clerks"),
            host: found.get_str("host")?,
            turns: found.get_one("turns"),
            log: found.get_flag("log"),
            message_ids: found.get_flag("log-message-ids"),
            reads: found.get_flag("log-reads"),
            removals: removals_of(found)?,
            idle: found.get_one("idle")?,
            wait: found.get_one("wait")?,
            login_seconds: found.get_one("login-seconds")?,
            make_room: found.get_flag("make-room"),
            slow_guesses: found.get_flag("slow-guesses"),
            proxy_protocol: found.get_flag("proxy-protocol"),
            is_verbose: found.get_flag("verbose"),
        })
    }
}

/// The options of `check-policy`.
#[derive(Clone, Copy)]
pub struct CheckPolicyOptions<'a> {
    pub file: Input<'a>,
    /// Whether the policy is printed, in place of how many rules it has.
    pub write: bool,
    pub is_verbose: bool,
}

impl<'a> CheckPolicyOptions<'a> {
    fn read(found: &ArgMatches<'a>) -> Option<CheckPolicyOptions<'a>> {
        Some(CheckPolicyOptions {
            file: Input::at(found.get_str("FILE")?),
            write: found.get_flag("write"),
            is_verbose: found.get_flag("verbose"),
        })
    }
}

/// The options of `review-policy`.
#[derive(Clone, Copy)]
pub struct ReviewPolicyOptions<'a> {
    pub new: Input<'a>,
    /// The old policy's file.
    pub against: Option<&'a str>,
    /// The store's file.
    pub store: Option<&'a str>,
    /// The clerk and the maildrop that it is about alone, as they were written.
    pub clerk: Option<&'a str>,
    pub maildrop: Option<&'a str>,
    /// Whether it leaves out who may do what.
    pub only_changes: bool,
    pub format: Format,
    pub is_verbose: bool,
}

impl<'a> ReviewPolicyOptions<'a> {
    fn read(found: &ArgMatches<'a>) -> Option<ReviewPolicyOptions<'a>> {
        Some(ReviewPolicyOptions {
            new: Input::at(found.get_str("NEW")?),
            against: found.get_str("against"),
            store: found.get_str("store"),
            clerk: found.get_str("clerk"),
            maildrop: found.get_str("maildrop"),
            only_changes: found.get_str("only").is_some(),
            format: format_of(found)?,
            is_verbose: found.get_flag("verbose"),
        })
    }
}

/// The options of `export`.
#[derive(Clone, Copy)]
pub struct ExportOptions<'a> {
    pub store: &'a str,
    /// The maildrop's name, as it was written.
    pub maildrop: &'a str,
    /// The folder into which the messages go.
    pub folder: &'a str,
    /// Whether messages are written whose texts differ from their digests.
    pub damaged: bool,
    pub is_verbose: bool,
}

impl<'a> ExportOptions<'a> {
    fn read(found: &ArgMatches<'a>) -> Option<ExportOptions<'a>> {
        Some(ExportOptions {
            store: found.get_str("store")?,
            maildrop: found.get_str("maildrop")?,
            folder: found.get_str("DIR")?,
            damaged: found.get_flag("damaged"),
            is_verbose: found.get_flag("verbose"),
        })
    }
}

/// The options of `check`.
#[derive(Clone, Copy)]
pub struct CheckOptions<'a> {
    pub store: &'a str,
    /// Whether the messages' texts aren't compared with their digests.
    pub quick: bool,
    pub is_verbose: bool,
}

impl<'a> CheckOptions<'a> {
    fn read(found: &ArgMatches<'a>) -> Option<CheckOptions<'a>> {
        Some(CheckOptions {
            store: found.get_str("store")?,
            quick: found.get_flag("quick"),
            is_verbose: found.get_flag("verbose"),
        })
    }
}

/// When removals are judged.
fn removals_of(found: &ArgMatches<'_>) -> Option<Removals> {
    match found.get_str("removals")? {
        "dele" => Some(Removals::JudgedAtDele),
        "quit" => Some(Removals::JudgedAtQuit),
        _ => None,
    }
}

/// How a review is written.
fn format_of(found: &ArgMatches<'_>) -> Option<Format> {
    match found.get_str("format")? {
        "text" => Some(Format::Text),
        "csv" => Some(Format::Csv),
        "html" => Some(Format::Html),
        "json" => Some(Format::Json),
        _ => None,
    }
}
