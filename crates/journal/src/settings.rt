//! Whether the server is proved and its options in force, as the line of its start has them.
ghost use Rattle.std.specs.Prelude.{◌≡◌, IfOk, Some, string_bytes};
ghost use Rattle.journal.specs.Settings.{yes_or_no, when_text, seconds_text, flags_text};
ghost use Rattle.journal.specs.Settings.{logged_text, admin_text, site_text, settings_text};

use creds::HostName;
use session::Removals;
use std::alloc::{AllocError, Global};

/// Whether the server is proved, and the options of `serve` that say how clients are served, what
/// is logged, and what the administration lists.
#[derive(Clone, Copy)]
pub struct Settings {
    pub is_proved: bool,
    pub removals: Removals,
    /// In seconds, as all up to `login_seconds`.
    pub idle: u32,
    pub wait: u32,
    pub login_seconds: u32,
    pub make_room: bool,
    pub slow_guesses: bool,
    pub proxy_protocol: bool,
    pub message_ids: bool,
    pub reads: bool,
    /// Whether the administration lists the clerks.
    pub lists_clerks: bool,
    /// The administration's site, if it has one.
    pub admin_site: Option<HostName>,
}

/// What is so or isn't.
fn yes_or_no(is_set: bool) -> &'static str
    ensures { result.now ≡ yes_or_no is_set }
{
    if is_set { "yes" } else { "no" }
}

/// When removals are judged.
fn when_word(removals: Removals) -> &'static str
    ensures { result.now ≡ when_text removals }
{
    match removals {
        Removals::JudgedAtDele => "dele",
        Removals::JudgedAtQuit => "quit",
    }
}

/// The options that are seconds.
fn seconds_text(alloc: Global, settings: &Settings) -> Result<String, AllocError>
    ensures { IfOk result (λ text. string_bytes text ≡ seconds_text settings.now) }
{
    let Settings { idle, wait, .. } = *settings;
    let login = settings.login_seconds;
    let text = format!(in alloc; " idle={idle} wait={wait} login-seconds={login}")?;
    Ok(text)
}

/// The options of clients that are set or aren't.
fn flags_text(alloc: Global, settings: &Settings) -> Result<String, AllocError>
    ensures { IfOk result (λ text. string_bytes text ≡ flags_text settings.now) }
{
    let room = yes_or_no(settings.make_room);
    let guesses = yes_or_no(settings.slow_guesses);
    let proxied = yes_or_no(settings.proxy_protocol);
    let text = format!(in alloc;
        " make-room={room} slow-guesses={guesses} proxy-protocol={proxied}"
    )?;
    Ok(text)
}

/// What is logged.
fn logged_text(alloc: Global, settings: &Settings) -> Result<String, AllocError>
    ensures { IfOk result (λ text. string_bytes text ≡ logged_text settings.now) }
{
    let ids = yes_or_no(settings.message_ids);
    let reads = yes_or_no(settings.reads);
    let text = format!(in alloc; " log-message-ids={ids} log-reads={reads}")?;
    Ok(text)
}

/// The administration's site, if it has one.
fn site_text(alloc: Global, site: Option<HostName>) -> Result<String, AllocError>
    ensures { IfOk result (λ text. string_bytes text ≡ site_text site) }
{
    match site {
        None => String::from_str(alloc, " admin-site=no"),
        Some(name) => named_text(alloc, name),
    }
}

/// The site of this name.
fn named_text(alloc: Global, name: HostName) -> Result<String, AllocError>
    ensures { IfOk result (λ text. string_bytes text ≡ site_text (Some name)) }
{
    let text = format!(in alloc; " admin-site={name}")?;
    Ok(text)
}

/// Whether the administration lists the clerks, and its site.
fn admin_text(alloc: Global, settings: &Settings) -> Result<String, AllocError>
    ensures { IfOk result (λ text. string_bytes text ≡ admin_text settings.now) }
{
    let listed = yes_or_no(settings.lists_clerks);
    let site = site_text(alloc, settings.admin_site)?;
    let text = format!(in alloc; " list-clerks={listed}{site}")?;
    Ok(text)
}

/// All of them, as values of a line. Its error is want of memory.
pub fn settings_text(alloc: Global, settings: &Settings) -> Result<String, AllocError>
    ensures { IfOk result (λ text. string_bytes text ≡ settings_text settings.now) }
{
    let proved = yes_or_no(settings.is_proved);
    let removals = when_word(settings.removals);
    let seconds = seconds_text(alloc, settings)?;
    let flags = flags_text(alloc, settings)?;
    let logged = logged_text(alloc, settings)?;
    let admin = admin_text(alloc, settings)?;
    let text = format!(in alloc;
        " proved={proved} removals={removals}{seconds}{flags}{logged}{admin}"
    )?;
    Ok(text)
}
