//! What the options of `serve` say of the administration's site, and of a start in the log.
ghost use Rattle.std.specs.Prelude.{◌≡◌, Err, IfErr};
ghost use Rattle.server.specs.Served.{site_by};

use arguments::{IS_PROVED, ServeOptions};
use converse::Fault;
use creds::HostName;
use journal::Settings;

/// The administration's site, if there is one. Its fault is `BadHost`: the name isn't of the form
/// of a host's.
pub fn admin_site(options: &ServeOptions<'_>) -> Result<Option<HostName>, Fault>
    ensures { result ≡ site_by options.now.admin_site }
{
    let Some(name) = options.admin_site else {
        return Ok(None);
    };
    match HostName::read(name.as_bytes()) {
        Some(site) => Ok(Some(site)),
        None => Err(Fault::BadHost),
    }
}

/// What a start's line of the log says: whether this popbox is proved, and the options that say how
/// clients are served, what is logged, and what the administration lists. Its fault is that of
/// `admin_site`.
pub fn start_settings(options: &ServeOptions<'_>) -> Result<Settings, Fault>
    ensures err { IfErr result (λ met. site_by options.now.admin_site ≡ Err met) }
{
    let admin_site = admin_site(options)?;
    Ok(Settings {
        is_proved: IS_PROVED,
        removals: options.removals,
        idle: options.idle,
        wait: options.wait,
        login_seconds: options.login_seconds,
        make_room: options.make_room,
        slow_guesses: options.slow_guesses,
        proxy_protocol: options.proxy_protocol,
        message_ids: options.message_ids,
        reads: options.reads,
        lists_clerks: options.list_clerks,
        admin_site,
    })
}
