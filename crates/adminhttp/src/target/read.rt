//! The reader of a target.

ghost use Rattle.std.specs.Prelude.{◌≡◌, ◌≢◌, ◌+◌, ◌<◌, length, option_map, IfOk, IfErr, IfSome};
ghost use Rattle.std.specs.Prelude.{Ok, Err};
ghost use Rattle.std.specs.List.{position};
ghost use Rattle.std.specs.Str.{IsUtf8};
ghost use Rattle.adminhttp.specs.Targets.{target_of, target_on, found_on, explained, first_part};
ghost use Rattle.adminhttp.specs.Targets.{behind as text_behind, alone as target_alone, is_slash};
ghost use Rattle.adminhttp.specs.Steps.{value_or};
ghost use Rattle.adminhttp.specs.declared.refusal.Refusal.TheVariants.{NotFound};

use super::Target;
use crate::no_command::NoCommand;
use crate::refusal::Refusal;
use crate::route::Route;
use crate::router::find_route;
use creds::Name;
use office::read_number;
use policy::Action;
use std::alloc::Global;
use std::str;

/// What a target names; [`Refusal::NotFound`] if it is of no route, or a part of it has not its
/// form.
pub fn read_target(alloc: Global, target: &[u8]) -> Result<Target, NoCommand>
    requires { IsUtf8 target.now }
    ensures ok { IfOk result (λ found. value_or (target_of target.now) NotFound ≡ Ok found) }
    ensures fault { IfErr result (λ stop. stop ≢ NoCommand.NoMemory
        → value_or (target_of target.now) NotFound ≡ Err stop) }
{
    let Ok(path) = str::from_utf8(target) else {
        unreachable!()
    };
    match read_found(find_route(alloc, path)?, target) {
        Some(found) => Ok(found),
        None => Err(NoCommand::Bad(Refusal::NotFound)),
    }
}

/// What a path names, if this is its route.
fn read_found(route: Option<Route>, path: &[u8]) -> Option<Target>
    ensures { result ≡ found_on route path.now }
{
    match route {
        Some(route) => read_on(route, path),
        None => None,
    }
}

/// What a path names that is of this route.
fn read_on(route: Route, path: &[u8]) -> Option<Target>
    ensures { result ≡ target_on route path.now }
{
    match route {
        Route::Maildrops => alone(path, b"/maildrops", Target::Maildrops),
        Route::Maildrop => Some(Target::Maildrop(Name::read(behind(path, b"/maildrops/")?)?)),
        Route::Clerks => alone(path, b"/clerks", Target::Clerks),
        Route::Clerk => Some(Target::Clerk(Name::read(behind(path, b"/clerks/")?)?)),
        Route::Policy => alone(path, b"/policy", Target::Policy),
        Route::Groups => alone(path, b"/groups", Target::Groups),
        Route::Sessions => alone(path, b"/sessions", Target::Sessions),
        Route::Session => Some(Target::Session(read_number(behind(path, b"/sessions/")?)?)),
        Route::Explain => read_explain(behind(path, b"/explain/")?),
    }
}

/// The target, if the path is this word.
fn alone(path: &[u8], word: &[u8], target: Target) -> Option<Target>
    ensures { result ≡ target_alone word.now target path.now }
{
    if path == word { Some(target) } else { None }
}

/// What stands after this beginning of a path.
fn behind<'p>(path: &'p [u8], word: &[u8]) -> Option<&'p [u8]>
    ensures { option_map (λ r. r.now) result ≡ text_behind word.now path.now }
{
    if path.starts_with(word) {
        return Some(&path[word.len()..]);
    }
    None
}

/// `CLERK/MAILDROP/CLASS/ACTION`.
fn read_explain(text: &[u8]) -> Option<Target>
    ensures { result ≡ explained text.now }
{
    let (clerk, rest) = take_part(text)?;
    let (maildrop, rest) = take_part(rest)?;
    let (class, action) = take_part(rest)?;
    let clerk = Name::read(clerk)?;
    let maildrop = Name::read(maildrop)?;
    let class = Name::read(class)?;
    let action = Action::read(action)?;
    Some(Target::Explain {
        clerk,
        maildrop,
        class,
        action,
    })
}

/// The part before the first slash, and what stands after that slash.
fn take_part(text: &[u8]) -> Option<(&[u8], &[u8])>
    ensures { option_map (λ r. (r.0.now, r.1.now)) result ≡ first_part text.now }
{
    let at = slash_in(text)?;
    Some((&text[..at], &text[at + 1..]))
}

/// Where the first slash stands.
fn slash_in(text: &[u8]) -> Option<usize>
    ensures value { result ≡ position is_slash text.now }
    ensures within { IfSome result (λ at. at < length text.now) }
{
    text.iter().position(|b| *b == b'/')
}
