//! The routes, and which of them a path takes.

ghost use Rattle.std.specs.Prelude.{◌≡◌, IfOk, option_map};
ghost use Rattle.matchit.specs.Seek.{first};
ghost use Rattle.adminhttp.specs.Rows.{route_rows, value_of};

use crate::route::Route;
use matchit::{InsertError, Router};
use std::alloc::Global;

/// A router that knows each route.
fn make_router(alloc: Global) -> Result<Router<Route>, InsertError>
    ensures { IfOk result (λ router. router ≡ route_rows) }
{
    let mut router = Router::new(alloc);
    router.insert("/maildrops", Route::Maildrops)?;
    router.insert("/maildrops/{m}", Route::Maildrop)?;
    router.insert("/clerks", Route::Clerks)?;
    router.insert("/clerks/{c}", Route::Clerk)?;
    router.insert("/policy", Route::Policy)?;
    router.insert("/groups", Route::Groups)?;
    router.insert("/sessions", Route::Sessions)?;
    router.insert("/sessions/{n}", Route::Session)?;
    router.insert(
        "/explain/{clerk}/{maildrop}/{class}/{action}",
        Route::Explain,
    )?;
    Ok(router)
}

/// The route that a path takes, if any. An error means want of memory.
pub fn find_route(alloc: Global, path: &str) -> Result<Option<Route>, InsertError>
    ensures { IfOk result (λ route. route ≡ option_map value_of (first route_rows path.now)) }
{
    let router = make_router(alloc)?;
    Ok(route_of(&router, path))
}

/// The route that a path takes, by this router.
fn route_of(router: &Router<Route>, path: &str) -> Option<Route>
    requires { router.now ≡ route_rows }
    ensures { result ≡ option_map value_of (first route_rows path.now) }
{
    match router.at(path) {
        Ok(found) => Some(*found.value),
        Err(_) => None,
    }
}
