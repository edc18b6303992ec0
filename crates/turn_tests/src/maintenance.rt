//! After which turns the store is asked to do what it has put off.

use crate::two_clerks::office_of_two;
use office::{Limits, Office};
use serving::{Clock, NoListener, ScriptSpool, ScriptWire, Server};
use std::alloc::Global;
use std::test::Fail;
use vault::Refusing;

/// A clock that stands still.
#[derive(Clone, Copy)]
struct Still;

impl Clock for Still {
    ghost gave = { λ _ _. ⊥ };

    fn moment(&mut self) -> Option<u64> {
        Some(0)
    }
}

/// Whether the store is asked for its n-th call in so many turns of a server whose spool has a
/// file. The first call reads the policy, as the office is opened.
fn is_asked(alloc: Global, turns: u64, n: u64) -> Result<bool, Fail> {
    let vault = office_of_two(alloc, &["orders"])?.into_vault();
    let limits = Limits::new(600).ok_or("idle")?;
    let office = match Office::open(alloc, Refusing::new(vault, n), "h.test", 8, limits) {
        Ok(office) => office,
        Err((_, vault)) => return Ok(vault.refusals() > 0),
    };
    let mut server = Server {
        office,
        wire: ScriptWire::new(alloc, Vec::new(alloc), 4096),
        listener: NoListener,
    };
    let mut spool = ScriptSpool::new(alloc);
    spool.put("orders.note.d1.eml", b"Subject: a\n\nhi\n")?;
    let mut links = server.begin(alloc, &spool);
    server.serve_while(&mut links, &mut spool, &mut Still, turns);
    Ok(server.office.into_vault().refusals() > 0)
}

/// How many calls the store is asked for in so many turns: as many as can be refused.
fn calls_in(alloc: Global, turns: u64) -> Result<u64, Fail> {
    for n in 0..16u64 {
        if !is_asked(alloc, turns, n.saturating_add(1))? {
            return Ok(n);
        }
    }
    Err(Fail::new("too many calls"))
}

/// Turns, and how many calls they are: one for the policy; one for the file's deposit in the first
/// turn, after which the next one doesn't wait; and one after each turn that leaves nothing to do.
static CALLS: [(u64, u64); 4] = [(0, 1), (1, 2), (2, 3), (3, 4)];

#[test]
fn store_is_maintained_if_the_next_turn_waits(rt: HostRuntime) -> Result<(), Fail> {
    for (turns, calls) in &CALLS {
        if calls_in(rt.alloc(), *turns)? != *calls {
            return Err(Fail::new("asked more or less often"));
        }
    }
    Ok(())
}
