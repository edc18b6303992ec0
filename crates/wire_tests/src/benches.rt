//! An office with a wire in memory, its links and its spool, for the tests of what serves them.
use crate::turns::octets;
use office::Office;
use serving::{Links, NoListener, ScriptSpool, ScriptWire, Server};
use std::alloc::Global;
use std::test::Fail;
use transcripts::offices::opened;
use vault::Vault;

/// A server on a wire in memory, a spool, and the links.
#[derive(Drop)]
pub struct Bench<V: Vault> {
    pub alloc: Global,
    pub server: Server<V, ScriptWire, NoListener>,
    pub spool: ScriptSpool,
    pub links: Links,
}

/// A bench with a new office over this vault. Each read and each write moves `piece` octets at
/// most.
pub fn bench_over<V: Vault + Drop>(
    alloc: Global,
    vault: V,
    piece: usize,
) -> Result<Bench<V>, Fail> {
    Ok(bench_of(alloc, opened(alloc, vault)?, piece))
}

/// A bench with this office. Each read and each write moves `piece` octets at most.
pub fn bench_of<V: Vault>(alloc: Global, office: Office<V>, piece: usize) -> Bench<V> {
    let server = Server {
        office,
        wire: ScriptWire::new(alloc, Vec::new(alloc), piece),
        listener: NoListener,
    };
    let spool = ScriptSpool::new(alloc);
    let links = server.begin(alloc, &spool);
    Bench {
        alloc,
        server,
        spool,
        links,
    }
}

/// Serves `count` turns at the second `now`.
pub fn turns<V: Vault>(bench: &mut Bench<V>, count: u32, now: u64) {
    for _ in 0..count {
        bench
            .server
            .serve_turn(&mut bench.links, &mut bench.spool, now);
    }
}

/// Has a link of the administration come that brings these octets.
pub fn request<V: Vault>(bench: &mut Bench<V>, comes: &[u8]) -> Result<(), Fail> {
    Ok(bench.server.wire.request(octets(bench.alloc, comes)?)?)
}
