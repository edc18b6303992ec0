//! The listener hears which connection each link got.

use crate::two_clerks::office_of_two;
use office::Account;
use serving::{
    AdminRequest, Link, LinkEvent, Listener, Port, ScriptSpool, ScriptWire, Server, Wire,
};
use std::test::Fail;

/// The last link that was opened, its connection, and how many there were.
#[derive(Drop)]
struct Doorman {
    link: u64,
    connection: u64,
    count: u64,
}

impl Listener for Doorman {
    ghost heard = { λ _ _. ⊥ };

    fn on_link<W: Wire>(&mut self, _wire: &W, _port: Port, _link: Link, _event: LinkEvent) {}

    fn on_open(&mut self, link: Link, connection: u64) {
        self.link = link.number;
        self.connection = connection;
        self.count = self.count.saturating_add(1);
    }

    fn on_account(&mut self, _connection: u64, _account: &Account) {}

    fn on_request(&mut self, _link: Link, _request: &AdminRequest<'_>) {}
}

#[test]
fn each_with_its_connection(rt: HostRuntime) -> Result<(), Fail> {
    let alloc = rt.alloc();
    let mut server = Server {
        office: office_of_two(alloc, &[])?,
        wire: ScriptWire::new(alloc, Vec::new(alloc), 4096),
        listener: Doorman {
            link: 0,
            connection: 0,
            count: 0,
        },
    };
    let mut spool = ScriptSpool::new(alloc);
    let mut links = server.begin(alloc, &spool);
    for number in 0..3u64 {
        server.wire.connect(Vec::new(alloc))?;
        server.serve_turn(&mut links, &mut spool, 0);
        assert_eq!(rt; server.listener.link, number);
        assert_eq!(rt; server.listener.connection, number.saturating_add(1));
    }
    assert_eq!(rt; server.listener.count, 3);
    Ok(())
}
