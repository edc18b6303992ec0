//! What became of links, as a server's listener hears it.
use crate::two_clerks::office_of_two;
use office::Account;
use serving::{
    AdminRequest, Link, LinkEvent, Listener, Port, ScriptSpool, ScriptWire, Server, Wire,
};
use std::alloc::{AllocError, Global};
use std::test::Fail;
use vault::PlainVault;

/// What became of each link, in its order.
#[derive(Drop)]
struct Followed {
    alloc: Global,
    text: String,
    /// Whether memory was wanting for something.
    is_short: bool,
}

/// The word for a port.
fn port_word(port: Port) -> &'static str {
    match port {
        Port::Pop => "pop",
        Port::Admin => "admin",
    }
}

/// The words for what became of a link.
fn event_words(event: LinkEvent) -> &'static str {
    match event {
        LinkEvent::Came => "came",
        LinkEvent::LiesUnread => "lies unread",
        LinkEvent::WasRead => "was read",
        LinkEvent::Ended => "ended",
        LinkEvent::WasWritten => "was written",
        LinkEvent::Closed => "closed",
    }
}

impl Followed {
    /// Keeps what became of a link.
    fn keep(&mut self, port: Port, link: Link, event: LinkEvent) -> Result<(), AllocError> {
        let port = port_word(port);
        let words = event_words(event);
        self.text.push_str(format!(in self.alloc; "{port} {} {words}, ", link.number)?.as_str())
    }
}

impl Listener for Followed {
    ghost heard = { λ _ _. ⊥ };

    fn on_link<W: Wire>(&mut self, _wire: &W, port: Port, link: Link, event: LinkEvent) {
        self.is_short |= self.keep(port, link, event).is_err();
    }

    fn on_open(&mut self, _link: Link, _connection: u64) {}

    fn on_account(&mut self, _connection: u64, _account: &Account) {}

    fn on_request(&mut self, _link: Link, _request: &AdminRequest<'_>) {}
}

/// A server whose listener follows its links. It has the maildrop `orders`.
fn server_of(alloc: Global) -> Result<Server<PlainVault, ScriptWire, Followed>, Fail> {
    Ok(Server {
        office: office_of_two(alloc, &["orders"])?,
        wire: ScriptWire::new(alloc, Vec::new(alloc), 4096),
        listener: Followed {
            alloc,
            text: String::new(alloc),
            is_short: false,
        },
    })
}

/// What is followed if these clients come, each before a turn, and a link of the administration
/// before the last turn, if it sends something. Logins wait so many seconds.
fn followed_by(alloc: Global, wait: u64, clients: &[&str], request: &str) -> Result<String, Fail> {
    let mut server = server_of(alloc)?;
    let mut spool = ScriptSpool::new(alloc);
    let mut links = server.begin(alloc, &spool);
    links.set_wait(wait);
    for sends in clients {
        server
            .wire
            .connect(Vec::from_slice(alloc, sends.as_bytes())?)?;
        server.serve_turn(&mut links, &mut spool, 0);
    }
    if !request.is_empty() {
        server
            .wire
            .request(Vec::from_slice(alloc, request.as_bytes())?)?;
    }
    server.serve_turn(&mut links, &mut spool, 0);
    if server.listener.is_short {
        return Err(Fail::new("no memory"));
    }
    Ok(server.listener.text)
}

#[test]
fn client_who_quits(rt: HostRuntime) -> Result<(), Fail> {
    let text = followed_by(rt.alloc(), 0, &["QUIT\r\n"], "")?;
    assert!(rt;
        text.as_str() == "pop 0 came, pop 0 was read, pop 0 closed, ",
        "{text}"
    );
    Ok(())
}

#[test]
fn request_that_is_answered(rt: HostRuntime) -> Result<(), Fail> {
    let text = followed_by(rt.alloc(), 0, &[], "GET / HTTP/1.1\r\n\r\n")?;
    assert!(rt;
        text.as_str() == "admin 0 came, admin 0 was written, admin 0 closed, ",
        "{text}"
    );
    Ok(())
}

/// Bob's password comes while ann is in the maildrop.
#[test]
fn login_that_lies_unread(rt: HostRuntime) -> Result<(), Fail> {
    let both = [
        "USER ann/orders\r\nPASS s3 cret\r\n",
        "USER bob/orders\r\nPASS hunter\r\n",
    ];
    let text = followed_by(rt.alloc(), 10, &both, "")?;
    assert!(rt;
        text.as_str()
            == "pop 0 came, pop 0 was read, pop 1 came, pop 0 was read, pop 1 was read, \
                pop 1 lies unread, ",
        "{text}"
    );
    Ok(())
}

/// A link at whose end there is nothing more.
#[test]
fn link_that_ends(rt: HostRuntime) -> Result<(), Fail> {
    let mut server = server_of(rt.alloc())?;
    let mut spool = ScriptSpool::new(rt.alloc());
    let mut links = server.begin(rt.alloc(), &spool);
    server.wire.end_links();
    server.wire.connect(Vec::new(rt.alloc()))?;
    server.serve_turn(&mut links, &mut spool, 0);
    let text = server.listener.text.as_str();
    assert!(rt; text == "pop 0 came, pop 0 ended, pop 0 closed, ", "{text}");
    Ok(())
}
