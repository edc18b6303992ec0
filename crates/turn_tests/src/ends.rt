//! Why a connection ended, as a server's listener hears it: of one that was idle, of one that took
//! too long to log in, and of one whose place another got.
use crate::two_clerks::office_of_two;
use office::{Account, End};
use serving::{
    AdminRequest, Link, LinkEvent, Listener, Port, ScriptSpool, ScriptWire, Server, Wire,
};
use std::alloc::{AllocError, Global};
use std::net::{IpAddr, Ipv4Addr};
use std::test::Fail;

/// Each connection that ended if no line ended it, and why, in their order.
#[derive(Drop)]
struct Ends {
    alloc: Global,
    text: String,
    /// Whether memory was wanting for one.
    is_short: bool,
}

/// Why a connection ended.
fn end_word(end: End) -> &'static str {
    match end {
        End::Gone => "gone",
        End::NoMemory | End::NoMemoryForLine => "no memory",
        End::StoreFailed => "store failed",
        End::SessionEnded => "session ended",
        End::Idle => "idle",
        End::TooLate => "too late",
        End::FullHouse => "full house",
    }
}

impl Ends {
    /// Keeps that a connection ended.
    fn keep(&mut self, connection: u64, end: End) -> Result<(), AllocError> {
        let word = end_word(end);
        self.text
            .push_str(format!(in self.alloc; "{connection} {word}, ")?.as_str())
    }
}

impl Listener for Ends {
    ghost heard = { λ _ _. ⊥ };

    fn on_link<W: Wire>(&mut self, _wire: &W, _port: Port, _link: Link, _event: LinkEvent) {}

    fn on_open(&mut self, _link: Link, _connection: u64) {}

    fn on_account(&mut self, connection: u64, account: &Account) {
        if let Account::Ended(end) = account {
            self.is_short |= self.keep(connection, *end).is_err();
        }
    }

    fn on_request(&mut self, _link: Link, _request: &AdminRequest<'_>) {}
}

/// What is heard of silent clients: so many come before the turn at each of these moments, and each
/// has so many seconds for its login. If they make room, the first ones come from these addresses.
fn ends_by(
    alloc: Global,
    login_seconds: u64,
    make_room: Option<&[IpAddr]>,
    turns: &[(usize, u64)],
) -> Result<String, Fail> {
    let mut spool = ScriptSpool::new(alloc);
    let mut server = Server {
        office: office_of_two(alloc, &[])?,
        wire: ScriptWire::new(alloc, Vec::new(alloc), 4096),
        listener: Ends {
            alloc,
            text: String::new(alloc),
            is_short: false,
        },
    };
    let mut links = server.begin(alloc, &spool);
    links.set_login_seconds(login_seconds);
    if let Some(from) = make_room {
        links.set_make_room(true);
        let mut addresses = Vec::new(alloc);
        addresses.extend_from_slice(from)?;
        server.wire.set_addresses(addresses);
    }
    for (coming, now) in turns {
        connect_all(alloc, &mut server.wire, *coming)?;
        server.serve_turn(&mut links, &mut spool, *now);
    }
    if server.listener.is_short {
        return Err(Fail::new("no memory"));
    }
    Ok(server.listener.text)
}

/// So many clients come, and say nothing.
fn connect_all(alloc: Global, wire: &mut ScriptWire, count: usize) -> Result<(), Fail> {
    for _ in 0..count {
        wire.connect(Vec::new(alloc))?;
    }
    Ok(())
}

#[test]
fn idle_ones_are_heard(rt: HostRuntime) -> Result<(), Fail> {
    let turns = [
        (1, 5),
        (1, 7),
        (0, 604),
        (0, 605),
        (0, 606),
        (0, 607),
        (0, 608),
    ];
    let ends = ends_by(rt.alloc(), 0, None, &turns)?;
    assert!(rt; ends.as_str() == "1 idle, 2 idle, ", "{ends}");
    Ok(())
}

#[test]
fn late_ones_are_heard(rt: HostRuntime) -> Result<(), Fail> {
    let turns = [(1, 5), (1, 7), (0, 14), (0, 15), (0, 16), (0, 17), (0, 18)];
    let ends = ends_by(rt.alloc(), 10, None, &turns)?;
    assert!(rt; ends.as_str() == "1 too late, 2 too late, ", "{ends}");
    Ok(())
}

/// If clients keep their places, one that comes to a full house ends nobody.
#[test]
fn full_house_ends_nobody(rt: HostRuntime) -> Result<(), Fail> {
    let ends = ends_by(rt.alloc(), 0, None, &[(64, 5), (3, 6), (0, 7)])?;
    assert!(rt; ends.as_str() == "", "{ends}");
    Ok(())
}

/// A full house alone ends nobody: each that comes to it ends one, the oldest first, if their
/// addresses aren't known or are the same.
#[test]
fn newcomers_get_the_oldest_places(rt: HostRuntime) -> Result<(), Fail> {
    let here = [IpAddr::V4(Ipv4Addr::new(192, 0, 2, 1)); 80];
    for from in [&here[..0], &here[..]] {
        let ends = ends_by(
            rt.alloc(),
            0,
            Some(from),
            &[(64, 5), (0, 6), (2, 7), (1, 8)],
        )?;
        assert!(rt;
            ends.as_str() == "1 full house, 2 full house, 3 full house, ",
            "{ends}"
        );
    }
    Ok(())
}

/// The first one came alone from its address, and keeps its place as long as another address has
/// more.
#[test]
fn newcomers_get_places_of_the_address_with_most(rt: HostRuntime) -> Result<(), Fail> {
    let mut from = [IpAddr::V4(Ipv4Addr::new(192, 0, 2, 1)); 67];
    from[0] = IpAddr::V4(Ipv4Addr::new(192, 0, 2, 2));
    from[1] = IpAddr::V4(Ipv4Addr::new(192, 0, 2, 3));
    from[2] = IpAddr::V4(Ipv4Addr::new(192, 0, 2, 3));
    let ends = ends_by(rt.alloc(), 0, Some(&from[..]), &[(64, 5), (3, 6)])?;
    assert!(rt;
        ends.as_str() == "4 full house, 5 full house, 6 full house, ",
        "{ends}"
    );
    Ok(())
}
