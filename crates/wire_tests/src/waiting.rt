//! Who is read first over sockets.
use serving::{Io, Link, Port, SocketWire, Wire};
use std::io;
use std::io::Write;
use std::net::{Ipv4Addr, Shutdown, SocketAddr, TcpStream};
use std::test::Fail;

/// Waits, and tells of five links by a `1` which give octets.
fn reads(wire: &mut SocketWire) -> [u8; 5] {
    let mut buffer = [0; 8];
    let mut came = [b'0'; 5];
    wire.wait(0);
    let mut number = 0u64;
    for it in came.iter_mut() {
        let read = wire.read(Port::Pop, Link { number }, &mut buffer);
        if matches!(read, Io::Count(_)) {
            *it = b'1';
        }
        number = number.saturating_add(1);
    }
    came
}

/// Waits, accepts what came, and tells how many links.
fn accepted(wire: &mut SocketWire) -> u64 {
    let mut count = 0u64;
    wire.wait(0);
    for _ in 0..8u32 {
        if wire.accept(Port::Pop).is_some() {
            count = count.saturating_add(1);
        }
    }
    count
}

/// Sends octets on each link.
fn send(clients: &mut [TcpStream], octets: &[u8]) -> io::Result<()> {
    for client in clients.iter_mut() {
        client.write_all(octets)?;
    }
    Ok(())
}

#[test]
fn longest_waiting_link_is_read_in_the_next_turn(rt: HostRuntime) -> Result<(), Fail> {
    let alloc = rt.alloc();
    let any = SocketAddr::from((Ipv4Addr::LOCALHOST, 0));
    let (mut wire, port) = SocketWire::bind(&rt, alloc, any)?;
    let at = SocketAddr::from((Ipv4Addr::LOCALHOST, port));
    let mut clients = Vec::new(alloc);
    for _ in 0..5u32 {
        clients.push(TcpStream::connect(&rt, at)?)?;
    }
    assert_eq!(rt; accepted(&mut wire), 5);
    send(clients.as_mut_slice(), b"a")?;
    assert!(rt; reads(&mut wire).as_slice() == b"11110".as_slice());
    send(clients.as_mut_slice(), b"b")?;
    assert!(rt; reads(&mut wire).as_slice() == b"11101".as_slice());
    Ok(())
}

/// Who comes as another one ends isn't accepted until that one's place may be free.
#[test]
fn who_comes_behind_an_end_is_accepted_in_the_next_turn(rt: HostRuntime) -> Result<(), Fail> {
    let any = SocketAddr::from((Ipv4Addr::LOCALHOST, 0));
    let (mut wire, port) = SocketWire::bind(&rt, rt.alloc(), any)?;
    let at = SocketAddr::from((Ipv4Addr::LOCALHOST, port));
    let first = TcpStream::connect(&rt, at)?;
    assert_eq!(rt; accepted(&mut wire), 1);
    first.shutdown(Shutdown::Both)?;
    let _second = TcpStream::connect(&rt, at)?;
    assert_eq!(rt; accepted(&mut wire), 0);
    assert_eq!(rt; accepted(&mut wire), 1);
    Ok(())
}
