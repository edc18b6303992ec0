//! A wire over sockets.
use crate::turns::server_on;
use serving::{NotedWire, ScriptSpool, SocketWire};
use std::io::{Read, Write};
use std::net::{Ipv4Addr, Shutdown, SocketAddr, TcpStream};
use std::test::Fail;

static ROW: &[u8] =
    b"+OK POP3 server ready <1.7@h.test>\r\n+OK capability list follows\r\nTOP\r\nUSER\r\nUIDL\r\nRESP-CODES\r\nPIPELINING\r\n.\r\n+OK bye\r\n";

#[test]
fn greeting_row_over_loopback(rt: HostRuntime) -> Result<(), Fail> {
    let alloc = rt.alloc();
    let any = SocketAddr::from((Ipv4Addr::LOCALHOST, 0));
    let (wire, port) = SocketWire::bind(&rt, alloc, any)?;
    let mut server = server_on(alloc, NotedWire::new(wire))?;
    let mut spool = ScriptSpool::new(alloc);
    let mut links = server.begin(alloc, &spool);
    let mut client = TcpStream::connect(&rt, SocketAddr::from((Ipv4Addr::LOCALHOST, port)))?;
    client.write_all(b"CAPA\r\nQUIT\r\n")?;
    client.shutdown(Shutdown::Write)?;
    for _ in 0..6u32 {
        server.serve_turn(&mut links, &mut spool, 0);
    }
    let mut read = Vec::new(alloc);
    client.read_to_end(&mut read)?;
    assert!(rt; read.as_slice() == ROW);
    assert_eq!(rt; links.count(), 0);
    Ok(())
}
