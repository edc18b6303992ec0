//! The spool, one file a turn.
use crate::turns::server_on;
use serving::{FileName, Links, NoListener, ScriptSpool, ScriptWire, Server};
use std::test::Fail;
use vault::PlainVault;

/// Serves a turn.
fn turn(
    server: &mut Server<PlainVault, ScriptWire, NoListener>,
    links: &mut Links,
    spool: &mut ScriptSpool,
) {
    server.serve_turn(links, spool, 0);
}

#[test]
fn four_turns_over_four_names(rt: HostRuntime) -> Result<(), Fail> {
    let alloc = rt.alloc();
    let mut server = server_on(alloc, ScriptWire::new(alloc, Vec::new(alloc), 4096))?;
    let mut spool = ScriptSpool::new(alloc);
    spool.put("orders.note.b2.eml", b"")?;
    spool.put("readme.txt", b"x")?;
    spool.put("orders.note.a1.eml", b"x\n")?;
    spool.put("nowhere.note.c3.eml", b"x")?;
    let mut links = server.begin(alloc, &spool);
    turn(&mut server, &mut links, &mut spool);
    assert!(rt; spool.has("nowhere.note.c3.eml") && spool.acts().len() == 1);
    assert_eq!(rt; server.wire.waited(), 1000);
    turn(&mut server, &mut links, &mut spool);
    assert!(rt; !spool.has("orders.note.a1.eml") && spool.acts().len() == 3);
    assert_eq!(rt; server.wire.waited(), 1000);
    turn(&mut server, &mut links, &mut spool);
    assert!(rt; spool.has("orders.note.b2.eml.bad") && spool.acts().len() == 5);
    assert_eq!(rt; server.wire.waited(), 0);
    turn(&mut server, &mut links, &mut spool);
    assert!(rt; spool.has("nowhere.note.c3.eml") && spool.acts().len() == 6);
    assert!(rt; spool.has("readme.txt") && !spool.has("orders.note.b2.eml"));
    Ok(())
}

/// A file that can't be removed stays, and its deposit is known the next time.
#[test]
fn a_file_that_stays(rt: HostRuntime) -> Result<(), Fail> {
    let alloc = rt.alloc();
    let mut server = server_on(alloc, ScriptWire::new(alloc, Vec::new(alloc), 4096))?;
    let mut spool = ScriptSpool::new(alloc);
    spool.put("orders.note.a1.eml", b"x\n")?;
    spool.refuse();
    let mut links = server.begin(alloc, &spool);
    for _ in 0..3u32 {
        turn(&mut server, &mut links, &mut spool);
        assert_eq!(rt; server.wire.waited(), 1000);
    }
    assert!(rt; spool.has("orders.note.a1.eml") && spool.acts().len() == 3);
    Ok(())
}

/// Texts, and whether each is the name of a spool file.
static NAMES: [(&str, bool); 12] = [
    ("orders.note.x.eml", true),
    ("orders-2.note.X_y-9.eml", true),
    ("orders.note.eml", false),
    (".orders.note.x.eml", false),
    ("ORDERS.note.x.eml", false),
    ("orders.note.x.eml.bad", false),
    ("orders.note.x.eml.", false),
    ("orders.note..eml", false),
    ("orders.note.x.EML", false),
    ("orders.note.x", false),
    ("", false),
    ("orders.note.x.y.eml", false),
];

#[test]
fn names(rt: HostRuntime) -> Result<(), Fail> {
    for (text, is_name) in &NAMES {
        let text: &str = *text;
        assert!(rt;
            FileName::read(text.as_bytes()).is_some() == *is_name,
            "{text}"
        );
    }
    let name = FileName::read(b"orders.note.x.eml").ok_or("name")?;
    assert!(rt; name.text(rt.alloc())?.as_str() == "orders.note.x.eml");
    Ok(())
}
