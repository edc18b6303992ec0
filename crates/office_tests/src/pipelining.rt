//! Tests of a client that doesn't wait for replies, its events given as one list, and over stores
//! that refuse a call.

use crate::offices::opened;
use converse::replay::{tell, write_escaped};
use creds::{DepositId, Name};
use office::{AdminCommand, Event, Office, RunFault, Transcript};
use std::alloc::Global;
use std::test::Fail;
use transcripts::pipelining::{PIPELINED, QUIT};
use transcripts::playing::{parts_of, run_on};
use transcripts::sessions::SAMPLE;
use vault::{PlainVault, Refusing};

/// The QUIT acts, and the store refuses the removal.
static REFUSED_QUIT: &str = r"> took 1 2
sent 1 \r\n
failed
> list orders
answer note.1 21
answer pay.1 19
answer note.2 15
answer todo.1 25
answer note.3 3
> took 1 7
sent 1 -ERR so
done
> drain 1
sent 1 me deleted messages not removed\r\n
done
ended 1
";

/// A vault with the sample store.
fn sample_vault(alloc: Global) -> Result<PlainVault, Fail> {
    let (script, _) = parts_of(alloc, SAMPLE)?;
    let (_, vault) = run_on(alloc, PlainVault::new(alloc), "h.test", 7, script.as_str())?;
    Ok(vault)
}

/// What the events of the script borrow.
#[derive(Clone, Copy)]
struct Lent<'a> {
    orders: &'a Name,
    note: &'a Name,
    id: &'a DepositId,
    text: &'a [u8],
    list: &'a AdminCommand,
    user: &'a [u8],
    pass: &'a [u8],
    lines: &'a [u8],
}

/// Runs the script's events as one list.
fn run_lent(office: &mut Office<PlainVault>, lent: Lent<'_>) -> Result<Transcript, RunFault> {
    office.run(&[
        Event::Connect,
        Event::Took(1, 36),
        Event::Bytes(1, lent.user),
        Event::Took(1, 15),
        Event::Bytes(1, lent.pass),
        Event::Took(1, 41),
        Event::Bytes(1, lent.lines),
        Event::Took(1, 7),
        Event::Took(1, 7),
        Event::Took(1, 7),
        Event::Deposit(lent.orders, lent.note, lent.id, lent.text),
        Event::Took(1, 7),
        Event::Took(1, 7),
        Event::Took(1, 5),
        Event::Took(1, 7),
        Event::Took(1, 7),
        Event::Took(1, 7),
        Event::Admin(lent.list),
        Event::Took(1, 2),
        Event::Admin(lent.list),
        Event::Took(1, 7),
        Event::Took(1, 2),
    ])
}

/// Runs the list over an office, with these names of the maildrop, the class and the deposit.
fn run_named(
    office: &mut Office<PlainVault>,
    orders: &Name,
    note: &Name,
    id: &DepositId,
) -> Result<Transcript, RunFault> {
    let list = AdminCommand::ShowMaildrop(*orders);
    let lent = Lent {
        orders,
        note,
        id,
        text: b"x\n",
        list: &list,
        user: b"USER ann/orders\r\n",
        pass: b"PASS s3 cret\r\n",
        lines: b"RETR 1\r\nDELE 1\r\nQUIT\r\n",
    };
    run_lent(office, lent)
}

/// Runs the list over the sample store.
fn run_as_one_list(alloc: Global) -> Result<Transcript, Fail> {
    let orders = Name::read(b"orders").ok_or("maildrop")?;
    let note = Name::read(b"note").ok_or("class")?;
    let id = DepositId::read(b"d5").ok_or("id")?;
    let mut office = opened(alloc, sample_vault(alloc)?, "h.test")?;
    Ok(run_named(&mut office, &orders, &note, &id)?)
}

/// A transcript as replay prints it, without the lines that say that a connection ended.
fn told(alloc: Global, transcript: &Transcript) -> Result<Vec<u8>, Fail> {
    let mut out = Vec::new(alloc);
    for step in transcript.steps() {
        if !step.octets().is_empty() {
            out.extend_from_slice(b"sent 1 ")?;
            write_escaped(&mut out, step.octets())?;
            out.push(b'\n')?;
        }
        tell(alloc, &mut out, step.outcome())?;
    }
    Ok(out)
}

/// The whole script with this QUIT, and what it must print.
fn parts_with(alloc: Global, quit: &str) -> Result<(String, String), Fail> {
    let whole = format!(in alloc; "{PIPELINED}{quit}")?;
    parts_of(alloc, whole.as_str())
}

#[test]
fn pipelined_as_one_run(rt: HostRuntime) -> Result<(), Fail> {
    let alloc = rt.alloc();
    let (_, want) = parts_with(alloc, QUIT)?;
    let transcript = run_as_one_list(alloc)?;
    let mut text = told(alloc, &transcript)?;
    text.extend_from_slice(b"ended 1\n")?;
    assert!(rt; text.as_slice() == want.as_bytes());
    Ok(())
}

/// Runs the script over stores that refuse their first call, their second, and so on until none is
/// refused. Answers whether the QUIT was refused in one of them.
fn has_refused_quit(alloc: Global, script: &str, free: &str, quit: &str) -> Result<bool, Fail> {
    let mut was_refused = false;
    for call in 1..100 {
        let vault = Refusing::new(sample_vault(alloc)?, call);
        let (ran, _) = run_on(alloc, vault, "h.test", 7, script)?;
        if ran.as_str() == free {
            return Ok(was_refused);
        }
        if ran.as_str() == quit {
            was_refused = true;
        }
    }
    Err(Fail::from("each run was refused"))
}

#[test]
fn pipelined_quit_is_refused(rt: HostRuntime) -> Result<(), Fail> {
    let alloc = rt.alloc();
    let (script, free) = parts_with(alloc, QUIT)?;
    let (_, refused) = parts_with(alloc, REFUSED_QUIT)?;
    assert!(rt; has_refused_quit(alloc, script.as_str(), free.as_str(), refused.as_str())?);
    Ok(())
}
