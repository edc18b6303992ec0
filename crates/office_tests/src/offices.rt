//! Tests of what no clause says of the office: that the calls which allocate succeed if there is
//! memory, and what they answer.

use converse::replay::tell;
use office::{Event, Limits, Office, OpenFault, RunFault, Step, Transcript};
use std::alloc::Global;
use std::test::Fail;
use vault::PlainVault;

/// An office over a store, under a host's name.
pub fn opened(
    alloc: Global,
    vault: PlainVault,
    host: &str,
) -> Result<Office<PlainVault>, OpenFault> {
    let Some(limits) = Limits::new(600) else {
        return Err(OpenFault::Store);
    };
    match Office::open(alloc, vault, host, 7, limits) {
        Ok(office) => Ok(office),
        Err((fault, _)) => Err(fault),
    }
}

/// Why no office is opened under a host's name, or none.
fn refusal(alloc: Global, host: &str) -> Option<OpenFault> {
    match opened(alloc, PlainVault::new(alloc), host) {
        Ok(_) => None,
        Err(fault) => Some(fault),
    }
}

/// Texts, and whether each is the name of a host: at most 64 octets, parts with dots between them.
static HOSTS: [(&str, bool); 16] = [
    ("localhost", true),
    ("h.test", true),
    ("dbc.mtview.ca.us", true),
    ("a-b.1", true),
    (
        "aaaaaaaaaaaaaaaaaaaaaaaaaaaaaaaaaaaaaaaaaaaaaaaaaaaaaaaaaaaaaaaa",
        true,
    ),
    (
        "aaaaaaaaaaaaaaaaaaaaaaaaaaaaaaaaaaaaaaaaaaaaaaaaaaaaaaaaaaaaaaaaa",
        false,
    ),
    ("", false),
    (".", false),
    ("a..b", false),
    (".a", false),
    ("a.", false),
    ("-a.b", false),
    ("a-.b", false),
    ("a.b-", false),
    ("H.test", false),
    ("a_b", false),
];

#[test]
fn good_and_bad_hosts(rt: HostRuntime) {
    let alloc = rt.alloc();
    for (host, is_good) in &HOSTS {
        let fault = if *is_good {
            None
        } else {
            Some(OpenFault::BadHost)
        };
        assert!(rt; refusal(alloc, *host) == fault, "{host}");
    }
}

#[test]
fn limits_of_idle_seconds(rt: HostRuntime) {
    assert!(rt; Limits::new(600).is_some() && Limits::new(86_400).is_some());
    assert!(rt; Limits::new(599).is_none() && Limits::new(86_401).is_none());
}

/// What is printed of the greeting path, step by step. The greeting is taken whole, and the reply
/// to QUIT in two pieces.
static TAKEN: &str = "opened 1
+OK POP3 server ready <1.7@h.test>\r
done
done
+OK done
bye\r
done
ignored: NoSuchConnection
";

fn run_greeting_path(office: &mut Office<PlainVault>) -> Result<Transcript, RunFault> {
    office.run(&[
        Event::Connect,
        Event::Took(1, 36),
        Event::Bytes(1, b"QUIT\r\n"),
        Event::Took(1, 4),
        Event::Took(1, 5),
        Event::Gone(1),
    ])
}

/// Whether the steps are those of the greeting path.
fn are_taken(alloc: Global, steps: &[Step]) -> Result<bool, Fail> {
    let mut told = Vec::new(alloc);
    for step in steps {
        told.extend_from_slice(step.octets())?;
        tell(alloc, &mut told, step.outcome())?;
    }
    Ok(told.as_slice() == TAKEN.as_bytes())
}

/// Whether the first connection is over.
fn is_over(office: &Office<PlainVault>) -> bool {
    office.ended(1) && !office.ready(1) && office.owed(1).is_empty()
}

/// Runs the greeting path. Whether its steps are as above, and its connection is over.
fn is_run(alloc: Global, office: &mut Office<PlainVault>) -> Result<bool, Fail> {
    let transcript = run_greeting_path(office)?;
    Ok(are_taken(alloc, transcript.steps())? && is_over(office))
}

#[test]
fn greeting_path_as_one_run(rt: HostRuntime) -> Result<(), Fail> {
    let mut office = opened(rt.alloc(), PlainVault::new(rt.alloc()), "h.test")?;
    assert!(rt; is_run(rt.alloc(), &mut office)?);
    Ok(())
}
