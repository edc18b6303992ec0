//! Requests and responses as octets: the cause of each refusal, limits at their edges, and requests
//! with the responses of an office.

use adminhttp::{Got, Refusal, Request, Route, policy_response, response};
use office::{AdminAccess, Event, Limits, Office, Outcome};
use policy::PolicyFault;
use std::alloc::Global;
use std::test::Fail;
use vault::PlainVault;

/// An administration that lists no clerks.
pub(crate) const CLOSED: AdminAccess = AdminAccess {
    lists_clerks: false,
};

/// Requests that are refused, each with its refusal.
static REFUSED: [(&str, Refusal); 20] = [
    ("bad\r\n\r\n", Refusal::BadRequest),
    ("\r\n\n GET /maildrops HTTP/1.1\n\n", Refusal::BadRequest),
    ("\r\r\nGET /maildrops HTTP/1.1\n\n", Refusal::BadRequest),
    ("GET /maildrops HTTP/1.2\r\n\r\n", Refusal::BadRequest),
    ("GET /maildrops/Orders HTTP/1.1\r\n\r\n", Refusal::NotFound),
    ("PUT /policy?x=1 HTTP/1.1\r\n\r\n", Refusal::NotFound),
    (
        "GET /explain/bob/orders/pay/write HTTP/1.1\r\n\r\n",
        Refusal::NotFound,
    ),
    (
        "GET /sessions/18446744073709551616 HTTP/1.1\r\n\r\n",
        Refusal::NotFound,
    ),
    (
        "POST /policy HTTP/1.1\r\n\r\n",
        Refusal::NotAllowed(Route::Policy),
    ),
    (
        "PUT /groups HTTP/1.1\r\n\r\n",
        Refusal::NotAllowed(Route::Groups),
    ),
    ("GET /groups/sales HTTP/1.1\r\n\r\n", Refusal::NotFound),
    (
        "HEAD /maildrops/a HTTP/1.0\n\n",
        Refusal::NotAllowed(Route::Maildrop),
    ),
    ("PUT /policy HTTP/1.1\r\n\r\n", Refusal::LengthRequired),
    (
        "PUT /policy HTTP/1.1\r\nContent-Length: 1\r\nContent-Length: 1\r\n\r\nx",
        Refusal::BadRequest,
    ),
    (
        "PUT /policy HTTP/1.1\r\ntransfer-encoding: chunked\r\nContent-Length: x\r\n\r\n",
        Refusal::LengthRequired,
    ),
    (
        "PUT /policy HTTP/1.1\r\nContent-Length: +1\r\n\r\nx",
        Refusal::BadRequest,
    ),
    (
        "PUT /policy HTTP/1.1\r\nContent-Length:\r\n\r\nx",
        Refusal::BadRequest,
    ),
    (
        "PUT /policy HTTP/1.1\r\nContent-Length: 1048577\r\n\r\n",
        Refusal::TooLarge,
    ),
    (
        "PUT /clerks/ann HTTP/1.1\r\nContent-Length: 7\r\n\r\npass a\r",
        Refusal::BadRequest,
    ),
    (
        "PUT /clerks/ann HTTP/1.1\r\nContent-Length: 4\r\n\r\npass",
        Refusal::BadRequest,
    ),
];

/// Whether a request is refused so.
fn is_refused(alloc: Global, octets: &[u8], refusal: Refusal) -> bool {
    match Request::read(alloc, &None, CLOSED, octets) {
        Got::Bad(told) => told == refusal,
        _ => false,
    }
}

/// Whether more of a request is to come.
fn is_unfinished(alloc: Global, octets: &[u8]) -> bool {
    matches!(Request::read(alloc, &None, CLOSED, octets), Got::More)
}

/// Whether a request is read as a command.
fn is_command(alloc: Global, octets: &[u8]) -> bool {
    matches!(Request::read(alloc, &None, CLOSED, octets), Got::Command(_))
}

#[test]
fn refused_requests(rt: HostRuntime) -> Result<(), Fail> {
    for (octets, refusal) in &REFUSED {
        assert!(rt; is_refused(rt.alloc(), octets.as_bytes(), *refusal));
    }
    Ok(())
}

#[test]
fn heads_at_their_limits(rt: HostRuntime) -> Result<(), Fail> {
    let alloc = rt.alloc();
    assert!(rt; is_unfinished(alloc, b"bad\r\n"));
    let mut long = vec![in alloc; b'a'; 8192]?;
    assert!(rt; is_unfinished(alloc, &long));
    long.push(b'a')?;
    assert!(rt; is_refused(alloc, &long, Refusal::BadRequest));
    Ok(())
}

#[test]
fn headers_at_their_limit(rt: HostRuntime) -> Result<(), Fail> {
    let alloc = rt.alloc();
    let mut head = Vec::new(alloc);
    head.extend_from_slice(b"GET /maildrops HTTP/1.1\r\n")?;
    for _ in 0..64u32 {
        head.extend_from_slice(b"A: b\r\n")?;
    }
    let mut longer = head.clone()?;
    head.extend_from_slice(b"\r\n")?;
    longer.extend_from_slice(b"A: b\r\n\r\n")?;
    assert!(rt; is_command(alloc, &head));
    assert!(rt; is_refused(alloc, &longer, Refusal::BadRequest));
    Ok(())
}

#[test]
fn body_at_its_limit(rt: HostRuntime) -> Result<(), Fail> {
    let alloc = rt.alloc();
    let mut octets = Vec::new(alloc);
    octets.extend_from_slice(b"PUT /policy HTTP/1.1\r\ncontent-length: 01048576 \r\n\r\n")?;
    assert!(rt; is_unfinished(alloc, &octets));
    let body = vec![in alloc; b'\n'; 1_048_576]?;
    octets.extend_from_slice(&body)?;
    assert!(rt; is_command(alloc, &octets));
    octets.pop();
    assert!(rt; is_unfinished(alloc, &octets));
    Ok(())
}

/// Whether a refusal has these octets, with the methods that are allowed.
fn allows(refusal: &Refusal, text: &str) -> bool {
    refusal.bytes() == text.as_bytes()
}

#[test]
fn method_not_allowed(rt: HostRuntime) -> Result<(), Fail> {
    assert!(rt;
        allows(
            &Refusal::NotAllowed(Route::Policy),
            "HTTP/1.1 405 Method Not Allowed\r\nContent-Type: text/plain\r\nAllow: GET, PUT\r\nContent-Length: 19\r\nConnection: close\r\n\r\nmethod not allowed\n"
        )
    );
    assert!(rt;
        allows(
            &Refusal::NotAllowed(Route::Groups),
            "HTTP/1.1 405 Method Not Allowed\r\nContent-Type: text/plain\r\nAllow: GET\r\nContent-Length: 19\r\nConnection: close\r\n\r\nmethod not allowed\n"
        )
    );
    Ok(())
}

/// The response to a request whose body is no policy.
fn told_fault(alloc: Global, octets: &[u8]) -> Option<Vec<u8>> {
    match Request::read(alloc, &None, CLOSED, octets) {
        Got::BadPolicy(fault) => policy_response(alloc, &fault).ok(),
        _ => None,
    }
}

#[test]
fn policy_with_a_fault(rt: HostRuntime) -> Result<(), Fail> {
    let alloc = rt.alloc();
    let request = b"PUT /policy HTTP/1.1\r\nContent-Length: 5\r\n\r\nx = 1";
    let told = told_fault(alloc, request).ok_or("no fault")?;
    assert!(rt;
        told.as_slice()
            == b"HTTP/1.1 400 Bad Request\r\nContent-Type: text/plain\r\nContent-Length: 19\r\nConnection: close\r\n\r\nrule 0: UnknownKey\n".as_slice()
    );
    let request = b"PUT /policy HTTP/1.1\r\nContent-Length: 1\r\n\r\n\xff";
    assert!(rt;
        matches!(
            Request::read(alloc, &None, CLOSED, request),
            Got::BadPolicy(PolicyFault::NotToml)
        )
    );
    Ok(())
}

/// Requests with policies in which a group has a fault, and the fault's text.
static GROUP_FAULTS: [(&str, &str); 2] = [
    (
        "PUT /policy HTTP/1.1\r\nContent-Length: 38\r\n\r\n[[group]]\nname = \"sales\"\nmembers = []\n",
        "group 1: GroupMembers\n",
    ),
    (
        "PUT /policy HTTP/1.1\r\nContent-Length: 99\r\n\r\n[[rule]]\nname = \"a\"\neffect = \"allow\"\nclerk = \"@none\"\nmaildrop = \"*\"\nclass = \"*\"\nactions = [\"open\"]\n",
        "rule 1: UnknownGroup\n",
    ),
];

#[test]
fn policies_with_a_fault_of_a_group(rt: HostRuntime) -> Result<(), Fail> {
    let alloc = rt.alloc();
    for (asked, body) in &GROUP_FAULTS {
        let told = told_fault(alloc, asked.as_bytes()).ok_or("no fault")?;
        assert!(rt; told.starts_with(b"HTTP/1.1 400 Bad Request\r\n"), "{body}");
        assert!(rt; told.ends_with(body.as_bytes()), "{body}");
    }
    Ok(())
}

/// Requests to an office, each with its response.
static ANSWERED: [(&str, &str); 16] = [
    (
        "PUT /maildrops/sales HTTP/1.1\r\n\r\n",
        "HTTP/1.1 201 Created\r\nContent-Type: text/plain\r\nContent-Length: 6\r\nConnection: close\r\n\r\nadded\n",
    ),
    (
        "PUT /maildrops/sales HTTP/1.0\n\n",
        "HTTP/1.1 200 OK\r\nContent-Type: text/plain\r\nContent-Length: 10\r\nConnection: close\r\n\r\nwas there\n",
    ),
    (
        "GET /maildrops HTTP/1.1\r\n\r\n",
        "HTTP/1.1 200 OK\r\nContent-Type: text/plain\r\nContent-Length: 10\r\nConnection: close\r\n\r\nsales 0 0\n",
    ),
    (
        "PUT /clerks/ann HTTP/1.1\r\nContent-Length: 14\r\n\r\npass s3 cret\r\nmore",
        "HTTP/1.1 201 Created\r\nContent-Type: text/plain\r\nContent-Length: 6\r\nConnection: close\r\n\r\nadded\n",
    ),
    (
        "GET /clerks/ann HTTP/1.1\r\n\r\n",
        "HTTP/1.1 200 OK\r\nContent-Type: text/plain\r\nContent-Length: 5\r\nConnection: close\r\n\r\npass\n",
    ),
    (
        "GET /clerks/bob HTTP/1.1\r\n\r\n",
        "HTTP/1.1 404 Not Found\r\nContent-Type: text/plain\r\nContent-Length: 14\r\nConnection: close\r\n\r\nno such clerk\n",
    ),
    (
        "PUT /policy HTTP/1.1\r\nContent-Length: 0\r\n\r\n",
        "HTTP/1.1 200 OK\r\nContent-Type: text/plain\r\nContent-Length: 8\r\nConnection: close\r\n\r\n0 rules\n",
    ),
    (
        "PUT /policy HTTP/1.1\r\nContent-Length: 112\r\n\r\n[[rule]]\nname = \"bob-no-pay\"\neffect = \"deny\"\nclerk = \"bob\"\nmaildrop = \"orders\"\nclass = \"pay\"\nactions = [\"read\"]\n",
        "HTTP/1.1 200 OK\r\nContent-Type: text/plain\r\nContent-Length: 8\r\nConnection: close\r\n\r\n1 rules\n",
    ),
    (
        "GET /explain/bob/orders/pay/read HTTP/1.1\r\n\r\n",
        "HTTP/1.1 200 OK\r\nContent-Type: text/plain\r\nContent-Length: 24\r\nConnection: close\r\n\r\ndeny by rule bob-no-pay\n",
    ),
    (
        "GET /groups HTTP/1.1\r\n\r\n",
        "HTTP/1.1 200 OK\r\nContent-Type: text/plain\r\nContent-Length: 0\r\nConnection: close\r\n\r\n",
    ),
    (
        "PUT /policy HTTP/1.1\r\nContent-Length: 160\r\n\r\n[[group]]\nname = \"sales\"\nmembers = [\"ann\", \"bob\"]\n[[rule]]\nname = \"s-open\"\neffect = \"allow\"\nclerk = \"@sales\"\nmaildrop = \"orders\"\nclass = \"*\"\nactions = [\"open\"]\n",
        "HTTP/1.1 200 OK\r\nContent-Type: text/plain\r\nContent-Length: 8\r\nConnection: close\r\n\r\n1 rules\n",
    ),
    (
        "GET /groups HTTP/1.1\r\n\r\n",
        "HTTP/1.1 200 OK\r\nContent-Type: text/plain\r\nContent-Length: 8\r\nConnection: close\r\n\r\nsales 2\n",
    ),
    (
        "GET /explain/bob/orders/note/open HTTP/1.1\r\n\r\n",
        "HTTP/1.1 200 OK\r\nContent-Type: text/plain\r\nContent-Length: 21\r\nConnection: close\r\n\r\nallow by rule s-open\n",
    ),
    (
        "GET /sessions HTTP/1.1\r\n\r\n",
        "HTTP/1.1 200 OK\r\nContent-Type: text/plain\r\nContent-Length: 0\r\nConnection: close\r\n\r\n",
    ),
    (
        "DELETE /sessions/07 HTTP/1.1\r\n\r\n",
        "HTTP/1.1 404 Not Found\r\nContent-Type: text/plain\r\nContent-Length: 16\r\nConnection: close\r\n\r\nno such session\n",
    ),
    (
        "DELETE /maildrops/sales HTTP/1.1\r\n\r\n",
        "HTTP/1.1 200 OK\r\nContent-Type: text/plain\r\nContent-Length: 8\r\nConnection: close\r\n\r\ndropped\n",
    ),
];

/// The response of an office to a request.
fn answer_to(alloc: Global, office: &mut Office<PlainVault>, octets: &[u8]) -> Option<Vec<u8>> {
    let Got::Command(command) = Request::read(alloc, &None, office.admin_access(), octets) else {
        return None;
    };
    match office.step(Event::Admin(&command)) {
        Outcome::Answered(answer) => response(alloc, &answer).ok(),
        _ => None,
    }
}

/// Whether an office answers a request with this response.
fn is_answered(alloc: Global, office: &mut Office<PlainVault>, octets: &[u8], want: &[u8]) -> bool {
    match answer_to(alloc, office, octets) {
        Some(told) => told.as_slice() == want,
        None => false,
    }
}

#[test]
fn requests_to_an_office(rt: HostRuntime) -> Result<(), Fail> {
    let alloc = rt.alloc();
    let limits = Limits::new(600).ok_or("limits")?;
    let Ok(mut office) = Office::open(alloc, PlainVault::new(alloc), "h.test", 7, limits) else {
        return Err("no office".into());
    };
    for (octets, want) in &ANSWERED {
        assert!(rt; is_answered(alloc, &mut office, octets.as_bytes(), want.as_bytes()));
    }
    Ok(())
}

/// Requests for the list of the clerks, each with its refusal by an administration that lists none,
/// and by one that lists them.
static OF_THE_LIST: [(&str, Refusal, Option<Refusal>); 4] = [
    ("GET /clerks HTTP/1.1\r\n\r\n", Refusal::NotFound, None),
    (
        "PUT /clerks HTTP/1.1\r\n\r\n",
        Refusal::NotFound,
        Some(Refusal::NotAllowed(Route::Clerks)),
    ),
    (
        "GET /clerks/ HTTP/1.1\r\n\r\n",
        Refusal::NotFound,
        Some(Refusal::NotFound),
    ),
    (
        "GET /clerks?x HTTP/1.1\r\n\r\n",
        Refusal::NotFound,
        Some(Refusal::NotFound),
    ),
];

/// The refusal of a request to an administration with this access, if it is refused.
fn refusal_of(alloc: Global, access: AdminAccess, octets: &[u8]) -> Option<Refusal> {
    match Request::read(alloc, &None, access, octets) {
        Got::Bad(told) => Some(told),
        _ => None,
    }
}

#[test]
fn requests_for_the_list_of_clerks(rt: HostRuntime) -> Result<(), Fail> {
    let open = AdminAccess { lists_clerks: true };
    for (request, closed, opened) in &OF_THE_LIST {
        let octets = request.as_bytes();
        assert!(rt;
            refusal_of(rt.alloc(), CLOSED, octets) == Some(*closed),
            "{request}"
        );
        assert!(rt;
            refusal_of(rt.alloc(), open, octets) == *opened,
            "{request}"
        );
    }
    Ok(())
}

/// Requests to an office that lists its clerks, each with its response.
static LISTED: [(&str, &str); 4] = [
    (
        "GET /clerks HTTP/1.1\r\n\r\n",
        "HTTP/1.1 200 OK\r\nContent-Type: text/plain\r\nContent-Length: 0\r\n\
         Connection: close\r\n\r\n",
    ),
    (
        "PUT /clerks/bob HTTP/1.1\r\nContent-Length: 6\r\n\r\napop x",
        "HTTP/1.1 201 Created\r\nContent-Type: text/plain\r\nContent-Length: 6\r\n\
         Connection: close\r\n\r\nadded\n",
    ),
    (
        "PUT /clerks/ann HTTP/1.1\r\nContent-Length: 6\r\n\r\npass x",
        "HTTP/1.1 201 Created\r\nContent-Type: text/plain\r\nContent-Length: 6\r\n\
         Connection: close\r\n\r\nadded\n",
    ),
    (
        "GET /clerks HTTP/1.1\r\n\r\n",
        "HTTP/1.1 200 OK\r\nContent-Type: text/plain\r\nContent-Length: 18\r\n\
         Connection: close\r\n\r\nann pass\nbob apop\n",
    ),
];

#[test]
fn clerks_listed_by_an_office(rt: HostRuntime) -> Result<(), Fail> {
    let alloc = rt.alloc();
    let limits = Limits::new(600).ok_or("limits")?;
    let limits = limits.with_access(AdminAccess { lists_clerks: true });
    let Ok(mut office) = Office::open(alloc, PlainVault::new(alloc), "h.test", 7, limits) else {
        return Err("no office".into());
    };
    for (octets, want) in &LISTED {
        assert!(rt; is_answered(alloc, &mut office, octets.as_bytes(), want.as_bytes()));
    }
    Ok(())
}
