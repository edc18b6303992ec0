//! Requests to an administration that has a site: which are its own, and which are refused.

use crate::benches::{bench_over, request, turns};
use crate::requests::CLOSED;
use adminhttp::{Got, Refusal, Request};
use creds::HostName;
use std::alloc::Global;
use std::test::Fail;
use vault::PlainVault;

/// Header lines of requests that are the own of the site `page.test`.
static OWN: [&str; 13] = [
    "Host: page.test\r\n",
    "hOST:PAGE.test:443 \r\n",
    "Host: localhost\r\n",
    "Host: LocalHost:1111\r\n",
    "Host: 127.0.0.1\r\n",
    "Host: 127.255.0.9:1111\r\n",
    "Host: [::1]\r\n",
    "Host: [::1]:1111\r\n",
    "Host: localhost:\r\n",
    "Host: 127.0.0.1:1111\r\nOrigin: http://127.0.0.1:1111\r\n",
    "Host: page.test\r\nSec-Fetch-Site: same-origin\r\nOrigin: https://Page.test\r\n",
    "Host: page.test\r\nSec-Fetch-Site: none\r\nReferer: http://evil.test/\r\n",
    "Host: page.test\r\nX-Origin: http://evil.test\r\nX-Host: evil.test\r\n",
];

/// Hosts that aren't its own.
static OTHER_HOSTS: [&str; 19] = [
    "",
    "Host:\r\n",
    "Host: evil.test\r\n",
    "Host: evil.test:1111\r\n",
    "Host: page.test.evil.test\r\n",
    "Host: a.page.test\r\n",
    "Host: localhost.\r\n",
    "Host: localhost.evil.test\r\n",
    "Host: 127.0.0.1.evil.test\r\n",
    "Host: 127.1\r\n",
    "Host: 127.0.0.256\r\n",
    "Host: 127.0.0.0.1\r\n",
    "Host: 128.0.0.1\r\n",
    "Host: 0.0.0.0:1111\r\n",
    "Host: ::1\r\n",
    "Host: [::1].evil.test\r\n",
    "Host: localhost:1111x\r\n",
    "Host: localhost@evil.test\r\n",
    "Host: localhost\r\nHost: localhost\r\n",
];

/// Headers by which a page of another origin sends a request to the site.
static OTHER_PAGES: [&str; 11] = [
    "Host: localhost\r\nOrigin: http://evil.test\r\n",
    "Host: localhost\r\nOrigin: http://localhost:3000\r\n",
    "Host: localhost:1111\r\nOrigin: http://localhost\r\n",
    "Host: localhost\r\nOrigin: null\r\n",
    "Host: localhost\r\nOrigin:\r\n",
    "Host: localhost\r\nOrigin: localhost\r\n",
    "Host: localhost\r\nOrigin: http://localhost\r\nOrigin: http://evil.test\r\n",
    "Host: localhost\r\nSec-Fetch-Site: cross-site\r\n",
    "Host: localhost\r\nSec-Fetch-Site: same-site\r\n",
    "Host: localhost\r\nSec-Fetch-Site:\r\n",
    "Host: localhost\r\nsec-fetch-site: none\r\nSec-Fetch-Site: cross-site\r\n",
];

/// What a request of these header lines comes to.
fn ask(alloc: Global, site: &Option<HostName>, line: &str, headers: &str) -> Got {
    let Ok(request) = format!(in alloc; "{line} HTTP/1.1\r\n{headers}\r\n") else {
        return Got::NoMemory;
    };
    Request::read(alloc, site, CLOSED, request.as_bytes())
}

/// Whether such a request adds a maildrop.
fn is_done(alloc: Global, site: &Option<HostName>, headers: &str) -> bool {
    matches!(
        ask(alloc, site, "PUT /maildrops/sales", headers),
        Got::Command(_)
    )
}

/// Whether a request line with these header lines is refused so.
fn is_refused(
    alloc: Global,
    site: &Option<HostName>,
    line: &str,
    headers: &str,
    refusal: Refusal,
) -> bool {
    match ask(alloc, site, line, headers) {
        Got::Bad(told) => told == refusal,
        _ => false,
    }
}

/// Whether such a request is refused as another site's, and is done without a site.
fn is_foreign(alloc: Global, site: &Option<HostName>, headers: &str) -> bool {
    let line = "PUT /maildrops/sales";
    is_done(alloc, &None, headers) && is_refused(alloc, site, line, headers, Refusal::ForeignSite)
}

#[test]
fn requests_of_the_site(rt: HostRuntime) -> Result<(), Fail> {
    let site = HostName::read(b"page.test");
    for headers in &OWN {
        assert!(rt; is_done(rt.alloc(), &site, *headers), "{headers}");
    }
    Ok(())
}

#[test]
fn requests_to_other_hosts(rt: HostRuntime) -> Result<(), Fail> {
    let site = HostName::read(b"page.test");
    for headers in &OTHER_HOSTS {
        assert!(rt; is_foreign(rt.alloc(), &site, *headers), "{headers}");
    }
    Ok(())
}

#[test]
fn requests_of_other_pages(rt: HostRuntime) -> Result<(), Fail> {
    let site = HostName::read(b"localhost");
    for headers in &OTHER_PAGES {
        assert!(rt; is_foreign(rt.alloc(), &site, *headers), "{headers}");
    }
    Ok(())
}

/// Request lines with a fault of their own, which is answered to the site's own requests alone.
static FAULTS: [(&str, Refusal); 3] = [
    ("GET /nothing", Refusal::NotFound),
    ("GET http://localhost/maildrops", Refusal::NotFound),
    ("PUT /policy", Refusal::LengthRequired),
];

/// Whether a request line has this fault if it is the site's own, and else is refused as another's.
fn is_judged_behind_the_site(alloc: Global, line: &str, fault: Refusal) -> bool {
    let site = HostName::read(b"localhost");
    let foreign = Refusal::ForeignSite;
    is_refused(alloc, &site, line, "Host: localhost\r\n", fault)
        && is_refused(alloc, &site, line, "Host: evil.test\r\n", foreign)
}

#[test]
fn faults_behind_the_site(rt: HostRuntime) -> Result<(), Fail> {
    for (line, fault) in &FAULTS {
        assert!(rt;
            is_judged_behind_the_site(rt.alloc(), *line, *fault),
            "{line}"
        );
    }
    Ok(())
}

/// What serving answers to a request of another site, and to one of its own that looks like it.
#[test]
fn a_request_of_another_site_does_nothing(rt: HostRuntime) -> Result<(), Fail> {
    let alloc = rt.alloc();
    let mut bench = bench_over(alloc, PlainVault::new(alloc), 16)?;
    bench.links.set_site(HostName::read(b"localhost"));
    request(
        &mut bench,
        b"PUT /maildrops/sales HTTP/1.1\r\nHost: evil.test\r\n\r\n",
    )?;
    turns(&mut bench, 20, 0);
    request(
        &mut bench,
        b"GET /maildrops HTTP/1.1\r\nHost: localhost\r\n\r\n",
    )?;
    turns(&mut bench, 20, 0);
    assert!(rt; bench.server.wire.response(0) == Refusal::ForeignSite.bytes());
    assert!(rt;
        bench
            .server
            .wire
            .response(1)
            .starts_with(b"HTTP/1.1 200 OK\r\n")
    );
    assert!(rt;
        bench
            .server
            .wire
            .response(1)
            .ends_with(b"Connection: close\r\n\r\n")
    );
    assert!(rt; bench.server.wire.is_request_closed(0) && bench.server.wire.is_request_closed(1));
    Ok(())
}
