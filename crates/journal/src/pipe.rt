//! Whether standard error takes a line at once.
use mio::unix::SourceFd;
use mio::{Events, Interest, Poll, Token};
use std::io;
use std::os::fd::RawFd;
use std::time::Duration;

/// Standard error's descriptor.
const STANDARD_ERROR: RawFd = 2;

/// Whether standard error takes a line of up to 4,096 octets without waiting for its reader: a pipe
/// that the system calls writable has room for them. A file always takes a line.
pub fn takes_a_line(rt: &HostRuntime) -> bool {
    match Poll::new(rt) {
        Ok(poll) => is_ready(rt, poll).unwrap_or(true),
        Err(_) => false,
    }
}

/// Whether standard error is writable now. Its error is that of a file, which can't be polled.
fn is_ready(rt: &HostRuntime, mut poll: Poll) -> io::Result<bool> {
    let mut standard_error = SourceFd(&STANDARD_ERROR);
    let registry = poll.registry();
    registry.register(&mut standard_error, Token(0), Interest::WRITABLE)?;
    let mut events = Events::with_capacity(rt.alloc(), 1)?;
    poll.poll(&mut events, Some(Duration::ZERO))?;
    Ok(!events.is_empty())
}
