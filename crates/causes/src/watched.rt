//! A reader or writer that keeps its last error, and counts the lines `failed`.

use std::io;
use std::io::{Error, Read, Write};

/// The line that `popbox replay` prints for an event that the store refused.
const FAILED: &[u8] = b"failed\n";

/// A reader or writer that keeps its last error, and counts the lines `failed` that were written.
#[derive(Drop)]
pub struct Watched<T> {
    inner: T,
    refusal: Option<Error>,
    failed: u64,
    /// How many octets the present line has, while it is a beginning of `FAILED`; `None` once it is
    /// another line.
    place: Option<usize>,
}

impl<T> Watched<T> {
    /// Watches a reader or writer.
    pub fn new(inner: T) -> Watched<T> {
        Watched {
            inner,
            refusal: None,
            failed: 0,
            place: Some(0),
        }
    }

    /// Its last error.
    pub fn refusal(&self) -> Option<Error> {
        self.refusal
    }

    /// How many lines `failed` were written.
    pub fn failed(&self) -> u64 {
        self.failed
    }

    /// Takes an octet of a line.
    fn see(&mut self, octet: u8) {
        if octet == b'\n' {
            if self.place == Some(FAILED.len() - 1) {
                self.failed = self.failed.saturating_add(1);
            }
            self.place = Some(0);
            return;
        }
        self.place = match self.place {
            Some(at) if FAILED.get(at) == Some(&octet) => Some(at + 1),
            _ => None,
        };
    }

    /// Takes the octets of lines.
    fn see_all(&mut self, octets: &[u8]) {
        for octet in octets {
            self.see(*octet);
        }
    }
}

impl<T: Read> Read for Watched<T> {
    fn read(&mut self, room: &mut [u8]) -> io::Result<usize> {
        let answer = self.inner.read(room);
        if let Err(error) = answer {
            self.refusal = Some(error);
        }
        answer
    }
}

impl<T: Write> Write for Watched<T> {
    fn write(&mut self, octets: &[u8]) -> io::Result<usize> {
        let answer = self.inner.write(octets);
        match answer {
            Ok(count) => self.see_all(&octets[..count]),
            Err(error) => self.refusal = Some(error),
        }
        answer
    }

    fn flush(&mut self) -> io::Result<()> {
        let answer = self.inner.flush();
        if let Err(error) = answer {
            self.refusal = Some(error);
        }
        answer
    }
}
