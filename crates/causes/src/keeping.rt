//! A reader that keeps what it gave, and its last error.

use std::alloc::Global;
use std::io;
use std::io::{Error, ErrorKind, Read};

/// A reader that keeps the octets that it gave, and its last error.
#[derive(Drop)]
pub struct Keeping<R> {
    inner: R,
    text: Vec<u8>,
    refusal: Option<Error>,
}

impl<R> Keeping<R> {
    /// Around a reader, of which nothing is kept yet.
    pub fn new(alloc: Global, inner: R) -> Keeping<R> {
        Keeping {
            inner,
            text: Vec::new(alloc),
            refusal: None,
        }
    }

    /// What it gave.
    pub fn text(&self) -> &[u8] {
        self.text.as_slice()
    }

    /// Its last error: the reader's, or that no memory was left to keep what it gave.
    pub fn refusal(&self) -> Option<Error> {
        self.refusal
    }

    /// Keeps its error, if that isn't a signal that broke in.
    fn keep_refusal(&mut self, error: Error) {
        if error.kind() != ErrorKind::Interrupted {
            self.refusal = Some(error);
        }
    }
}

impl<R: Read> Read for Keeping<R> {
    fn read(&mut self, room: &mut [u8]) -> io::Result<usize> {
        let error = match self.inner.read(room) {
            Ok(count) => match self.text.extend_from_slice(&room[..count]) {
                Ok(()) => return Ok(count),
                Err(_) => Error::from(ErrorKind::OutOfMemory),
            },
            Err(error) => error,
        };
        self.keep_refusal(error);
        Err(error)
    }
}
