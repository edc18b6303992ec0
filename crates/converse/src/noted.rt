//! Any reader as a source, any writer as a sink.

ghost use Rattle.std.specs.Prelude.{◌≡◌, [], true};

use crate::streams::{Sink, Source};
use notes::Notes;
use std::io;
use std::io::{Read, Write};

/// A reader as a source, or a writer as a sink: what the one inside answered is what it gave or
/// took, and the calls that failed are counted. So contracts see the octets of real files and pipes
/// too, as the system's calls answered them.
#[derive(Drop)]
pub struct Noted<T> {
    /// The reader or writer.
    pub inner: T,
    /// The octets that it gave or took.
    pub octets: Notes<u8>,
    /// Whether a writer was flushed since it took octets.
    pub is_flushed: bool,
    /// How many of its calls failed. The count stops at 2^64 - 1.
    pub faults: u64,
}

impl<T> Noted<T> {
    /// Around a reader or writer of which nothing is noted yet.
    pub fn new(inner: T) -> Noted<T>
        ensures inner { result.inner ≡ inner }
        ensures octets { result.octets.items ≡ [] }
        ensures flushed { result.is_flushed ≡ true }
        ensures faults { result.faults ≡ 0 }
    {
        Noted {
            inner,
            octets: Notes::new(),
            is_flushed: true,
            faults: 0,
        }
    }
}

impl<R: Read> Source for Noted<R> {
    ghost seen = { λ n. record {
      given = n.octets.items;
      left = R.remaining n.inner;
      faults =
          n.faults;
    } };

    fn read(&mut self, room: &mut [u8]) -> io::Result<usize> {
        match self.inner.read(room) {
            Ok(count) => {
                self.octets.note_all(&room[..count]);
                Ok(count)
            }
            Err(error) => {
                self.faults = self.faults.saturating_add(1);
                Err(error)
            }
        }
    }
}

impl<W: Write> Sink for Noted<W> {
    ghost seen = { λ n. record {
      taken = n.octets.items;
      flushed = n.is_flushed;
      holds = W.contents n.inner;
      faults =
          n.faults;
    } };

    fn write(&mut self, octets: &[u8]) -> io::Result<usize> {
        match self.inner.write(octets) {
            Ok(taken) => {
                self.is_flushed = false;
                if taken == 0 {
                    self.faults = self.faults.saturating_add(1);
                }
                self.octets.note_all(&octets[..taken]);
                Ok(taken)
            }
            Err(error) => {
                self.faults = self.faults.saturating_add(1);
                Err(error)
            }
        }
    }

    fn flush(&mut self) -> io::Result<()> {
        match self.inner.flush() {
            Ok(()) => {
                self.is_flushed = true;
                Ok(())
            }
            Err(error) => {
                self.faults = self.faults.saturating_add(1);
                Err(error)
            }
        }
    }
}
