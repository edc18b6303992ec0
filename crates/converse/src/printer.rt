//! What a script's outcomes are printed to: a writer of which is known whether it is flushed.

ghost use Rattle.std.specs.Prelude.{◌≡◌, true};

use std::alloc::Allocator;
use std::io;
use std::io::Write;

/// A writer that hands on what it took. Contracts see whether it did so since it took octets.
pub trait Printer: Write {
    ghost use Rattle.std.specs.Prelude.{◌≡◌, Bool, true, OnOk};
    ghost use Rattle.std.specs.Io.KnownBytes.{Keeps};

    /// Whether all that it took is flushed.
    ghost flushed: { Self → Bool };

    /// Flushes what it took. After an `Err` some of it may be held back.
    fn hand_on(&mut self) -> io::Result<()>
        ensures bytes { Keeps (Self.contents self.old) (Self.contents self.new) }
        ensures on { OnOk result (flushed self.new ≡ true) };
}

impl<A: Allocator> Printer for Vec<u8, A> {
    ghost use Rattle.std.specs.Prelude.{true};

    ghost flushed = { λ _. true };

    fn hand_on(&mut self) -> io::Result<()> {
        Ok(())
    }
}

/// A writer that notes whether it was flushed since it took octets.
#[derive(Drop)]
pub struct Flushed<W> {
    /// The writer.
    pub inner: W,
    /// Whether all that it took is flushed.
    pub is_flushed: bool,
}

impl<W> Flushed<W> {
    /// Around a writer that took nothing yet.
    pub fn new(inner: W) -> Flushed<W>
        ensures inner { result.inner ≡ inner }
        ensures flushed { result.is_flushed ≡ true }
    {
        Flushed {
            inner,
            is_flushed: true,
        }
    }
}

impl<W: Write> Write for Flushed<W> {
    ghost contents = { λ printer. W.contents printer.inner };

    fn write(&mut self, octets: &[u8]) -> io::Result<usize> {
        self.is_flushed = false;
        self.inner.write(octets)
    }

    fn flush(&mut self) -> io::Result<()> {
        self.inner.flush()
    }
}

impl<W: Write> Printer for Flushed<W> {
    ghost flushed = { λ printer. printer.is_flushed };

    fn hand_on(&mut self) -> io::Result<()> {
        match self.inner.flush() {
            Ok(()) => {
                self.is_flushed = true;
                Ok(())
            }
            Err(error) => Err(error),
        }
    }
}
