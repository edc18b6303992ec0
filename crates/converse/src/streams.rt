//! What a conversation reads and writes: sources and sinks, which count their faults.

use std::io;

/// Gives octets. Contracts see which octets it gave, which it will give, if that is known, and
/// how many of its calls failed; that count stops at 2^64 - 1.
pub trait Source {
    ghost use Rattle.std.specs.Io.{ReadsAtMost};
    ghost use Rattle.converse.specs.Streams.{Reading, HasRead};

    /// What it gave.
    ghost seen: { Self → Reading };

    /// Reads octets into the front of the room, and gives how many: none only at the end, or if
    /// there is no room. An `Err` is counted as a fault, and nothing was read.
    fn read(&mut self, room: &mut [u8]) -> io::Result<usize>
        ensures bound { ReadsAtMost result room.new }
        ensures given { HasRead (seen self.old) (seen self.new) result room.new };
}

/// Takes octets. Contracts see which octets it took, whether all of them are flushed, which it
/// holds, if that is known, and how many of its calls failed; that count stops at 2^64 - 1.
pub trait Sink {
    ghost use Rattle.std.specs.Io.{WritesAtMost};
    ghost use Rattle.converse.specs.Streams.{Writing, HasWritten, HasFlushed, HoldsBack, HandsOn};

    /// What it took.
    ghost seen: { Self → Writing };

    /// Takes octets, from the first on, and gives how many. An `Err` is counted as a fault, and
    /// nothing was taken; to take none of some octets is counted as one too.
    fn write(&mut self, octets: &[u8]) -> io::Result<usize>
        ensures bound { WritesAtMost result octets.now }
        ensures taken { HasWritten (seen self.old) (seen self.new) result octets.now }
        ensures back { HoldsBack (seen self.old) (seen self.new) result };

    /// Hands on what was taken. An `Err` is counted as a fault.
    fn flush(&mut self) -> io::Result<()>
        ensures flushed { HasFlushed (seen self.old) (seen self.new) result }
        ensures on { HandsOn (seen self.old) (seen self.new) result };
}
