//! What takes the files of an export.
ghost use Rattle.std.specs.Prelude.{◌≡◌, ◌∷◌, [], true, false, ℕ, IsOk, OnOk, OnErr};
ghost use Rattle.converse.specs.Exported.{Takes};

use std::io;

/// A folder that takes files. Contracts see which files it took, if it tells them (a real folder
/// doesn't); whether the names of all of them last a power cut; and how many of its calls failed.
/// That count stops at 2^64 - 1.
pub trait Folder {
    ghost use Rattle.std.specs.Prelude.{List, Option, Bool};
    ghost use Rattle.converse.specs.Exported.{File, CountsRefusal};

    /// The files that it took, in their order.
    ghost files: { Self → Option (List File) };

    /// The name of each of them lasts a power cut.
    ghost is_settled: { Self → Bool };

    /// How many of its calls failed.
    ghost faults: { Self → ℕ };

    /// Puts a file of this name and these octets into the folder, whole or not at all. If the
    /// folder has a file of the name that file stays as it is, and the call is an error.
    fn put(&mut self, name: &str, octets: &[u8]) -> io::Result<()>
        ensures put { OnOk result (Takes (files self.old) (files self.new)
            (record { name = name.now; octets = octets.now } ∷ [])) }
        ensures refused { OnErr result (Takes (files self.old) (files self.new) []) }
        ensures unsettled { IsOk result → is_settled self.new ≡ false }
        ensures counted { CountsRefusal (faults self.old) (faults self.new) result };

    /// Waits until the names of the files that it took last a power cut.
    fn settle(&mut self) -> io::Result<()>
        ensures kept { Takes (files self.old) (files self.new) [] }
        ensures settled { IsOk result → is_settled self.new ≡ true }
        ensures counted { CountsRefusal (faults self.old) (faults self.new) result };
}
