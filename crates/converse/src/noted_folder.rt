//! Any folder as one that records which files it took.
ghost use Rattle.std.specs.Prelude.{
  ◌≡◌,
  ◌∷◌,
  [],
  true,
  false,
  Some,
  map,
  IsOk,
  OnOk,
  OnErr,
};
ghost use Rattle.converse.specs.Exported.{noted_file, CountsRefusal, Takes};

use crate::folder::Folder;
use notes::Notes;
use std::io;

/// A folder around another one. The files that the one inside answered that it took are its files,
/// so contracts see those of a real folder too, as the system's calls answered them.
#[derive(Drop)]
pub struct NotedFolder<F> {
    /// The folder inside.
    pub inner: F,
    /// The files that it took, the newest last: the name and the octets of each.
    pub taken: Notes<(Notes<u8>, Notes<u8>)>,
}

impl<F> NotedFolder<F> {
    /// Around a folder of which nothing is noted yet.
    pub fn new(inner: F) -> NotedFolder<F>
        ensures inner { result.inner ≡ inner }
        ensures taken { result.taken.items ≡ [] }
    {
        NotedFolder {
            inner,
            taken: Notes::new(),
        }
    }
}

impl<F: Folder> Folder for NotedFolder<F> {
    ghost files = { λ n. Some (map noted_file n.taken.items) };

    ghost is_settled = { λ n. F.is_settled n.inner };

    ghost faults = { λ n. F.faults n.inner };

    fn put(&mut self, name: &str, octets: &[u8]) -> io::Result<()>
        ensures put { OnOk result (Takes (Some (map noted_file self.old.taken.items))
            (Some (map noted_file self.new.taken.items))
            (record { name = name.now; octets = octets.now } ∷ [])) }
        ensures refused { OnErr result (Takes (Some (map noted_file self.old.taken.items))
            (Some (map noted_file self.new.taken.items)) []) }
        ensures unsettled { IsOk result → F.is_settled self.new.inner ≡ false }
        ensures counted { CountsRefusal (F.faults self.old.inner) (F.faults self.new.inner)
            result }
        ensures inside { OnOk result (Takes (F.files self.old.inner) (F.files self.new.inner)
            (record { name = name.now; octets = octets.now } ∷ [])) }
        ensures inside_refused { OnErr result
            (Takes (F.files self.old.inner) (F.files self.new.inner) []) }
    {
        match self.inner.put(name, octets) {
            Ok(()) => {
                let file = (Notes::of(name.as_bytes()), Notes::of(octets));
                self.taken.note(&file);
                Ok(())
            }
            Err(error) => Err(error),
        }
    }

    fn settle(&mut self) -> io::Result<()>
        ensures kept { Takes (Some (map noted_file self.old.taken.items))
            (Some (map noted_file self.new.taken.items)) [] }
        ensures settled { IsOk result → F.is_settled self.new.inner ≡ true }
        ensures counted { CountsRefusal (F.faults self.old.inner) (F.faults self.new.inner)
            result }
        ensures inside { Takes (F.files self.old.inner) (F.files self.new.inner) [] }
    {
        self.inner.settle()
    }
}
