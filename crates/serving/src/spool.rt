//! What a server needs of the folder into which the mail system puts messages.
ghost use Rattle.std.specs.Prelude.{◌≡◌, Bool, List, ◌∷◌, [], ◌++◌, MatchOption, option_map};
ghost use Rattle.std.specs.Prelude.{is_some, if◌then◌else◌};
ghost use Rattle.serving.specs.Spools.{FileAct, WasRead, WasRemoved, WasRenamed, FileCall, Next};
ghost use Rattle.serving.specs.Spools.{Read, Removed, Renamed, PartCall, ReadOn, NotePrepared};

use crate::file_name::FileName;
use mailtext::MailText;

/// How many octets of a file are read at most: one more than a message may have in its kept form,
/// so that a longer file is too large by then.
pub const MOST_OCTETS: usize = 26_214_401;

/// A large file that a spool reads in pieces, between turns.
#[derive(Drop)]
pub struct Coming {
    pub name: FileName,
    /// Its text in the form in which a store keeps it, once all of it was read.
    pub text: Option<MailText>,
}

/// A folder of messages, each a file under a name of the form `maildrop.class.id.eml`. Files of
/// other names are left alone.
///
/// `tells s acts`: `acts` is a true record of what happened to s's files. `asked s calls`: `calls`
/// is a true record of what s was asked and answered. `parted s calls`: so is `calls` of what s was
/// asked about a large file, in pauses between turns. Of a spool over a folder none is known.
pub trait Spool {
    /// `tells s acts`: `acts` is what happened to s's files, the newest act last.
    ghost tells: { Self → List FileAct → Type 0 };

    /// `asked s calls`: s was asked these calls and answered them so, the newest last.
    ghost asked: { Self → List FileCall → Type 0 };

    /// `parted s calls`: s was asked these calls about a large file, the newest last.
    ghost parted: { Self → List PartCall → Type 0 };

    /// `is_coming s answer`: s may answer so whether a file is coming. A spool over a folder may
    /// answer either.
    ghost is_coming: { Self → Bool → Type 0 };

    /// The least name after this one, in the order of octets; the least one if none is after
    /// it, or no name is given. `None` if there is no file, the folder can't be listed, or all its
    /// files were left, one of them just now. A spool may name files that were left after others.
    fn next_name(&mut self, last: &Option<FileName>) -> Option<FileName>
        ensures told { (a : List FileAct) → tells self.old a → tells self.new a }
        ensures called { (a : List FileCall) → asked self.old a
            → asked self.new (a ++ Next last.now result ∷ []) };

    /// The first [`MOST_OCTETS`] octets of a file; `None` if it can't be read, isn't a file of the
    /// folder's own, or is coming.
    fn read(&mut self, name: &FileName) -> Option<Vec<u8>>
        ensures told { (a : List FileAct) → tells self.old a
            → MatchOption result (tells self.new a)
            (λ text. tells self.new (a ++ WasRead name.now text.items ∷ [])) }
        ensures called { (a : List FileCall) → asked self.old a
            → asked self.new (a ++ Read name.now (option_map (λ text. text.items) result) ∷ []) };

    /// Removes a file. Returns whether it was removed.
    fn remove(&mut self, name: &FileName) -> bool
        ensures told { (a : List FileAct) → tells self.old a
            → tells self.new (if result then a ++ WasRemoved name.now ∷ [] else a) }
        ensures called { (a : List FileCall) → asked self.old a
            → asked self.new (a ++ Removed name.now result ∷ []) };

    /// Renames a file, by `.bad` after its name, or by `.bad.2` and so on if such a file is
    /// there. Returns whether it was renamed.
    fn rename(&mut self, name: &FileName) -> bool
        ensures told { (a : List FileAct) → tells self.old a
            → tells self.new (if result then a ++ WasRenamed name.now ∷ [] else a) }
        ensures called { (a : List FileCall) → asked self.old a
            → asked self.new (a ++ Renamed name.now result ∷ []) };

    /// The large file that is coming: it is read in pieces, and then its deposit is prepared. There
    /// is one at most; a spool that reads each file at once has none.
    fn coming(&self) -> Option<&Coming>
        ensures answer { is_coming self.now (is_some result) };

    /// Reads one more piece of the file that is coming, if not all of it was read.
    fn read_on(&mut self)
        ensures told { (a : List FileAct) → tells self.old a → tells self.new a }
        ensures called { (a : List FileCall) → asked self.old a → asked self.new a }
        ensures parted { (a : List PartCall) → parted self.old a
            → parted self.new (a ++ ReadOn ∷ []) };

    /// Notes that no more of the deposit of the file that is coming can be prepared: it isn't
    /// coming any more, and is read when it is tried next.
    fn note_prepared(&mut self)
        ensures told { (a : List FileAct) → tells self.old a → tells self.new a }
        ensures called { (a : List FileCall) → asked self.old a → asked self.new a }
        ensures parted { (a : List PartCall) → parted self.old a
            → parted self.new (a ++ NotePrepared ∷ []) };

    /// Any two records of one spool are the same.
    ghost tells_once: { (spool : Self) (a b : List FileAct) → tells spool a → tells spool b
        → a ≡ b };
}
