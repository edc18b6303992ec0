//! Whether the store's files are still those that a server has open.
ghost use Rattle.std.specs.Prelude.{◌≡◌, ◌++◌, ◌∷◌, [], Bool, List, ⊤};

use super::beside::path_beside;
use notes::Notes;
use std::cell::Cell;
use std::fmt::{Display, Formatter, Write};
use std::fs::Metadata;
use std::io::ErrorKind;
use std::os::unix::fs::MetadataExt;
use std::time::Instant;
use std::{fmt, fs};

/// A file of this machine, by the number of its device and its own number there.
#[derive(Clone, Copy, PartialEq, Eq)]
pub struct FileId {
    device: u64,
    inode: u64,
}

impl FileId {
    /// The file at a path, or to which a link there leads; `None` if it can't be looked at.
    pub fn at(rt: &HostRuntime, path: &str) -> Option<FileId> {
        Some(FileId::of(&fs::metadata(rt, path).ok()?))
    }

    /// The file that was looked at.
    fn of(metadata: &Metadata) -> FileId {
        FileId {
            device: metadata.dev(),
            inode: metadata.ino(),
        }
    }
}

/// What became of the path of a file that a server has open.
#[derive(Clone, Copy, PartialEq, Eq)]
pub enum Loss {
    /// Nothing stands at the path of the store's file.
    FileRemoved,
    /// Another file stands at the path of the store's file.
    FileReplaced,
    /// Nothing stands at the path of the store's log.
    LogRemoved,
    /// Another file stands at the path of the store's log.
    LogReplaced,
}

impl Display for Loss {
    fn fmt<W: Write>(&self, f: &mut Formatter<W>) -> fmt::Result {
        f.write_str(match self {
            Loss::FileRemoved => "its file was moved or removed while the server had it open",
            Loss::FileReplaced => "its file was replaced while the server had it open",
            Loss::LogRemoved => "its log was moved or removed while the server had it open",
            Loss::LogReplaced => "its log was replaced while the server had it open",
        })
    }
}

/// What stands at the path of a file that is open.
enum Found {
    Same,
    Other,
    Nothing,
}

/// Looks at a path. A path that can't be looked at, as for want of memory, counts as the same file.
fn look_at(rt: &HostRuntime, path: &str, open: Option<FileId>) -> Found {
    let Some(open) = open else {
        return Found::Same;
    };
    match fs::metadata(rt, path) {
        Ok(metadata) if FileId::of(&metadata) == open => Found::Same,
        Ok(_) => Found::Other,
        Err(error) if is_absence(error.kind()) => Found::Nothing,
        Err(_) => Found::Same,
    }
}

/// Whether an error says that nothing stands at a path.
fn is_absence(kind: ErrorKind) -> bool {
    matches!(kind, ErrorKind::NotFound | ErrorKind::NotADirectory)
}

/// How many milliseconds lie between two looks at least.
const BETWEEN_LOOKS: u128 = 100;

/// Looks now and then whether the paths of a store's file and log are still the files that a server
/// has open. What it has seen once it says from then on.
#[derive(Drop)]
pub struct StoreWatch<'a> {
    rt: &'a HostRuntime,
    path: &'a str,
    file: Option<FileId>,
    log_path: Option<String>,
    log: Option<FileId>,
    /// When it looked last; `None` if it never did.
    looked: Cell<Option<Instant>>,
    loss: Cell<Option<Loss>>,
}

impl<'a> StoreWatch<'a> {
    /// Watches the store at a path, which is open. `before` is what stood there before it was
    /// opened; without it what stands there now is taken for the file that is open. A path at which
    /// nothing stands isn't watched.
    pub fn new(rt: &'a HostRuntime, path: &'a str, before: Option<FileId>) -> StoreWatch<'a> {
        let log_path = path_beside(rt, path, "-wal").ok();
        let log = match &log_path {
            Some(log_path) => FileId::at(rt, log_path.as_str()),
            None => None,
        };
        StoreWatch {
            rt,
            path,
            file: before.or(FileId::at(rt, path)),
            log_path,
            log,
            looked: Cell::new(None),
            loss: Cell::new(None),
        }
    }

    /// The path of the store.
    pub fn path(&self) -> &'a str {
        self.path
    }

    /// What became of the store's files, as far as it was seen; `None` while they are the same.
    pub fn loss(&self) -> Option<Loss> {
        self.loss.get()
    }

    /// Whether the store's files aren't those that are open, as far as it was seen.
    pub fn is_lost(&self) -> bool {
        self.loss.get().is_some()
    }

    /// Looks, unless it did so less than a tenth of a second ago.
    pub fn look(&self) {
        let Ok(now) = Instant::now(self.rt) else {
            return;
        };
        if !self.looked_before(now) {
            self.looked.set(Some(now));
            self.look_now();
        }
    }

    /// Looks.
    pub fn look_now(&self) {
        if !self.is_lost() {
            self.loss.set(self.find());
        }
    }

    /// Whether it looked less than a tenth of a second before a moment.
    fn looked_before(&self, now: Instant) -> bool {
        match self.looked.get() {
            Some(looked) => now.duration_since(looked).as_millis() < BETWEEN_LOOKS,
            None => false,
        }
    }

    /// What became of the store's files.
    fn find(&self) -> Option<Loss> {
        match look_at(self.rt, self.path, self.file) {
            Found::Nothing => return Some(Loss::FileRemoved),
            Found::Other => return Some(Loss::FileReplaced),
            Found::Same => {}
        }
        let log_path = self.log_path.as_ref()?;
        match look_at(self.rt, log_path.as_str(), self.log) {
            Found::Nothing => Some(Loss::LogRemoved),
            Found::Other => Some(Loss::LogReplaced),
            Found::Same => None,
        }
    }
}

/// Says whether a server's store is lost.
///
/// `answered w said`: `said` is a true record of what w answered. Of a watch over files it is known
/// by a [`NotedWatch`] around it.
pub trait Watch {
    /// `answered w said`: w answered so, the newest last.
    ghost answered: { Self → List Bool → Type 0 };

    /// Looks.
    fn look_now(&mut self)
        ensures { (said : List Bool) → answered self.old said → answered self.new said };

    /// Whether the store is lost, as far as it was seen.
    fn is_lost(&mut self) -> bool
        ensures { (said : List Bool) → answered self.old said
            → answered self.new (said ++ result ∷ []) };
}

impl Watch for &StoreWatch<'_> {
    ghost answered = { λ _ _. ⊤ };

    fn look_now(&mut self) {
        StoreWatch::look_now(self);
    }

    fn is_lost(&mut self) -> bool {
        StoreWatch::is_lost(self)
    }
}

/// A watch that does what the one inside does, and notes what it answers.
///
/// Of any watch inside, `answered` is known of this one: what it handed on. The notes are in the
/// proofs alone and take no memory. What became of the files is no more known than before.
#[derive(Drop)]
pub struct NotedWatch<X: Watch> {
    pub watch: X,
    pub notes: Notes<bool>,
}

impl<X: Watch> NotedWatch<X> {
    /// A watch around this one, that answered nothing yet.
    pub fn new(watch: X) -> NotedWatch<X>
        ensures watch { result.watch ≡ watch }
        ensures fresh { result.notes.items ≡ [] }
    {
        NotedWatch {
            watch,
            notes: Notes::new(),
        }
    }
}

impl<X: Watch> Watch for NotedWatch<X> {
    ghost answered = { λ noted said. said ≡ noted.notes.items };

    fn look_now(&mut self)
        ensures told { (said : List Bool) → said ≡ self.old.notes.items
            → said ≡ self.new.notes.items }
        ensures inside { (said : List Bool) → X.answered self.old.watch said
            → X.answered self.new.watch said }
    {
        self.watch.look_now();
    }

    fn is_lost(&mut self) -> bool
        ensures told { (said : List Bool) → said ≡ self.old.notes.items
            → said ++ result ∷ [] ≡ self.new.notes.items }
        ensures inside { (said : List Bool) → X.answered self.old.watch said
            → X.answered self.new.watch (said ++ result ∷ []) }
    {
        let is_lost = self.watch.is_lost();
        self.notes.note(&is_lost);
        is_lost
    }
}
