//! A spool over a folder.
ghost use Rattle.std.specs.Prelude.{⊤, IsTrue};
ghost use Rattle.std.specs.Fs.{IsFile, file_type};

use crate::file_name::FileName;
use crate::large_file::LargeFile;
use crate::left_files::LeftFiles;
use crate::next_name::NextName;
use crate::spool::{Coming, MOST_OCTETS, Spool};
use std::alloc::{AllocError, Global};
use std::fs;
use std::fs::{Metadata, OpenFile};
use std::io::{ErrorKind, Read};
use std::os::unix::fs::MetadataExt;
use std::rt::Files;
use std::time::{Clock, Duration, SystemTime};

/// The messages of a folder. Who puts a file there writes it under another name, and then renames
/// it.
///
/// A file is read only if it is a regular one, and its name in the folder is its only name. So
/// no link is followed, and nothing that lies elsewhere is read, even if it takes a file's place
/// meanwhile: what was opened is compared with what stands at the name then.
///
/// A file is renamed by `.bad` after its name, and if that file is there by `.bad.2` and so on,
/// so that none takes another's place. After `.bad.100` it isn't renamed.
///
/// A file of more than 262,144 octets is read in pieces, and is coming meanwhile, for 1,000 pauses
/// at most. No other file is named until it was tried: the turns don't wait meanwhile, and a file
/// that can only be left is tried once a second. Before its text is given, what was opened is
/// compared once more with what stands at the name. If it was changed, it is read at once.
///
/// A file that was tried and left, since its maildrop doesn't exist for example, is named again in
/// its turn among such files: at most one of them in a second, or in more if it is large, and only
/// if there is no other file, or 1,000 others were named since. So it keeps no other mail waiting,
/// and doesn't give up a long QUIT that the store prepares in each turn.
#[derive(Drop)]
pub struct FolderSpool<'a, R: Files> {
    rt: &'a R,
    alloc: Global,
    folder: &'a str,
    /// When the folder was changed last, if the last pass over it found nothing to try and any
    /// later change shows.
    bare: Option<SystemTime>,
    /// The large file that is coming, or was prepared.
    large: Option<LargeFile<R::File>>,
    /// `read_on` was called before: there are pauses between turns.
    has_pauses: bool,
    /// The file that is read at once when it is tried next, though it may be large: it couldn't be
    /// prepared.
    at_once: Option<FileName>,
    /// The files that were tried and left.
    left: LeftFiles,
}

/// A file system tells the moment of a folder's last change to two seconds or better, so a change
/// may not show within so many seconds of the one before it.
const COARSEST: u64 = 2;

/// How many files of one name may stand aside.
const MOST_ASIDE: u64 = 100;

/// Whether the opened file is a regular one, is what stands at the name, and has no other name.
fn is_own(opened: &Metadata, named: &Metadata) -> bool
    ensures regular { IsTrue result → IsFile (file_type opened.now) × IsFile (file_type named.now) }
{
    // `named` was looked at last, so its count of names is the newer one.
    opened.is_file()
        && named.is_file()
        && opened.dev() == named.dev()
        && opened.ino() == named.ino()
        && named.nlink() == 1
}

impl<'a, R: Files + Clock + AllocGlobal + Clone + Drop> FolderSpool<'a, R> {
    /// The folder at a path. It need not be there yet. No clause speaks of it: of a folder nothing
    /// is known.
    pub fn new(rt: &'a R, alloc: Global, folder: &'a str) -> FolderSpool<'a, R> {
        FolderSpool {
            rt,
            alloc,
            folder,
            bare: None,
            large: None,
            has_pauses: false,
            at_once: None,
            left: LeftFiles::new(alloc),
        }
    }

    /// When the folder was changed last; `None` if it can't be looked at.
    fn changed(&self) -> Option<SystemTime> {
        fs::metadata(self.rt, self.folder).ok()?.modified().ok()
    }

    /// Whether the last change is so old that any later one will show another moment.
    fn shows_changes(&self, changed: SystemTime) -> bool {
        match changed.elapsed(self.rt) {
            Ok(age) => age > Duration::from_secs(COARSEST),
            Err(_) => false,
        }
    }

    /// The path of a file.
    fn path(&self, name: &FileName, ending: &str) -> Result<String, AllocError> {
        let text = name.text(self.alloc)?;
        format!(in self.alloc; "{}/{}{}", self.folder, text, ending)
    }

    /// The next of the folder's files after one, of those that weren't left before; and the next
    /// of those that were, after that which was left last. `None` if the folder can't be listed,
    /// or memory is short.
    fn list(&self, last: &Option<FileName>) -> Option<(Option<FileName>, Option<FileName>)> {
        let mut new = NextName::new(self.alloc, last).ok()?;
        let mut left = NextName::new(self.alloc, &self.left.last()).ok()?;
        let Ok(entries) = fs::read_dir(self.rt, self.folder) else {
            return None;
        };
        for entry in entries {
            if let Ok(entry) = entry {
                let name = entry.file_name();
                if self.left.has(name) {
                    left.see(name).ok()?;
                } else {
                    new.see(name).ok()?;
                }
            }
        }
        Some((new.get(), left.get()))
    }

    /// Opens a file of the folder's own; `None` if it is none.
    fn open_own(&self, path: &str) -> Option<R::File> {
        // To open a pipe would block.
        if !fs::symlink_metadata(self.rt, path).ok()?.is_file() {
            return None;
        }
        let file = fs::open(self.rt, path).ok()?;
        let opened = file.metadata().ok()?;
        let named = fs::symlink_metadata(self.rt, path).ok()?;
        if is_own(&opened, &named) {
            Some(file)
        } else {
            None
        }
    }

    /// Whether nothing stands at a path, not even a link that leads nowhere.
    fn is_free(&self, path: &str) -> bool {
        match fs::symlink_metadata(self.rt, path) {
            Ok(_) => false,
            Err(error) => error.kind() == ErrorKind::NotFound,
        }
    }

    /// The path at which the file of this number stands aside, among those of one name: `.bad` is
    /// after the name of the first, `.bad.2` after that of the second.
    fn path_aside(&self, name: &FileName, number: u64) -> Result<String, AllocError> {
        let first = self.path(name, ".bad")?;
        if number == 1 {
            return Ok(first);
        }
        format!(in self.alloc; "{first}.{number}")
    }

    /// The first path aside at which nothing stands. `None` if so many files of the name stand
    /// aside as may, or memory is short.
    fn free_path(&self, name: &FileName) -> Option<String> {
        for number in 1..=MOST_ASIDE {
            let path = self.path_aside(name, number).ok()?;
            if self.is_free(path.as_str()) {
                return Some(path);
            }
        }
        None
    }

    /// Whether this is the large file.
    fn is_large(&self, name: &FileName) -> bool {
        match &self.large {
            Some(large) => large.name() == *name,
            None => false,
        }
    }

    /// Takes the text of the large file that was prepared; `None` if it was changed meanwhile, or
    /// another one stands at its path.
    fn take_large(&mut self, path: &str) -> Option<Vec<u8>> {
        let large = self.large.take()?;
        let opened = large.unchanged()?;
        let named = fs::symlink_metadata(self.rt, path).ok()?;
        if !is_own(&opened, &named) {
            return None;
        }
        Some(large.into_text())
    }

    /// Whether a file may be read in pieces: not if nobody has it read on.
    fn may_begin(&mut self, name: &FileName) -> bool {
        if self.at_once == Some(*name) {
            self.at_once = None;
            return false;
        }
        self.has_pauses && self.large.is_none()
    }

    /// The text of a file; `None` if it can't be read, or is coming from now on.
    fn read_text(&mut self, name: &FileName) -> Option<Vec<u8>> {
        let path = self.path(name, "").ok()?;
        if self.is_large(name) {
            if self.coming().is_some() {
                return None;
            }
            if let Some(text) = self.take_large(path.as_str()) {
                return Some(text);
            }
            return self.read_file(self.open_own(path.as_str())?);
        }
        let file = self.open_own(path.as_str())?;
        if !self.may_begin(name) {
            return self.read_file(file);
        }
        match LargeFile::begin(self.alloc, name, file) {
            Ok(large) => {
                self.large = Some(large);
                self.left.forget();
                None
            }
            Err(file) => self.read_file(file),
        }
    }

    /// Reads an open file; `None` if it can't be read, or memory is short.
    fn read_file(&self, file: R::File) -> Option<Vec<u8>> {
        let mut text = Vec::new(self.alloc);
        file.take(MOST_OCTETS as u64).read_to_end(&mut text).ok()?;
        Some(text)
    }
}

impl<R: Files + Clock + AllocGlobal + Clone + Drop> Spool for FolderSpool<'_, R> {
    ghost tells = { λ _ _. ⊥ };

    ghost asked = { λ _ _. ⊥ };

    ghost parted = { λ _ _. ⊥ };

    ghost is_coming = { λ _ _. ⊤ };

    ghost tells_once = { λ spool a b h k. absurd h };

    fn next_name(&mut self, last: &Option<FileName>) -> Option<FileName> {
        if let Some(large) = &self.large {
            return Some(large.name());
        }
        self.left.note(self.rt);
        let changed = self.changed()?;
        if self.bare == Some(changed) {
            return None;
        }
        let shows = self.shows_changes(changed);
        let (new, left) = self.list(last)?;
        if shows && new.is_none() && left.is_none() {
            self.bare = Some(changed);
        }
        self.left.choose(self.rt, new, left)
    }

    fn read(&mut self, name: &FileName) -> Option<Vec<u8>> {
        self.left.begin(name);
        let text = self.read_text(name)?;
        self.left.note_octets(text.len());
        Some(text)
    }

    fn remove(&mut self, name: &FileName) -> bool {
        self.left.forget();
        match self.path(name, "") {
            Ok(path) => fs::remove_file(self.rt, path.as_str()).is_ok(),
            Err(_) => false,
        }
    }

    fn rename(&mut self, name: &FileName) -> bool {
        let Ok(from) = self.path(name, "") else {
            return false;
        };
        let Some(to) = self.free_path(name) else {
            return false;
        };
        let is_renamed = fs::rename(self.rt, from.as_str(), to.as_str()).is_ok();
        if is_renamed {
            self.left.forget();
        }
        is_renamed
    }

    fn coming(&self) -> Option<&Coming> {
        match &self.large {
            Some(large) => large.coming(),
            None => None,
        }
    }

    fn read_on(&mut self) {
        self.has_pauses = true;
        let Some(large) = &mut self.large else {
            return;
        };
        if large.read_on() {
            return;
        }
        self.at_once = Some(large.name());
        self.large = None;
    }

    fn note_prepared(&mut self) {
        if let Some(large) = &mut self.large {
            large.note_prepared();
        }
    }
}
