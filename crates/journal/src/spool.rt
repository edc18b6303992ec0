//! A spool whose files are noted.
ghost use Rattle.std.specs.Prelude.{◌≡◌, []};

use super::journal::{Journal, Told};
use super::left::{Folder, Looking};
use serving::{Coming, FileName, Spool};
use std::alloc::{AllocError, Global};

/// A spool that does what the one inside does, and notes each file that is removed, renamed or
/// can't be, and what is left in its folder.
#[derive(Drop)]
pub struct LoggedSpool<'a, S: Spool> {
    pub spool: S,
    pub journal: Journal<'a>,
    pub told: Told,
    pub looking: Looking<'a>,
}

impl<'a, S: Spool> LoggedSpool<'a, S> {
    /// A spool around this one, which is over a folder.
    pub fn new(spool: S, journal: Journal<'a>, folder: Folder<'a>) -> LoggedSpool<'a, S>
        ensures spool { result.spool ≡ spool }
        ensures journal { result.journal ≡ journal.exit }
        ensures told { result.told.lines.items ≡ [] }
    {
        LoggedSpool {
            spool,
            journal,
            told: Told::new(journal.alloc()),
            looking: Looking::new(journal.alloc(), folder),
        }
    }
}

/// The line of a file, and what was done with it.
fn file_text(alloc: Global, name: &FileName, done: &str) -> Result<String, AllocError> {
    let FileName {
        maildrop,
        class,
        id,
    } = name;
    format!(in alloc; "event=spool file={maildrop}.{class}.{id}.eml done={done}")
}

/// Notes whether something was done with a file. What can't be done is told once, since it is tried
/// again each second.
fn note_file(
    journal: Journal<'_>,
    told: &mut Told,
    name: &FileName,
    is_done: bool,
    done: &str,
    not_done: &str,
) {
    if !journal.is_on() {
        return;
    }
    if is_done {
        journal.note(file_text(journal.alloc(), name, done));
    } else {
        told.note_once(&journal, file_text(journal.alloc(), name, not_done));
    }
}

/// Whether this file is coming.
fn is_coming<S: Spool>(spool: &S, name: &FileName) -> bool {
    match spool.coming() {
        Some(coming) => coming.name == *name,
        None => false,
    }
}

/// Each call as in the spool inside.
impl<S: Spool> Spool for LoggedSpool<'_, S> {
    ghost tells = { λ r. S.tells r.spool };

    ghost asked = { λ r. S.asked r.spool };

    ghost parted = { λ r. S.parted r.spool };

    ghost is_coming = { λ r. S.is_coming r.spool };

    ghost tells_once = { λ r. S.tells_once r.spool };

    fn next_name(&mut self, last: &Option<FileName>) -> Option<FileName> {
        self.looking.look(&self.journal);
        self.spool.next_name(last)
    }

    fn read(&mut self, name: &FileName) -> Option<Vec<u8>> {
        let text = self.spool.read(name);
        if text.is_none() && !is_coming(&self.spool, name) {
            self.looking.note_left(&self.journal, name);
        }
        text
    }

    fn remove(&mut self, name: &FileName) -> bool {
        let is_done = self.spool.remove(name);
        note_file(
            self.journal,
            &mut self.told,
            name,
            is_done,
            "removed",
            "not-removed",
        );
        is_done
    }

    fn rename(&mut self, name: &FileName) -> bool {
        let is_done = self.spool.rename(name);
        note_file(
            self.journal,
            &mut self.told,
            name,
            is_done,
            "renamed",
            "not-renamed",
        );
        is_done
    }

    fn coming(&self) -> Option<&Coming> {
        self.spool.coming()
    }

    fn read_on(&mut self) {
        self.spool.read_on();
    }

    fn note_prepared(&mut self) {
        self.spool.note_prepared();
    }
}
