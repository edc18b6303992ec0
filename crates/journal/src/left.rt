//! What a server leaves in the folder of its spool, and why.
use super::journal::{Journal, Told, quoted};
use creds::Name;
use serving::FileName;
use std::alloc::{AllocError, Global};
use std::fmt::{Display, Formatter};
use std::fs::Metadata;
use std::io::{Error, Write};
use std::os::unix::fs::MetadataExt;
use std::time::{Duration, Instant};
use std::{fmt, fs, io};

/// How many seconds lie between two looks at the folder.
const BETWEEN_LOOKS: u64 = 10;

/// For so many seconds a file of another ending is taken for one that the mail system writes.
const WRITING: u64 = 60;

/// How many files a look logs at most.
const MOST_LEFT: usize = 100;

/// Why a server leaves a file.
#[derive(Clone, Copy)]
enum Reason {
    /// Its name isn't of the form.
    Form,
    /// The maildrop of its name isn't one.
    Maildrop,
    /// The class of its name isn't one.
    Class,
    /// The id of its name isn't one.
    Id,
    /// It is a link, a folder, a pipe or the like.
    Kind,
    /// It has a second name.
    SecondName,
    /// The system doesn't let it be read.
    Refused(Error),
    /// It was another one when it was tried, or memory was wanting.
    Unknown,
}

impl Display for Reason {
    fn fmt<W: fmt::Write>(&self, f: &mut Formatter<W>) -> fmt::Result {
        match self {
            Reason::Form => f.write_str("its name isn't MAILDROP.CLASS.ID.eml"),
            Reason::Maildrop => f.write_str("its MAILDROP isn't 1 to 32 of a-z, 0-9 and -"),
            Reason::Class => f.write_str("its CLASS isn't 1 to 32 of a-z, 0-9 and -"),
            Reason::Id => f.write_str("its ID isn't 1 to 64 of a-z, A-Z, 0-9, - and _"),
            Reason::Kind => f.write_str("it isn't a regular file"),
            Reason::SecondName => f.write_str("it has a second name"),
            Reason::Refused(error) => write!(f, "{error}"),
            Reason::Unknown => f.write_str("it couldn't be read when it was tried"),
        }
    }
}

/// A part of a name, between its dots, counted from 0; nothing if there is none.
fn part(name: &[u8], number: usize) -> &[u8] {
    let mut parts = name.split(|octet| *octet == b'.');
    parts.nth(number).unwrap_or(&[])
}

/// Why a server leaves a file of this name, which isn't of the form.
fn reason_by_name(name: &[u8]) -> Reason {
    let dots = name.iter().filter(|octet| **octet == b'.').count();
    if dots != 3 || part(name, 3) != b"eml".as_slice() {
        Reason::Form
    } else if Name::read(part(name, 0)).is_none() {
        Reason::Maildrop
    } else if Name::read(part(name, 1)).is_none() {
        Reason::Class
    } else {
        Reason::Id
    }
}

/// Whether a name is that of a file that a server set aside: `.bad` is after one of the form, and
/// after that of a second file of the name, `.2`.
fn is_set_aside(name: &str) -> bool {
    let Some((front, behind)) = name.rsplit_once(".bad") else {
        return false;
    };
    let is_counted = match behind.strip_prefix('.') {
        Some(number) => number.parse::<u8>().is_ok(),
        None => behind.is_empty(),
    };
    is_counted && FileName::read(front.as_bytes()).is_some()
}

/// The folder of a spool, as the log looks at it.
#[derive(Clone, Copy)]
pub struct Folder<'a> {
    rt: &'a HostRuntime,
    path: &'a str,
}

impl<'a> Folder<'a> {
    /// The folder at a path. It need not be there yet.
    pub fn new(rt: &'a HostRuntime, path: &'a str) -> Folder<'a> {
        Folder { rt, path }
    }

    /// What is known of a file, no link being followed.
    fn metadata(&self, name: &str) -> io::Result<Metadata> {
        let path = format!(in self.rt.alloc(); "{}/{name}", self.path)?;
        fs::symlink_metadata(self.rt, path.as_str())
    }

    /// Whether a file can be opened.
    fn open(&self, name: &str) -> io::Result<()> {
        let path = format!(in self.rt.alloc(); "{}/{name}", self.path)?;
        fs::open(self.rt, path.as_str())?;
        Ok(())
    }

    /// Why a server leaves a file whose name is of the form; `None` if it takes it.
    fn reason_by_file(&self, name: &str) -> Option<Reason> {
        let metadata = match self.metadata(name) {
            Ok(metadata) => metadata,
            Err(error) => return Some(Reason::Refused(error)),
        };
        if !metadata.is_file() {
            return Some(Reason::Kind);
        }
        if metadata.nlink() != 1 {
            return Some(Reason::SecondName);
        }
        match self.open(name) {
            Ok(()) => None,
            Err(error) => Some(Reason::Refused(error)),
        }
    }

    /// Why a server leaves a file; `None` if it takes it.
    fn reason(&self, name: &str) -> Option<Reason> {
        if FileName::read(name.as_bytes()).is_some() {
            return self.reason_by_file(name);
        }
        Some(reason_by_name(name.as_bytes()))
    }

    /// Whether a file is so new that the mail system may be writing it.
    fn is_new(&self, name: &str) -> bool {
        let Ok(metadata) = self.metadata(name) else {
            return true;
        };
        let Ok(modified) = metadata.modified() else {
            return false;
        };
        match modified.elapsed(self.rt) {
            Ok(age) => age < Duration::from_secs(WRITING),
            Err(_) => false,
        }
    }

    /// Whether a file of the folder is one that the log has: it is left, and neither set aside
    /// nor being written.
    fn is_left(&self, name: &str) -> bool {
        if name.starts_with('.') || is_set_aside(name) {
            return false;
        }
        if !name.ends_with(".eml") && self.is_new(name) {
            return false;
        }
        self.reason(name).is_some()
    }

    /// Keeps the name of a file that is left.
    fn keep(&self, names: &mut Vec<String>, name: &str) -> Result<(), AllocError> {
        if names.len() < MOST_LEFT && self.is_left(name) {
            names.push(String::from_str(self.rt.alloc(), name)?)?;
        }
        Ok(())
    }

    /// The names of the files that are left, a hundred at most.
    fn left(&self) -> io::Result<Vec<String>> {
        let mut names = Vec::new(self.rt.alloc());
        for entry in fs::read_dir(self.rt, self.path)? {
            if let Ok(entry) = entry {
                self.keep(&mut names, entry.file_name())?;
            }
        }
        Ok(names)
    }

    /// Logs which files are left, and why; or that the folder isn't there.
    pub fn tell_left<E: Write>(&self, err: &mut E) {
        match self.left() {
            Ok(names) => {
                for name in &names {
                    let reason = self.reason(name.as_str()).unwrap_or(Reason::Unknown);
                    let _ = writeln!(err, "note: {}/{name} is left: {reason}", self.path);
                }
            }
            Err(error) => {
                let _ = writeln!(err, "note: {}: {error}", self.path);
            }
        }
    }

    /// The line of a file that is left.
    fn left_text(&self, alloc: Global, name: &str) -> Result<String, AllocError> {
        let reason = self.reason(name).unwrap_or(Reason::Unknown);
        let reason = format!(in alloc; "{reason}")?;
        let reason = quoted(alloc, reason.as_bytes())?;
        let name = quoted(alloc, name.as_bytes())?;
        format!(in alloc; "event=spool file={name} done=left reason={reason}")
    }

    /// The line of a folder that can't be listed.
    fn unlisted_text(&self, alloc: Global, error: &Error) -> Result<String, AllocError> {
        let reason = format!(in alloc; "{error}")?;
        let reason = quoted(alloc, reason.as_bytes())?;
        let path = quoted(alloc, self.path.as_bytes())?;
        format!(in alloc; "event=spool folder={path} done=not-listed reason={reason}")
    }

    /// Notes a file that a server left, once.
    pub fn note_left(&self, journal: &Journal<'_>, told: &mut Told, name: &str) {
        told.note_once(journal, self.left_text(journal.alloc(), name));
    }

    /// Notes each file that is left, once, or that the folder can't be listed.
    fn note_all(&self, journal: &Journal<'_>, told: &mut Told) {
        match self.left() {
            Ok(names) => {
                for name in &names {
                    self.note_left(journal, told, name.as_str());
                }
            }
            Err(error) => {
                told.note_once(journal, self.unlisted_text(journal.alloc(), &error));
            }
        }
    }
}

/// Looks at the folder of a spool each ten seconds, and notes what is left there.
#[derive(Drop)]
pub struct Looking<'a> {
    folder: Folder<'a>,
    told: Told,
    /// When it looked last; `None` if it never did.
    looked: Option<Instant>,
}

impl<'a> Looking<'a> {
    /// It hasn't looked yet.
    pub fn new(alloc: Global, folder: Folder<'a>) -> Looking<'a> {
        Looking {
            folder,
            told: Told::new(alloc),
            looked: None,
        }
    }

    /// Looks, if lines are written and ten seconds are over.
    pub fn look(&mut self, journal: &Journal<'_>) {
        if !journal.is_on() {
            return;
        }
        let Ok(now) = Instant::now(self.folder.rt) else {
            return;
        };
        if let Some(looked) = self.looked
            && now.duration_since(looked) < Duration::from_secs(BETWEEN_LOOKS)
        {
            return;
        }
        self.looked = Some(now);
        self.folder.note_all(journal, &mut self.told);
    }

    /// Notes a file that the server tried and left, once.
    pub fn note_left(&mut self, journal: &Journal<'_>, name: &FileName) {
        if !journal.is_on() {
            return;
        }
        if let Ok(text) = name.text(journal.alloc()) {
            self.folder
                .note_left(journal, &mut self.told, text.as_str());
        }
    }
}
