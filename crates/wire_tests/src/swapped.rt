//! A file system in which another file replaces a file just before it is opened.
use std::alloc::{Allocator, Global};
use std::fs::{File, Files, Metadata, OpenOptions};
use std::io;
use std::time::{Clock, Duration};

/// What replaces the file.
#[derive(Clone, Copy)]
pub enum Guise {
    /// A symbolic link to the file.
    Link,
    /// A second name of the file.
    Name,
    /// A symbolic link to the file, and once that is opened a second name of the file.
    LinkThenName,
    /// The file itself, which is renamed.
    Itself,
}

/// This machine's file system, in which `file` replaces each file that is opened.
#[derive(Clone, Copy, Drop)]
pub struct Swapped<'a> {
    pub rt: &'a HostRuntime,
    pub file: &'a str,
    /// The path to `file` that a symbolic link in the folder has.
    pub link: &'a str,
    pub guise: Guise,
}

impl Swapped<'_> {
    fn swap(&self, place: &str) -> io::Result<()> {
        self.rt.remove_file(place)?;
        match self.guise {
            Guise::Link | Guise::LinkThenName => self.rt.symlink(self.link, place),
            Guise::Name => self.rt.hard_link(self.file, place),
            Guise::Itself => self.rt.rename(self.file, place),
        }
    }
}

impl Alloc for Swapped<'_> {
    type A = Global;

    fn alloc(&self) -> Global {
        self.rt.alloc()
    }
}

impl Clock for Swapped<'_> {
    fn monotonic(&self) -> io::Result<Duration> {
        self.rt.monotonic()
    }

    fn since_1970(&self) -> io::Result<Duration> {
        self.rt.since_1970()
    }
}

impl Files for Swapped<'_> {
    type File = File;

    type Dir = <HostRuntime as Files>::Dir;

    fn open_file(&self, how: &OpenOptions, path: &str) -> io::Result<File> {
        self.swap(path)?;
        self.rt.open_file(how, path)
    }

    fn open_dir(&self, path: &str) -> io::Result<<HostRuntime as Files>::Dir> {
        self.rt.open_dir(path)
    }

    fn metadata(&self, path: &str) -> io::Result<Metadata> {
        self.rt.metadata(path)
    }

    fn symlink_metadata(&self, path: &str) -> io::Result<Metadata> {
        let found = self.rt.symlink_metadata(path)?;
        match self.guise {
            Guise::LinkThenName if found.is_symlink() => {
                self.rt.remove_file(path)?;
                self.rt.hard_link(self.file, path)?;
                self.rt.symlink_metadata(path)
            }
            _ => Ok(found),
        }
    }

    fn copy(&self, from: &str, to: &str) -> io::Result<u64> {
        self.rt.copy(from, to)
    }

    fn rename(&self, from: &str, to: &str) -> io::Result<()> {
        self.rt.rename(from, to)
    }

    fn remove_file(&self, path: &str) -> io::Result<()> {
        self.rt.remove_file(path)
    }

    fn create_dir(&self, path: &str) -> io::Result<()> {
        self.rt.create_dir(path)
    }

    fn remove_dir(&self, path: &str) -> io::Result<()> {
        self.rt.remove_dir(path)
    }

    fn remove_dir_all<B: Allocator>(&self, alloc: B, path: &str) -> io::Result<()> {
        self.rt.remove_dir_all(alloc, path)
    }
}
