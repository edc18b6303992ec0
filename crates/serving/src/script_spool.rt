//! A spool in memory, for tests.
ghost use Rattle.std.specs.Prelude.{◌≡◌, ◌<◌, ⊤, false, [], IfSome, length, map};
ghost use Rattle.serving.specs.ScriptSpools.{tells_once, act_seen};

use crate::file_name::FileName;
use crate::next_name::NextName;
use crate::spool::{Coming, MOST_OCTETS, Spool};
use std::alloc::{AllocError, Global};

/// A file in memory.
#[derive(Drop)]
pub struct ScriptFile {
    name: String,
    text: Vec<u8>,
}

/// What happened to a file.
#[derive(Drop)]
pub enum ScriptAct {
    /// It was read, and had this text.
    Read(FileName, Vec<u8>),
    Removed(FileName),
    Renamed(FileName),
}

/// Files in memory, and what happened to them.
#[derive(Drop)]
pub struct ScriptSpool {
    alloc: Global,
    files: Vec<ScriptFile>,
    acts: Vec<ScriptAct>,
    /// Files can be removed and renamed.
    yields: bool,
}

impl ScriptSpool {
    /// There is no file, and nothing happened to one.
    pub fn new(alloc: Global) -> ScriptSpool
        ensures fresh { result.acts.items ≡ [] }
    {
        ScriptSpool {
            alloc,
            files: Vec::new(alloc),
            acts: Vec::new(alloc),
            yields: true,
        }
    }

    /// A file is put there.
    pub fn put(&mut self, name: &str, text: &[u8]) -> Result<(), AllocError> {
        let name = String::from_str(self.alloc, name)?;
        let mut kept = Vec::new(self.alloc);
        kept.extend_from_slice(text)?;
        Ok(self.files.push(ScriptFile { name, text: kept })?)
    }

    /// No file can be removed or renamed any more.
    pub fn refuse(&mut self) {
        self.yields = false;
    }

    /// Whether a file is there.
    pub fn has(&self, name: &str) -> bool {
        self.files.iter().any(|file| file.name.as_str() == name)
    }

    /// What happened to the files, the newest last.
    pub fn acts(&self) -> &[ScriptAct] {
        self.acts.as_slice()
    }
}

/// Which file has this name.
fn place_of(alloc: Global, files: &[ScriptFile], name: &FileName) -> Option<usize>
    ensures { IfSome result (λ place. place < length files.now) }
{
    let text = name.text(alloc).ok()?;
    files
        .iter()
        .position(|file| file.name.as_str() == text.as_str())
}

/// A copy of a text.
fn copied(alloc: Global, text: &[u8]) -> Option<Vec<u8>>
    ensures { IfSome result (λ copy. copy.items ≡ text.now) }
{
    let mut copy = Vec::new(alloc);
    match copy.extend_from_slice(text) {
        Ok(()) => Some(copy),
        Err(_) => None,
    }
}

/// A copy of the front of a file's text.
fn front(alloc: Global, text: &[u8]) -> Option<Vec<u8>> {
    let count = text.len().min(MOST_OCTETS);
    copied(alloc, &text[..count])
}

impl Spool for ScriptSpool {
    ghost tells = { λ spool a. a ≡ map act_seen spool.acts.items };

    ghost asked = { λ _ _. ⊥ };

    ghost parted = { λ _ _. ⊤ };

    ghost is_coming = { λ _ answer. answer ≡ false };

    ghost tells_once = { λ spool a b h k. tells_once spool.acts.items a b h k };

    fn next_name(&mut self, last: &Option<FileName>) -> Option<FileName> {
        let mut next = NextName::new(self.alloc, last).ok()?;
        for file in self.files.iter() {
            next.see(file.name.as_str()).ok()?;
        }
        next.get()
    }

    fn read(&mut self, name: &FileName) -> Option<Vec<u8>> {
        let place = place_of(self.alloc, self.files.as_slice(), name)?;
        let read = front(self.alloc, self.files[place].text.as_slice())?;
        let kept = copied(self.alloc, read.as_slice())?;
        match self.acts.push(ScriptAct::Read(*name, kept)) {
            Ok(()) => Some(read),
            Err(_) => None,
        }
    }

    fn remove(&mut self, name: &FileName) -> bool {
        let Some(place) = place_of(self.alloc, self.files.as_slice(), name) else {
            return false;
        };
        if !self.yields || self.acts.push(ScriptAct::Removed(*name)).is_err() {
            return false;
        }
        self.files.remove(place);
        true
    }

    fn rename(&mut self, name: &FileName) -> bool {
        let Some(place) = place_of(self.alloc, self.files.as_slice(), name) else {
            return false;
        };
        if !self.yields || self.acts.reserve(1).is_err() {
            return false;
        }
        if self.files[place].name.push_str(".bad").is_err() {
            return false;
        }
        let _ = self.acts.push(ScriptAct::Renamed(*name));
        true
    }

    fn coming(&self) -> Option<&Coming> {
        None
    }

    fn read_on(&mut self) {}

    fn note_prepared(&mut self) {}
}
