//! Notes of what a spool was asked and answered, which only proofs read.
ghost use Rattle.std.specs.Prelude.{◌≡◌, [], ◌∷◌, ◌++◌};
ghost use Rattle.serving.specs.NotedFiles.{call_of};

use crate::file_name::FileName;
use notes::Notes;
use std::marker::Model;

/// What a spool was asked, and what it answered. A text that was read stands beside it.
#[derive(Clone, Copy, PartialEq, Eq, Debug)]
pub(crate) enum FileAsked {
    /// For the next name after one, which there was.
    NextBehind(FileName, FileName),
    NoneBehind(FileName),
    /// For the first name.
    First(FileName),
    NoneAtAll,
    Read(FileName),
    NotRead(FileName),
    Remove(FileName, bool),
    Rename(FileName, bool),
}

/// The calls of a spool, the newest last. They are in the proofs alone: a value takes no memory,
/// and to note a call does nothing when the program runs.
#[derive(Drop)]
pub struct FileNotes {
    list: Notes<(FileAsked, Notes<u8>)>,
}

impl Model for FileNotes {
    ghost use Rattle.serving.specs.NotedFiles.{NotedFileCalls, calls_of};

    ghost Value = { NotedFileCalls };

    ghost view = { λ n. record { calls = calls_of n.list.items } };
}

impl FileNotes {
    /// No call was noted.
    pub(crate) fn new() -> FileNotes
        ensures { result.calls ≡ [] }
    {
        FileNotes { list: Notes::new() }
    }

    /// Notes a call, and the text that was read.
    #[inline(always)]
    pub(crate) fn note(&mut self, asked: &FileAsked, text: &[u8])
        ensures { self.new.calls ≡ self.old.calls ++ call_of asked.now text.now ∷ [] }
    {
        self.list.note(&(*asked, Notes::of(text)));
    }
}
