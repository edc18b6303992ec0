//! A spool that notes what the one inside does.
ghost use Rattle.std.specs.Prelude.{◌≡◌, List, [], ◌∷◌, ◌++◌, MatchOption, option_map};
ghost use Rattle.std.specs.Prelude.{if◌then◌else◌};
ghost use Rattle.serving.specs.Spools.{FileAct, WasRead, WasRemoved, WasRenamed, FileCall};
ghost use Rattle.serving.specs.Spools.{PartCall};
ghost use Rattle.serving.specs.Spools as call;
ghost use Rattle.serving.specs.NotedFiles.{acts_of, call_of, tells_once, WasAsked, StaysAsItWas};

use crate::file_name::FileName;
use crate::file_notes::{FileAsked, FileNotes};
use crate::spool::{Coming, Spool};

/// A spool that does what the one inside does, and notes it.
///
/// Of any spool inside, `tells` holds of this one: its record is what each call was answered. The
/// notes are in the proofs alone and take no memory. What a folder really holds is no more known
/// than before: a read gave this text, a removal was reported as done.
#[derive(Drop)]
pub struct NotedSpool<S: Spool> {
    pub spool: S,
    pub notes: FileNotes,
}

/// How it is noted that a next name was asked for.
fn asked_next(last: &Option<FileName>, next: &Option<FileName>) -> FileAsked
    ensures { call_of result [] ≡ call.Next last.now next.now }
{
    match last {
        Some(last) => match next {
            Some(next) => FileAsked::NextBehind(*last, *next),
            None => FileAsked::NoneBehind(*last),
        },
        None => match next {
            Some(next) => FileAsked::First(*next),
            None => FileAsked::NoneAtAll,
        },
    }
}

/// Notes that a file was to be read, and its text if it was read.
fn note_text(notes: &mut FileNotes, name: &FileName, text: &Option<Vec<u8>>)
    ensures { notes.new.calls ≡ notes.old.calls
        ++ call.Read name.now (option_map (λ text. text.items) text.now) ∷ [] }
{
    match text {
        Some(octets) => notes.note(&FileAsked::Read(*name), octets.as_slice()),
        None => notes.note(&FileAsked::NotRead(*name), &[]),
    }
}

impl<S: Spool> NotedSpool<S> {
    /// A spool around this one, to which nothing was done yet.
    pub fn new(spool: S) -> NotedSpool<S>
        ensures spool { result.spool ≡ spool }
        ensures fresh { acts_of result.notes.calls ≡ [] }
    {
        NotedSpool {
            spool,
            notes: FileNotes::new(),
        }
    }
}

impl<S: Spool> Spool for NotedSpool<S> {
    ghost tells = { λ noted acts. acts ≡ acts_of noted.notes.calls };

    ghost asked = { λ noted calls. calls ≡ noted.notes.calls };

    ghost parted = { λ noted. S.parted noted.spool };

    ghost is_coming = { λ noted. S.is_coming noted.spool };

    ghost tells_once = { λ noted a b h k. tells_once noted.notes.calls a b h k };

    fn next_name(&mut self, last: &Option<FileName>) -> Option<FileName>
        ensures told { (a : List FileAct) → a ≡ acts_of self.old.notes.calls
            → a ≡ acts_of self.new.notes.calls }
        ensures called { (a : List FileCall) → a ≡ self.old.notes.calls
            → a ++ call.Next last.now result ∷ [] ≡ self.new.notes.calls }
        ensures inside { WasAsked S.tells S.asked self.old.spool self.new.spool
            (call.Next last.now result) }
    {
        let next = self.spool.next_name(last);
        self.notes.note(&asked_next(last, &next), &[]);
        next
    }

    fn read(&mut self, name: &FileName) -> Option<Vec<u8>>
        ensures told { (a : List FileAct) → a ≡ acts_of self.old.notes.calls
            → MatchOption result (a ≡ acts_of self.new.notes.calls)
            (λ text. a ++ WasRead name.now text.items ∷ [] ≡ acts_of self.new.notes.calls) }
        ensures called { (a : List FileCall) → a ≡ self.old.notes.calls
            → a ++ call.Read name.now (option_map (λ text. text.items) result) ∷ []
            ≡ self.new.notes.calls }
        ensures inside { WasAsked S.tells S.asked self.old.spool self.new.spool
            (call.Read name.now (option_map (λ text. text.items) result)) }
    {
        let text = self.spool.read(name);
        note_text(&mut self.notes, name, &text);
        text
    }

    fn remove(&mut self, name: &FileName) -> bool
        ensures told { (a : List FileAct) → a ≡ acts_of self.old.notes.calls
            → (if result then a ++ WasRemoved name.now ∷ [] else a) ≡ acts_of self.new.notes.calls }
        ensures called { (a : List FileCall) → a ≡ self.old.notes.calls
            → a ++ call.Removed name.now result ∷ [] ≡ self.new.notes.calls }
        ensures inside { WasAsked S.tells S.asked self.old.spool self.new.spool
            (call.Removed name.now result) }
    {
        let is_done = self.spool.remove(name);
        self.notes.note(&FileAsked::Remove(*name, is_done), &[]);
        is_done
    }

    fn rename(&mut self, name: &FileName) -> bool
        ensures told { (a : List FileAct) → a ≡ acts_of self.old.notes.calls
            → (if result then a ++ WasRenamed name.now ∷ [] else a) ≡ acts_of self.new.notes.calls }
        ensures called { (a : List FileCall) → a ≡ self.old.notes.calls
            → a ++ call.Renamed name.now result ∷ [] ≡ self.new.notes.calls }
        ensures inside { WasAsked S.tells S.asked self.old.spool self.new.spool
            (call.Renamed name.now result) }
    {
        let is_done = self.spool.rename(name);
        self.notes.note(&FileAsked::Rename(*name, is_done), &[]);
        is_done
    }

    fn coming(&self) -> Option<&Coming> {
        self.spool.coming()
    }

    fn read_on(&mut self)
        ensures told { (a : List FileAct) → a ≡ acts_of self.old.notes.calls
            → a ≡ acts_of self.new.notes.calls }
        ensures called { (a : List FileCall) → a ≡ self.old.notes.calls
            → a ≡ self.new.notes.calls }
        ensures parted { (a : List PartCall) → S.parted self.old.spool a
            → S.parted self.new.spool (a ++ call.ReadOn ∷ []) }
        ensures inside { StaysAsItWas S.tells S.asked self.old.spool self.new.spool }
    {
        self.spool.read_on();
    }

    fn note_prepared(&mut self)
        ensures told { (a : List FileAct) → a ≡ acts_of self.old.notes.calls
            → a ≡ acts_of self.new.notes.calls }
        ensures called { (a : List FileCall) → a ≡ self.old.notes.calls
            → a ≡ self.new.notes.calls }
        ensures parted { (a : List PartCall) → S.parted self.old.spool a
            → S.parted self.new.spool (a ++ call.NotePrepared ∷ []) }
        ensures inside { StaysAsItWas S.tells S.asked self.old.spool self.new.spool }
    {
        self.spool.note_prepared();
    }
}
