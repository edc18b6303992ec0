//! What runs over readers and writers: one conversation of a client over an office, and the law on
//! what it removes; and the runs that popbox's program makes: a script of events, a conversation
//! over a store, the check of a policy's file, the check of a store, and the export of a maildrop.
#![tactic(auto)]

ghost use Rattle.converse.specs.Escapes.{IsReadBack};
ghost use Rattle.converse.specs.Script.{AreToldByTheirLine};
ghost use Rattle.converse.specs.Talk.{RemovesByQuitAlone};

pub mod check_policy;
pub mod check_store;
pub mod export;
mod fault;
mod fields;
mod folder;
pub mod form;
mod noted;
mod noted_folder;
mod printer;
mod printing;
pub mod replay;
pub mod review_policy;
pub mod script;
mod streams;
pub mod talk;
pub mod talk_over_store;
pub mod texts;
mod writing;

pub use fault::{Fault, fault_text, put_fault, read_fault, tell_fault};
pub use noted::Noted;
pub use noted_folder::NotedFolder;
pub use printer::{Flushed, Printer};
pub use streams::{Sink, Source};
pub use texts::Texts;

/// A conversation removes what its QUIT removes, and nothing else.
pub fn removes_by_quit_alone()
    ensures { RemovesByQuitAlone }
{}

/// Octets that are written as a script's TEXT are read as these octets.
pub fn text_is_read_back()
    ensures { IsReadBack }
{}

/// A script's fault is reported by the number of its first line of no form.
pub fn faults_are_told_by_their_line()
    ensures { AreToldByTheirLine }
{}
