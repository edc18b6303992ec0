//! The log of a server: a line on standard error for each event.
//!
//! A [`Journal`] writes the lines. [`LoggedVault`] and [`LoggedSpool`] stand around a server's
//! vault and spool: each does what the one inside does, and notes what came of it. As the server's
//! listener a [`Journal`] notes links and connections, logins and QUITs as the office judged them,
//! and what the administration was asked and answered.
//! A [`StoreWatch`] sees whether the store's files are still those that are open. Once they aren't,
//! a [`GuardedSpool`] gives no file.
#![tactic(auto)]

mod account_text;
mod administrators;
mod asked_text;
mod beside;
mod client;
mod counts;
mod denials;
mod guarded;
mod heard;
mod journal;
mod left;
mod message_ids;
mod pipe;
mod policy_name;
mod removed_text;
mod server;
mod settings;
mod spool;
mod store;
mod watch;

pub use beside::path_beside;
pub use guarded::{GuardedSpool, folder_was_asked};
pub use journal::{Journal, Shared};
pub use left::Folder;
pub use server::{note_end, note_loss, note_opening, note_start};
pub use settings::Settings;
pub use spool::LoggedSpool;
pub use store::LoggedVault;
pub use watch::{FileId, Loss, NotedWatch, StoreWatch, Watch};
