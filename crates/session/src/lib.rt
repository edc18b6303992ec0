//! One logged-in session of a maildrop (RFC 1939, 5 and 6), without a store: its view, its marks,
//! and what QUIT removes.
#![tactic(auto)]

mod laws;
mod listing;
mod pick;
mod quit_plan;
mod removals;
mod removed;
mod row;
mod session;

pub use laws::marks_are_asked_by_number;
pub use listing::{Sizes, Uids};
pub use pick::{Pick, Readable};
pub use quit_plan::QuitPlan;
pub use removals::Removals;
pub use removed::{Removed, RemovedMessage};
pub use session::Session;
