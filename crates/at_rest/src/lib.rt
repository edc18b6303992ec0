//! What is done over a store that no server has open, and that stays as it is: `popbox export`,
//! `popbox check`, and `popbox review-policy`, which may read a store beside the policies; and the
//! store's file before it is opened.
#![tactic(auto)]

mod copies;
mod looking;
mod resting;
mod store_file;
mod stored;

pub use looking::run_review;
pub use resting::{run_check, run_export};
pub use store_file::{is_log_alone, make_file, tell_readers};
