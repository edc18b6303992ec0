//! A job over a store in two files: the store is opened, the job is done over it, and it is closed.
#![tactic(auto)]

mod checking;
mod exporting;
mod job;
mod looking;
mod opening;
mod replaying;
mod resting;
mod running;
mod sitting;
mod talking;
mod twice;
mod whole_laws;

pub use checking::check_all;
pub use exporting::export_from;
pub use job::Job;
pub use looking::Looking;
pub use opening::{Careful, open};
pub use replaying::{Replayed, Replaying};
pub use resting::{close, open_fault, open_files, reopen};
pub use running::{do_and_close, open_do_close};
pub use sitting::sit_once;
pub use talking::{Talked, Talking};
pub use twice::{TwiceFault, open_twice};
pub use whole_laws::{adopt_whole, carry_again};
