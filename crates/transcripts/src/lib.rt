//! Transcripts of the worked rows, and what plays them, for the tests of the office, of the store
//! and of serving.
#![tactic(auto)]

pub mod administration;
pub mod connections;
pub mod logins;
pub mod looks;
pub mod offices;
pub mod pipelining;
pub mod playing;
pub mod sessions;
pub mod worked;
