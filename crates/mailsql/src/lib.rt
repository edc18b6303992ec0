//! The SQL statements of a store, each in a public function of its own. The function's contract
//! says how the statement changes the typed rows or what it answers, what an error leaves, and what
//! a stop may leave.
//!
//! Every error is the connection's own (`sqlite::Error`): a constraint of a table, out of memory,
//! a device that failed, or a store that has other tables. The clause `cause` says that the
//! statement itself met the error. After an error either nothing changed, or the transaction was
//! rolled back, which `Connection::is_autocommit` then tells. A function that runs several
//! statements outside a transaction leaves what those before the error did. What the contracts say
//! of rows holds over a store with our tables, if the disk returned what was written.
#![tactic(auto)]

pub mod bodies;
pub mod clerks;
pub mod counts;
mod decode;
pub mod deposits;
pub mod groups;
pub mod mail;
pub mod maildrops;
pub mod meta;
pub mod rows;
pub mod rules;
mod run;
pub mod schema;
pub mod sheets;
pub mod tables;
pub mod transaction;
pub mod uses;
