//! A mail store in a SQLite database: every call of a vault over the tables of a store, by the
//! statements of `mailsql` alone.
#![tactic(auto)]

mod adopt;
mod ahead;
mod carry;
mod checkpoint;
mod clerks;
mod coming;
mod deposit;
mod groups;
mod mail;
mod maildrops;
mod moves;
mod pages;
mod part;
mod receipts;
mod refusal;
mod removal;
mod rules;
mod sound_clerks;
mod sound_deposits;
mod sound_messages;
mod sound_rules;
mod sql_vault;
mod stop_laws;
mod totals;
mod transaction;
pub mod uses;
mod version;
mod work;

pub use ahead::Ahead;
pub use part::{Part, unsound_part};
pub use refusal::Refusal;
pub use sql_vault::{SqlVault, let_go};
pub use stop_laws::adopt_again;
pub use version::{NEWEST, OLDEST, StoreVersion, find_version};
