//! What a policy means as a whole, before it is in force: which of its rules never decide, and
//! which decisions another policy would change.
#![tactic(auto)]

mod cells;
mod changes;
mod choice;
mod covers;
mod escape;
mod json;
mod label;
mod laws;
mod member;
mod names;
mod notes;
mod page;
mod question;
mod renames;
mod report;
mod rows;
mod style;
mod table;
mod unknown;

pub use changes::{Names, differences};
pub use choice::{Choice, Format};
pub use covers::{covered, covering};
pub use label::Label;
pub use laws::{asks_the_policy, names_are_told, others_are_alike, text_has_no_markup, told_once};
pub use names::{Kept, names_of};
pub use notes::missing;
pub use question::{Column, columns};
pub use renames::{exchanged, renamed};
pub use report::{names_for, review_against, review_policy, review_stored};
pub use rows::{LineForm, answers};
pub use table::tables;
