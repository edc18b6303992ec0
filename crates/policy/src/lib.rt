//! An office's policy: which clerk may open, read and remove what.
//!
//! A policy is a list of rules, of which the first that matches decides, and the groups of clerks
//! that the rules name. Its text is TOML 1.0, with the arrays of tables `group` and `rule`;
//! `Policy::read` reads it or names its first fault, `Policy::write` writes it.
#![tactic(auto)]

mod decide;
mod fault;
mod group;
mod group_starts;
mod index;
mod key;
mod lane;
mod laws;
mod place;
mod policy;
mod read;
mod read_groups;
mod rule;
mod sound;
mod walk;
mod write;

pub use decide::Decision;
pub use fault::PolicyFault;
pub use group::Group;
pub use lane::Lane;
pub use laws::{numbers_the_first_fault, numbers_the_first_group};
pub use place::{Place, PlacedFault};
pub use policy::{MAX_GROUPS, MAX_MEMBERS, MAX_RULES, Policy};
pub use rule::{Action, Actions, Clerks, Effect, Pattern, Rule};
