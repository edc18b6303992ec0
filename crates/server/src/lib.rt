//! `popbox serve`: clients and administrators over the network, over a store of any kind.
#![tactic(auto)]

mod by_options;
mod serve;

pub use by_options::admin_site;
pub use serve::{note_store, serve_over};
