//! A vault that answers a maildrop's heads, and the totals of all maildrops, again without asking,
//! while nothing was changed.
#![tactic(auto)]

mod kept;
mod recent;
mod totals;

pub use recent::Recent;
