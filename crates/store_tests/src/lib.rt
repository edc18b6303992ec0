//! Tests of a store: calls with their answers, stops at each call of its files, and a store that
//! isn't adopted.
#![tactic(auto)]

#[cfg(test)]
mod checkpoints;
#[cfg(test)]
mod older_stores;
#[cfg(test)]
mod opened_twice;
#[cfg(test)]
mod prepared;
#[cfg(test)]
mod prepared_deposits;
#[cfg(test)]
mod prepared_stops;
#[cfg(test)]
mod recents;
#[cfg(test)]
mod refusals;
#[cfg(test)]
mod stopping;
#[cfg(test)]
mod stops;
#[cfg(test)]
mod stops_of_older;
#[cfg(test)]
mod stores;
