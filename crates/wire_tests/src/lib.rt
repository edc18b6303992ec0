//! Tests of links, requests and the spool.
#![tactic(auto)]

#[cfg(test)]
mod benches;
#[cfg(test)]
mod folders;
#[cfg(test)]
mod large_files;
#[cfg(test)]
mod loopback;
#[cfg(test)]
mod proxied;
#[cfg(test)]
mod requests;
#[cfg(test)]
mod requests_compared;
#[cfg(test)]
mod requests_refused;
#[cfg(test)]
mod requests_served;
#[cfg(test)]
mod sites;
#[cfg(test)]
mod spools;
#[cfg(test)]
mod strangers;
#[cfg(test)]
mod swapped;
#[cfg(test)]
mod turns;
#[cfg(test)]
mod waiting;
