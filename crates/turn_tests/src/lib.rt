//! Tests of turns, over wires in memory: turns by chance, and strangers whose links are cut off at
//! each read and write.
#![tactic(auto)]

#[cfg(test)]
mod chance;
#[cfg(test)]
mod ends;
#[cfg(test)]
mod followed;
#[cfg(test)]
mod guest;
#[cfg(test)]
mod heard;
#[cfg(test)]
mod kept_back;
#[cfg(test)]
mod late;
#[cfg(test)]
mod long_quits;
#[cfg(test)]
mod long_turns;
#[cfg(test)]
mod maintenance;
#[cfg(test)]
mod opened;
#[cfg(test)]
mod random_turns;
#[cfg(test)]
mod random_wire;
#[cfg(test)]
mod reckoning;
#[cfg(test)]
mod replies;
#[cfg(test)]
mod scenes;
#[cfg(test)]
mod sent;
#[cfg(test)]
mod shares;
#[cfg(test)]
mod slow_guesses;
#[cfg(test)]
mod strangers_cut_off;
#[cfg(test)]
mod stream;
#[cfg(test)]
mod two_clerks;
#[cfg(test)]
mod waits;
