//! Tests of the office, of the parts that it stands on, and of scripts, that no transcript can
//! show: worked values of single calls, what stands after a refused growth or call, and replies
//! taken in any pieces.
#![tactic(auto)]

#[cfg(test)]
mod calls;
#[cfg(test)]
mod check_policy;
#[cfg(test)]
mod conversations;
#[cfg(test)]
mod credentials;
#[cfg(test)]
mod groups;
#[cfg(test)]
mod growths;
#[cfg(test)]
mod lines;
#[cfg(test)]
mod no_growths;
#[cfg(test)]
mod offices;
#[cfg(test)]
mod pipelining;
#[cfg(test)]
mod policies;
#[cfg(test)]
mod quits;
#[cfg(test)]
mod scripts;
#[cfg(test)]
mod statements;
#[cfg(test)]
mod streams;
#[cfg(test)]
mod text_pieces;
#[cfg(test)]
mod texts;
#[cfg(test)]
mod twins;
#[cfg(test)]
mod views;
