//! The first line of a link from a proxy: PROXY protocol, version 1, as HAProxy, nginx and
//! stunnel write it.
//!
//! A [`ProxyLine`] is what such a line says. A [`ProxiedWire`] stands around a wire whose clients
//! come through a proxy: it reads that line, and hands on what comes after it. It closes a link for
//! its first line by a [`Refusal`] of serving.
#![tactic(auto)]

mod line;
mod wire;

pub use line::ProxyLine;
pub use wire::{ProxiedWire, sockets_were_asked};
