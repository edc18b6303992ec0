//! Serving the links of a wire over an office, and the files of a spool.
//!
//! A [`Wire`] brings links, a [`Spool`] files, and [`Server::serve_turn`] does one turn of the loop
//! over both. [`SocketWire`] and [`FolderSpool`] are those of a running server, inside a
//! [`NotedWire`] and a [`NotedSpool`]; [`ScriptWire`] and [`ScriptSpool`] are in memory, for tests.
#![tactic(auto)]

mod ahead;
mod arrivals;
mod clients;
mod counts;
mod due;
mod ends;
mod file_name;
mod file_notes;
mod files;
mod folder_spool;
mod guesses;
mod hearings;
mod large_file;
mod left_files;
mod links;
mod listener;
mod newcomers;
mod next_name;
mod noted_clock;
mod noted_listener;
mod noted_spool;
mod noted_wire;
mod octets;
mod pace;
mod quits;
mod requests;
mod room;
mod running;
mod script_links;
mod script_spool;
mod script_wire;
mod server;
mod sockets;
mod spool;
mod turn;
mod wire;
mod wire_notes;

pub use counts::Counts;
pub use due::nobody_is_passed_over;
pub use file_name::{FileName, names_read_back};
pub use file_notes::FileNotes;
pub use folder_spool::FolderSpool;
pub use guesses::{Guesses, origin_of};
pub use hearings::Hearings;
pub use links::{Links, MOST_LINKS, Seat};
pub use listener::{AdminRequest, LinkEvent, Listener, NoListener};
pub use next_name::left_files_are_tried;
pub use noted_clock::NotedClock;
pub use noted_listener::NotedListener;
pub use noted_spool::NotedSpool;
pub use noted_wire::NotedWire;
pub use requests::MOST_REQUESTS;
pub use running::Clock;
pub use script_links::{ScriptLink, Stop};
pub use script_spool::{ScriptAct, ScriptFile, ScriptSpool};
pub use script_wire::ScriptWire;
pub use server::{Server, begin_noted};
pub use sockets::SocketWire;
pub use spool::{Coming, MOST_OCTETS, Spool};
pub use wire::{Io, Link, Port, Refusal, Wire};
pub use wire_notes::WireNotes;
