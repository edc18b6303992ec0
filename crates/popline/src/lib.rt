//! The lines of POP3 (RFC 1939): the octets of a connection cut into command lines, what a line
//! commands, and the octets of each reply.
#![tactic(auto)]

mod arguments;
mod command;
mod cutter;
mod laws;
mod lines;
mod reply;
mod texts;

pub use command::{Command, Keyword, LineFault};
pub use cutter::{Cut, Cutter};
pub use laws::{
    cuts_any_pieces, form_of_replies, names_the_fault, reads_what_is_spelled, spells_what_is_read,
    timestamps_differ,
};
pub use lines::{
    begin_message, begin_scan_listing, begin_top, begin_uid_listing, end_lines, put_scan_row,
    put_uid_row,
};
pub use reply::Reply;
