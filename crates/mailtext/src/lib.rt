//! Message texts: the form in which they are kept, and the lines of a reply as POP3 sends and reads
//! them (RFC 1939, sections 3 and 7; RFC 822, section 3.1).
#![tactic(auto)]

mod kept;
mod lines;
mod parts;
mod stuffer;
mod stuffing;
mod top_cut;

pub use kept::{MAX_OCTETS, MailText, TextFault, canon, is_kept};
pub use stuffer::Stuffer;
pub use stuffing::{stuff_into, stuffing_is_undone, unstuff};
pub use top_cut::TopCut;
