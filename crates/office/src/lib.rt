//! The office: interleaved connections over one vault.
//!
//! An [`Office`] is given events, and answers each. What it sends each connection is exactly what
//! the history of acts says (`specs/`). It owns no socket and no clock: its caller gives it the
//! octets that came, says how many were taken, and what time it is.
#![tactic(auto)]

mod account;
mod administration;
mod answer;
mod bodies;
mod brought;
mod command;
mod command_line;
mod connection;
mod deposits;
mod event;
mod history_laws;
mod limits;
mod lines;
mod listing;
mod locks;
mod login;
mod login_state;
mod logins;
mod message;
mod numbers;
mod office;
mod output;
mod policy_commands;
mod preparing;
mod quit;
mod reading;
mod referring;
mod sessions;
mod stop_laws;
mod time;
mod transaction;
mod transcript;
mod waiting;

pub use account::{Account, End, EventReport, MessageCommand, Removal, Verdict, Way};
pub use answer::{Answer, Clerks, MessageRow, Messages, SessionRow, Sessions, Totals};
pub use bodies::answer_body;
pub use brought::Brought;
pub use command::AdminCommand;
pub use event::{Event, Outcome, Reason};
pub use history_laws::{
    decisions_are_enforced, deposit_ids_act_once, failures_are_counted, greetings_differ,
    hidden_deposit_leaves_no_trace, hidden_mail_leaves_no_trace, laws_of_its_trace,
    marks_are_by_view, none_comes_back, nothing_else_vanishes, one_holder, openings_are_admitted,
    own_records_agree, own_trace_is_kept, removed_is_allowed, replies_have_their_form,
    served_is_allowed, taken_is_sent, unique_id_texts_differ, unique_ids_are_unique,
    view_stays_present,
};
pub use limits::{AdminAccess, Limits};
pub use numbers::read_number;
pub use office::{MOST_IN_A_PIECE, Office, OpenFault};
pub use reading::PAGE_OCTETS;
pub use stop_laws::{step_and_open, stop_between_events};
pub use transcript::{RunFault, Step, Transcript};
