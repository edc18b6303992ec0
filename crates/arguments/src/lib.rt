//! The command line of popbox: its subcommands with their options and defaults, what it asks for,
//! and which popbox this is.
#![tactic(auto)]

mod command_line;
mod options;
mod version;

pub use command_line::make_command;
pub use options::{
    CheckOptions, CheckPolicyOptions, ExportOptions, Input, ReplayOptions, ReviewPolicyOptions,
    ServeOptions, Subcommand, TalkOptions,
};
pub use version::{IS_PROVED, SLOW};
