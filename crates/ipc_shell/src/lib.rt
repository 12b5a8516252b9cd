//! What `l4sh` promises, over any reader and writer: scripts of commands that are run, scripts of
//! connections whose bytes are served, traces that are checked, and traces that are written anew.
//! The lines of commands are written and read back here alone, as are the commands whose history a
//! trace is.
#![tactic(auto)]

mod acts;
mod check;
mod exit;
mod laws;
mod lines;
mod migrate;
mod output;
mod reading;
mod run;
mod script;
mod script_command;
mod wire;
mod writing;

pub use check::check_trace;
pub use exit::Exit;
pub use laws::scripts_give_their_histories;
pub use migrate::migrate_trace;
pub use output::put;
pub use reading::{command_is_readable, read_command};
pub use run::{marked_kernel, obey_line, run_script};
pub use script::script_of;
pub use script_command::ScriptCommand;
pub use wire::wire_script;
pub use writing::{write_command, write_take};
