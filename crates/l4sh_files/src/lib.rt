//! The files of traces: opened, read as one history, and what is asked of them printed.
#![tactic(auto)]

mod bad_lines;
mod began;
mod begun;
mod ending;
mod files;
mod history;
mod kept;
mod middle;
mod migrating;
mod new_file;
mod noted;
mod opening;
mod printing;
mod progress;
mod several;
mod terminal;
mod threads;

pub use bad_lines::with_reason;
pub use began::{no_time, start_in};
pub use ending::{
    Ending, ended, ended_alone, exit_alone, fault_reason, of_output, tell_reason, told,
};
pub use history::part_files;
pub use kept::{KeptPort, Tail};
pub use migrating::{Migration, migrate_file};
pub use noted::{Fault, Noted};
pub use opening::{is_folder, of_input};
pub use printing::{chart_of, check_of, follow_files, look_at_files, script_in, told_follow};
pub use several::put_printed;
pub use terminal::{is_told_at_terminal, is_typed_at_terminal};
