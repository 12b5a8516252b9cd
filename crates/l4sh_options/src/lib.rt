//! The command lines of `l4sh` and `l4d`.
#![tactic(auto)]

mod asked;
mod chart;
mod count;
mod default_texts;
mod files;
mod follow;
mod found;
mod mistakes;
mod parts;
mod run;
mod server;
mod server_words;
mod shell;
mod shell_rows;
mod state;
mod talk;
mod trace_words;
mod version;

pub use asked::ShellOptions;
pub use chart::ChartOptions;
pub use count::CountOptions;
pub use default_texts::default_texts_are_the_limits;
pub use follow::FollowOptions;
pub use mistakes::mistake_text;
pub use run::ScriptLimits;
pub use server::{MAX_SPACES, OWNER_ONLY, ServerOptions};
pub use server_words::server_options;
pub use shell::shell_options;
pub use state::StateOptions;
pub use talk::TalkOptions;
pub use version::{VERSION, tell_version, tell_version_of};
