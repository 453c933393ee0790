//! What `hd check`, `hd unload`, `hd reload` and `hd deck` do with what they were given open: judge it, print, and say the status.
#![tactic(auto)]

mod check_command;
mod deck_command;
mod deck_commits;
mod deck_unit;
mod ended;
mod law;
mod lines;
mod refusal;
mod reload_command;
mod unload_command;

pub use check_command::check_volume;
pub use deck_command::{play_deck, status_of_calls};
pub use deck_unit::play_unit;
pub use ended::{Ended, refuse};
pub use law::{law_crashes_leave_commits, law_headline};
pub use refusal::Refusal;
pub use reload_command::reload_store;
pub use unload_command::unload_volume;
