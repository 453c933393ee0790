//! Decks of calls: how they are read, and what a run of one prints.
#![tactic(auto)]

mod call_room;
mod commits;
mod deck;
mod hex;
mod law;
mod line;
mod lines;
mod plays;
mod reader;
mod runs;
mod step;

pub use call_room::CallRoom;
pub use deck::{DeckFault, read_deck};
pub use law::{law_spelling_reads_back, law_steps_are_spelled};
pub use lines::{WriteFault, print_answer, print_refusal, put_shown};
pub use runs::{RunEnd, RunFault, run, run_with_commits};
pub use step::Step;
