//! The words that `hd` prints, faults, statuses and refusals, and its lines, each with its meaning in plain sentences.
#![tactic(auto)]

mod calls;
mod decks;
mod entry;
mod exits;
mod explaining;
mod lines;
mod sources;
mod table;
mod volumes;
mod writing;

pub use calls::{REFUSALS, STATUS_CODES};
pub use decks::{DECK_FAULTS, STREAM_FAULTS};
pub use entry::{Entry, Explanation, Kind};
pub use exits::EXIT_STATUSES;
pub use explaining::explain;
pub use lines::LINES;
pub use sources::SOURCE_FAULTS;
pub use table::{entry_in, place_of};
pub use volumes::VOLUME_FAULTS;
pub use writing::{write_entry, write_lines};
