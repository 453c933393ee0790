//! What a command writes and tells: bytes that go out in large pieces, a writer that counts answers, and how far a command is, which a
//! terminal shows.
#![tactic(auto)]

mod answers;
mod pieces;
mod progress;
mod terminal;
mod unmixed;

pub use answers::Answers;
pub use pieces::Pieces;
pub use progress::{Progress, Silent, Work};
pub use terminal::Terminal;
pub use unmixed::Unmixed;
