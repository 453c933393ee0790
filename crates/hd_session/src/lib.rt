//! Sessions: the calls of the PCBs of one program over a volume, with their answers, and the tests that a call must pass before its own
//! work is done.
#![tactic(auto)]

mod accepted;
mod buffer;
mod call_and_answer;
mod calls;
mod functions;
mod get_answers;
mod given_rows;
mod insert_answers;
mod last_given;
mod law;
mod load_answers;
mod next_twin;
mod opening;
mod outlook;
mod parent;
mod permissions;
mod session;
mod tests_by_function;
mod update_answers;

pub use buffer::IoArea;
pub use call_and_answer::{Answer, Call};
pub use functions::function_of;
pub use given_rows::give;
pub use law::{law_foretold_answers_come_true, law_no_lost_update, law_sessions_answer_their_logs};
pub use opening::OpenFault;
pub use outlook::Outlook;
pub use session::Session;
pub use tests_by_function::last_test;
