//! What the words of the command line ask for.
#![tactic(auto)]

mod request;
mod verbs;
mod words;

pub use request::Request;
pub use words::{Explains, read_words};
