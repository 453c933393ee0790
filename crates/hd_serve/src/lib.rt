//! Serving: a program's calls, commits and roll backs are read from one stream of frames, carried out in sessions, and answered on another.
#![tactic(auto)]

mod answer;
mod answered_calls;
mod call;
mod commits;
mod desk;
mod fault;
mod foretold;
mod hello;
mod input;
mod law;
mod made_calls;
mod output;
mod request;
mod service;

pub use answer::{put_answer, put_done, put_refusal};
pub use call::{FramedCall, Limits};
pub use desk::Ending;
pub use fault::{FrameFault, HelloFault, WriteFault};
pub use hello::{hello_frame, limits_of};
pub use input::FrameBuffer;
pub use law::{
    law_answers_are_told_apart, law_done_is_told_apart, law_foretold_is_told_apart,
    law_frames_are_told_apart, law_frames_spell_one_request, law_requests_are_read_back,
    law_told_answers_are_told_apart,
};
pub use output::put_frame;
pub use request::{FramedRequest, read_request};
pub use service::{ServeEnd, ServeFault, Service};
