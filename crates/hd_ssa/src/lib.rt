//! Segment search arguments: how their bytes are read, which types and fields they name, and which rows have what they ask.
#![tactic(auto)]

mod at_once;
mod comparison;
mod fault;
mod head;
mod named;
mod qualification;
mod question;
mod resolution;
mod suits;

pub use fault::SsaFault;
pub use resolution::{Resolved, ResolvedSsa, loads, resolve};
