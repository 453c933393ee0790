//! One walk along the pointers of a volume, over what was noted of its segments block by block where they lie scattered.
#![tactic(auto)]

mod beside;
mod guide;
mod notes;
mod scattered;
mod segments;
mod twins;
mod walk;

pub use walk::are_linked;
