use hd_output::Progress;
use std::alloc::Global;
use std::fs::File;
use std::io::Write;
use std::rt::Files;

/// What is to be said of a deck behind the line that says why it ended: behind how many of its calls at least there was a commit, where it commits on its way
/// and a failed access ended it; and how many calls were answered Full.
#[derive(Clone, Copy)]
pub struct Further {
    pub committed: Option<u64>,
    pub full: u64,
}

/// Nothing.
pub const NOTHING_FURTHER: Further = Further {
    committed: None,
    full: 0,
};

/// What a command works with: the system and its memory, and where it tells what it did, why it ended early, and how far it is; and what is to be said behind
/// that.
#[derive(Drop)]
pub struct Console<'c, R: Files<File = File>, P: Progress, O: Write, E: Write> {
    pub rt: &'c R,
    pub alloc: Global,
    pub progress: &'c P,
    pub out: &'c mut O,
    pub err: &'c mut E,
    pub further: Further,
}
