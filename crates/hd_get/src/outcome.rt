use hd_dbd::Status;

/// What a call came to: a status that tells of a row, blank, GA or GK, or one that tells of none.
#[derive(Clone, Copy, Debug, PartialEq, Eq)]
pub enum Outcome {
    Found(Status),
    Missing(Status),
}
