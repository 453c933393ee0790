//! What a salvage left out.

use crate::record::Record;
use crate::walk::Walk;
use hd_check_blocks::Fault;
use std::alloc::{AllocError, Global};

/// What a salvage left out of a volume: the segments that were read and are not in the stream, by address, and the faults that it met.
#[derive(Drop)]
pub struct Lost {
    pub records: Vec<Record>,
    pub faults: Vec<Fault>,
}

impl Lost {
    /// Nothing.
    pub fn nothing(alloc: Global) -> Lost {
        Lost {
            records: Vec::new(alloc),
            faults: Vec::new(alloc),
        }
    }

    /// How many segments of a type are left out.
    pub fn count_of(&self, code: u8) -> u32 {
        let mut count = 0u32;
        for record in &self.records {
            if record.code == code {
                count = count.saturating_add(1);
            }
        }
        count
    }

    /// Takes what was found and not kept, and the faults that were met.
    pub(crate) fn take(
        &mut self,
        records: &[Record],
        walk: &Walk,
        faults: Vec<Fault>,
    ) -> Result<(), AllocError> {
        self.records.reserve_exact(left_out(records, walk))?;
        for number in 0..records.len() {
            if !walk.is_kept(number) {
                self.records.push(records[number])?;
            }
        }
        self.faults = faults;
        Ok(())
    }
}

/// How many of some records a walk did not keep.
fn left_out(records: &[Record], walk: &Walk) -> usize {
    let mut count = 0usize;
    for number in 0..records.len() {
        if !walk.is_kept(number) {
            count = count.saturating_add(1);
        }
    }
    count
}
