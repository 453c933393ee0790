use crate::fault::{RowFault, TextFault, Wrong};
use crate::part::bytes_at;
use hd_dbd::Dbd;
use std::alloc::Global;

/// A row that was read: where its text begins, where its key stands among the keys, the number of its parent, and its type.
/// Rows count from 1 in the order in which they were read; the parent of a root is 0.
#[derive(Clone, Copy)]
pub struct Row {
    pub start: usize,
    pub key: usize,
    pub parent: u32,
    pub code: u8,
}

/// The rows that were read, up to the first fault if there is one, and their keys.
#[derive(Drop)]
pub struct Rows {
    pub rows: Vec<Row>,
    pub keys: Vec<u8>,
    pub fault: Option<TextFault>,
}

/// The bytes of a type's key, 0 without one.
pub fn key_length(dbd: &Dbd, code: u8) -> usize {
    let Some(segment) = dbd.type_of(code) else {
        return 0;
    };
    match &segment.key {
        Some(key) => key.length as usize,
        None => 0,
    }
}

impl Rows {
    /// No rows.
    pub fn new(alloc: Global) -> Rows {
        Rows {
            rows: Vec::new(alloc),
            keys: Vec::new(alloc),
            fault: None,
        }
    }

    /// The number of the next row.
    pub fn next_number(&self) -> Result<u32, RowFault> {
        match u32::try_from(self.rows.len()) {
            Ok(count) => count.checked_add(1).ok_or(RowFault::Count),
            Err(_) => Err(RowFault::Count),
        }
    }

    /// Adds a row with its bytes, of which the key is kept.
    pub fn add(
        &mut self,
        dbd: &Dbd,
        start: usize,
        parent: u32,
        code: u8,
        bytes: &[u8],
    ) -> Result<(), Wrong> {
        let key = self.keys.len();
        self.keys.extend_from_slice(dbd.key_of(code, bytes))?;
        self.rows.push(Row {
            start,
            key,
            parent,
            code,
        })?;
        Ok(())
    }

    /// The key of a row.
    pub fn key_of(&self, dbd: &Dbd, row: &Row) -> &[u8] {
        bytes_at(&self.keys, row.key, key_length(dbd, row.code))
    }

    /// The row of a number.
    pub fn row(&self, number: u32) -> Option<Row> {
        let place = (number as usize).checked_sub(1)?;
        self.rows.get(place).copied()
    }
}
