use crate::stop::Stop;
use hd_dbd::Dbd;
use hd_files::{Identity, Named, read_file};
use hd_gen::read_dbd;
use std::alloc::Global;
use std::fs::File;
use std::rt::Files;

/// How many blocks of a volume are kept in memory for a command that goes through it in order, where the command line does not say.
pub const CACHE: u32 = 64;

/// How many bytes of a volume are kept in memory for a command that changes it or makes it, where the command line does not say.
const CHANGES_CACHE: u32 = 16_777_216;

/// How many blocks of a volume are kept in memory for a command that changes it or makes it, where the command line does not say.
pub fn blocks_for_changes(dbd: &Dbd) -> u32 {
    CHANGES_CACHE / dbd.block_size().max(1)
}

/// The database that a file of its source describes.
pub fn read_database<R: Files<File = File>>(
    rt: &R,
    alloc: Global,
    name: &str,
) -> Result<(Dbd, Identity), Stop> {
    let (source, identity) = read_file(rt, alloc, name, Named::Dbd)?;
    match read_dbd(alloc, &source) {
        Ok(dbd) => Ok((dbd, identity)),
        Err(fault) => Err(Stop::database(fault, source)),
    }
}
