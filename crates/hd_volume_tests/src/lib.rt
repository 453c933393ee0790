//! Tests of blocks, segment prefixes, stores, volumes, the root index, linked segments, and positions; and of the store of a volume and its log: runs that a
//! stop cuts short over disks that lose or tear what was not synced, and restarts that stop too.
#![tactic(auto)]

#[cfg(test)]
mod ahead_tests;
#[cfg(test)]
mod block_tests;
#[cfg(test)]
mod chance;
#[cfg(test)]
mod disks;
#[cfg(test)]
mod index;
#[cfg(test)]
mod index_tests;
#[cfg(test)]
mod journal_tests;
#[cfg(test)]
mod list_tests;
#[cfg(test)]
mod lists;
#[cfg(test)]
mod log_tests;
#[cfg(test)]
mod stop_tests;
#[cfg(test)]
mod store_tests;
#[cfg(test)]
mod stores;
#[cfg(test)]
mod text;
#[cfg(test)]
mod torn_disk;
#[cfg(test)]
mod trial;
