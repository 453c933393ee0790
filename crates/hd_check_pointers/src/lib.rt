//! The phases of a check that judge pointers: what each names (3), predecessors (4), twin backward and last child (5), the
//! order of twins (6), and which segments are reached (7).
#![tactic(auto)]

mod last_key;
mod namings;
mod owners;
mod predecessors;
mod reached;
mod record_pointers;
mod records;
mod twin_keys;
mod twins;

pub use last_key::{LastKey, keep_key, no_key};
pub use namings::Naming;
pub use owners::owners_of;
pub use predecessors::{predecessors_fault, predecessors_faults};
pub use reached::{reached_fault, reached_faults};
pub use records::{records_fault, records_faults};
pub use twin_keys::{is_keyed, twin_keys_fault, twin_keys_faults, twin_order_fault};
pub use twins::{twins_fault, twins_faults};
