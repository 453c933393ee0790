//! What a refused volume still holds, as an unload stream.
#![tactic(auto)]

mod copies;
mod fault;
mod found;
mod lost;
mod note;
mod orphans;
mod path;
mod record;
mod roots;
mod salvages;
mod scan;
mod stream;
mod walk;

pub use copies::copy_volume;
pub use fault::SalvageFault;
pub use lost::Lost;
pub use orphans::{order_lost, write_lost};
pub use record::Record;
pub use salvages::{Salvaged, salvage};
