//! The unload stream of a forest, and the reload that makes a volume of it.
#![tactic(auto)]

mod fault;
mod judge;
mod law;
mod path;
mod record;
mod reloads;
mod row;
mod stream;
mod unloads;

pub use fault::{RecordFault, ReloadFault, StreamFault};
pub use law::{
    law_held_rows_have_a_stream, law_streams_are_not_refused, law_streams_spell_one_list,
};
pub use reloads::{Reloaded, reload};
pub use row::root_key;
pub use stream::write_stream;
pub use unloads::{UnloadFault, unload};
