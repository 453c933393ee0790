//! The sample database for tests, which the crates above use in their tests alone: its types, a volume and a stream of it; and databases of roots
//! alone.
#![tactic(auto)]

mod bytes;
mod roots;
mod stream;
mod types;
mod volume;

pub use bytes::{WAYS, byte_at, changed, set_byte};
pub use roots::{root_database, root_stream};
pub use stream::{RECORDS, stream_of};
pub use types::{database, segment_type, spaced_database};
pub use volume::{image, put, spread_image, widened};
