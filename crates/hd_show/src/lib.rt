//! Pictures of a database and of a volume, in text and as SVG.
#![tactic(auto)]

mod bars;
mod blocks;
mod cells;
mod damage;
mod database;
mod ink;
mod markup;
mod parents;
mod seen;
mod survey;
mod surveying;
mod svg;
mod text;
mod tree;
mod twins;
mod volume;
mod warnings;

pub use database::draw_database;
pub use seen::{Seen, see_segment};
pub use survey::{BlockUse, Kind, Survey, Tally, TypeBytes, TypeUse};
pub use surveying::survey_volume;
pub use svg::draw_svg;
pub use volume::draw_volume;
