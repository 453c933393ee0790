//! A segment's prefix as its fields: code, delete byte and pointers.
#![tactic(auto)]

mod fields;
mod law;
mod layout;
mod pointer;

pub use fields::{code_of, delete_byte_of, twin_forward_of};
pub use law::{
    law_children_are_listed, law_new_segments_are_rows, law_pointers_are_numbers,
    law_pointers_are_set, law_pointers_stand_apart, law_pointers_stand_inside,
    law_segments_take_other_bytes,
};
pub use layout::Layout;
pub use pointer::Pointer;
