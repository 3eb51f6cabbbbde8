//! What every format of the service has: fields that are read at an offset, and their one fault; and
//! rows in the order of their numbers: what a search finds, and what a new row does.
#![tactic(auto)]

mod fault;
mod fields;
mod filling;
mod row_laws;

pub use fault::FormatFault;
pub use fields::{
    array_at, byte_within, count_up_to, counted16_at, ended, length_up_to, mark_at, slice_at,
    u8_at, u16_at, u32_at, u64_at,
};
pub use filling::fill;
pub use row_laws::{gaps_take, places_tell, searches_end};
