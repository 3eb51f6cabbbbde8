//! A node's opening as a text.

mod allow;
mod anchor;
mod common;
mod draft;
mod kind;
mod line;
mod object;
mod printing;
mod printing_lists;
mod printing_objects;
mod reading;
mod settings;

pub use printing::print_opening;
pub(crate) use reading::text_of;
