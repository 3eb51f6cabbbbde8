//! Files of lines: lines and their words, numbers and keys as they are written, and why a line or a
//! file is refused.

pub(crate) mod adding;
pub(crate) mod fault;
pub(crate) mod field;
pub(crate) mod key_draft;
pub(crate) mod limits;
pub(crate) mod line;
pub(crate) mod line_fault;
pub(crate) mod number;
pub(crate) mod taking;
pub(crate) mod word;
