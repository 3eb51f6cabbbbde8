//! What the words of a command line mean.

pub(crate) mod meaning;
pub(crate) mod table;
pub(crate) mod wanted;
