//! Laws of what a node left in its journals: of a drill's load, and of any node.

pub(crate) mod courses;
pub(crate) mod journal_laws;
pub(crate) mod left_laws;
pub(crate) mod load_laws;
