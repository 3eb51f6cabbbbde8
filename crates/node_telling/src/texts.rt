//! What a node tells of itself: what went otherwise than well, a line each, as text or as JSON; and what
//! it has counted, as a page for Prometheus.

pub(crate) mod asked;
pub(crate) mod decision;
pub(crate) mod journal;
pub(crate) mod members;
pub(crate) mod notice;
pub(crate) mod notices;
pub(crate) mod page;
pub(crate) mod page_parts;
pub(crate) mod reply;
pub(crate) mod samples;
pub(crate) mod start;
pub(crate) mod status;
pub(crate) mod timing;
