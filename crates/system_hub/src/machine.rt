//! Many clients and few lanes: a machine that hands whole frames to lanes and replies to clients.

pub(crate) mod answering;
pub(crate) mod buffer;
pub(crate) mod coming;
pub(crate) mod hearing;
pub(crate) mod hub;
pub(crate) mod inbox;
pub(crate) mod lane;
pub(crate) mod laws;
pub(crate) mod limits;
pub(crate) mod outbox;
pub(crate) mod routing;
pub(crate) mod seat;
pub(crate) mod turns;
