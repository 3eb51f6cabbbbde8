//! What may happen between the two steps of an ask.

/// It is passed after the decision, outside of any shard.
pub trait Gate {
    fn between(&mut self);
}

/// A gate at which nothing happens.
#[derive(Clone, Copy, Default)]
pub struct FreeGate;

impl Gate for FreeGate {
    fn between(&mut self) {}
}
