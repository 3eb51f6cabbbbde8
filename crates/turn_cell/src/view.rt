use std::collections::LinkedList;

/// Where a view stands in the line for the value. No value of it is made.
pub enum Stage<E> {
    Idle,
    /// It holds this ticket.
    Waiting(u64),
    /// It is at its ticket's turn, and keeps the journal that the value had as it was entered.
    Turn(u64, LinkedList<E>),
    /// It was just joined of two that had seen these lists.
    Joined(LinkedList<E>, LinkedList<E>),
}

/// What a pass knows. No value of it is made.
pub struct View<F, E> {
    /// `None` where it is spent.
    pub fixed: Option<F>,
    /// The number of entries of the opening journal.
    pub start: u64,
    pub stage: Stage<E>,
    pub shares: u64,
    pub seen: LinkedList<E>,
    pub own: LinkedList<u64>,
}
