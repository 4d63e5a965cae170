//! What stands in the queue, and what a pass knows.
use std::collections::LinkedList;

/// An item, with the number of the party that put it.
#[derive(Drop)]
pub struct Ticket<T> {
    pub party: u32,
    pub item: T,
}

/// What a party put and took. Contracts alone use it, and no code makes a value of it.
pub struct Hand<T> {
    pub party: u64,
    /// Whether it stands for all later parties too. Then none of these put or took anything.
    pub rest: bool,
    /// What the party put, in order.
    pub put: LinkedList<Ticket<T>>,
    /// What the party took, in order.
    pub taken: LinkedList<Ticket<T>>,
}

/// What a pass knows. Contracts alone use it, and no code makes a value of it.
pub struct View<T> {
    pub hands: LinkedList<Hand<T>>,
    /// Whether it knows all that the queue holds. Then no pass has a hand any more.
    pub sure: bool,
    /// What the queue holds, if it is sure; else empty.
    pub known: LinkedList<Ticket<T>>,
}
