//! What a seat knows of its tape, for the proofs alone: no value of these types is made.
use crate::content::{Content, Limits};
use std::collections::LinkedList;

/// A visit of a seat at the tape: the actor of the seat, how many items and bytes it reserved, and how many it gave up.
pub struct Visit {
    pub actor: u32,
    pub items: u64,
    pub weight: u64,
    pub items_back: u64,
    pub weight_back: u64,
}

/// A seat that was joined to the first one: its actor, what it had seen, what it entered, the visits that it knew, and its own.
pub struct Gone<E> {
    pub actor: u32,
    pub seen: LinkedList<E>,
    pub mine: LinkedList<E>,
    pub visits: LinkedList<Visit>,
    pub own: LinkedList<Visit>,
}

/// What a seat knows. One that was joined to the first seat isn't live.
pub struct View<E> {
    pub is_live: bool,
    pub limits: Limits,
    // The first seat has actor 0.
    pub actor: u32,
    pub seen: LinkedList<E>,
    pub mine: LinkedList<E>,
    // How many items and bytes are reserved for it.
    pub held_items: u64,
    pub held_weight: u64,
    // The numbers of all reserved items and bytes at the last call.
    pub out_count: u64,
    pub out_weight: u64,
    // The visits of all seats up to its last one, and its own.
    pub visits: LinkedList<Visit>,
    pub own: LinkedList<Visit>,
    // The actor that the slot named at the last call.
    pub named: u32,
    // Of the first seat, the actors for which it was split and the seats that were joined to it.
    pub made: LinkedList<u32>,
    pub joined: LinkedList<Gone<E>>,
    // The ticket that it drew, and what stood in the slot when its turn came.
    pub ticket: Option<u64>,
    pub taken: Option<Content<E>>,
}
