//! What may be asked of a cluster.
use acc_stamp::Actor;

/// A step that may be asked of a cluster. Transactions are named by their numbers.
#[derive(Clone, Copy, Debug, PartialEq, Eq)]
pub enum Ask {
    /// The transaction's home begins it.
    Begin { txn: u32 },
    /// The node takes the transaction over.
    Recover { txn: u32, node: u32 },
    /// The transaction's home gives the fast path up.
    Slow { txn: u32 },
    /// The actor that the message goes to takes it, also for the second time.
    Deliver { number: u64 },
    /// The actor comes back from its journal.
    Restart { actor: Actor },
}
