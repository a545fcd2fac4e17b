//! What a store has noted of transactions: for each stamp that it saw of one, the transaction, the keys of the shard that it
//! uses, and the stamp. An index answers which transactions conflict with another one, and how great their stamps are.
#![tactic(auto)]

mod blocks;
mod columns;
mod index;
mod order;
mod questions;
mod scan;
mod share;
mod users;

pub use acc_base::OutOfMemory;
pub use acc_stamp::{Ids, Stamp, TxnId};
pub use acc_value::{Footprint, Key};
pub use index::Index;
pub use order::rising;
pub use share::Share;
