//! What the journals of stores and nodes hold.
//!
//! A store journals the messages that it takes, a node its draws. A journal that an actor of version 2 went on with has a mark,
//! which stands in front of the first payload that such an actor appended. What a fault of the disk stopped is kept, since the journal may
//! turn out to hold it.
#![tactic(auto)]

mod draw;
pub mod laws;
mod mark;
mod node;
pub mod stops;
mod store;
mod text;

pub use draw::{Draw, Purpose};
pub use mark::{may_mark, put_payload, put_record};
pub use node::{NodePayload, NodeTold, read_node_journal, read_node_payload};
pub use stops::{Restarted, Unsent, Unsents};
pub use store::{StorePayload, may_follow, read_store_payload};
pub use text::has_text;
