//! Where looks stand.
ghost use Rattle.std.specs.Prelude.{◌≡◌};
ghost use Rattle.acc_glance.specs.Stages.{begun_at};

use acc_stamp::Ids;
use acc_topology::NodeList;
use acc_value::Value;
use std::alloc::Global;

/// Where a look stands.
#[derive(Debug, Drop)]
pub(crate) enum Stage {
    /// It has not begun.
    Waiting,
    /// It visits stores.
    Visiting(Course),
    /// It has read the cell.
    Read {
        from: u64,
        to: u64,
        cell: Option<Value>,
    },
    /// No visit is left to it.
    Open {
        from: u64,
    },
}

/// The visits of a look so far.
#[derive(Debug, Drop)]
pub(crate) struct Course {
    /// How many items there were when it began.
    pub(crate) from: u64,
    /// The nodes visited in the first phase, in their order.
    pub(crate) asked: NodeList,
    /// The writers of the key that these knew, rising.
    pub(crate) told: Ids,
    /// The node visited last in the second phase; 0 before.
    pub(crate) last: u32,
    /// The nodes visited in the second phase after the last step, in their order.
    pub(crate) late: NodeList,
}

impl Course {
    /// That of a look that begins.
    pub(crate) fn new(alloc: Global, from: u64) -> Course
        ensures { result ≡ begun_at from }
    {
        Course {
            from,
            asked: NodeList::new(alloc),
            told: Ids::new(alloc),
            last: 0,
            late: NodeList::new(alloc),
        }
    }
}
