//! What a command needs no longer.
use acc_audit::Remains as Case;
use acc_cluster::Remains as Actors;
use acc_message::Items;
use acc_schedule::Plan;
use std::alloc::Global;

/// What a command needs no longer when it ends: the plan of its run, the items, what its actors knew, and the case that it
/// judged. To free it piece by piece takes as long as a fifth of the run. Whoever ends right after a command leaves it to
/// the system (`std::mem::forget`), and all others drop it.
#[derive(Drop)]
pub struct Remains {
    /// What the actors of a run knew.
    pub actors: Actors,
    /// The plan of the run.
    pub plan: Option<Plan>,
    /// The items.
    pub items: Option<Items>,
    /// The case that was judged.
    pub case: Case,
}

impl Remains {
    /// Nothing.
    pub fn new(alloc: Global) -> Remains {
        Remains {
            actors: Actors::new(alloc),
            plan: None,
            items: None,
            case: Case::new(),
        }
    }
}
