//! What the tape of a plan holds.
use acc_message::Item;
use acc_tape::{Rules, Tape};
use std::marker::{Brand, PhantomData};

/// Names the plan whose items stand on a tape, and whether the disks of all its actors are strict. Each call of a program picks both.
pub trait Planned {
    ghost use Rattle.std.specs.Prelude.{Bool};
    ghost use Rattle.acc_schedule.specs.Content.{Content};

    /// The plan.
    ghost plan: { Content };

    /// All disks are strict, and nothing is armed on any.
    ghost strict: { Bool };
}

impl Planned for Brand {
    ghost use Rattle.std.specs.Prelude.{[], false};
    ghost use Rattle.acc_schedule.specs.declared.plan.Print.TheVariants.{Summary};

    ghost plan = { record { version = 1; topology = record { nodes = []; shards = [] }; starts = []; names = []; homes = []; bodies = []; steps = []; print = Summary } };

    ghost strict = { false };
}

/// The items of a tape are a free run of the plan.
pub struct PlanRules<J> {
    of: PhantomData<J>,
}

impl<J: Planned> Rules<Item> for PlanRules<J> {
    ghost use Rattle.acc_desk.specs.Fits.{fits_plan};

    ghost fits = { fits_plan J.plan };
}

/// The tape of a plan.
pub type PlanTape<J> = Tape<Item, PlanRules<J>>;
