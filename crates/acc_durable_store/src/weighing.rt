//! How much a store that is up would send. Nothing here makes a call of a disk.
ghost use Rattle.std.specs.Prelude.{◌≡◌, false, IfOk};
ghost use Rattle.acc_message_code.specs.Weight.{weight_of_all};
ghost use Rattle.acc_payloads.specs.Stops.{kept_with};

use crate::actor::{StoreActor, StoreState};
use acc_base::OutOfMemory;
use acc_message::Message;
use acc_ports::Rig;
use acc_store::Prepared;
use acc_topology::Topology;

impl<D: Rig> StoreActor<D> {
    ghost use Rattle.acc_durable_store.specs.Actor.{OfEachStaging, emits_next, is_down};
    ghost use Rattle.acc_durable_store.specs.Weighing.{StoreMayWeigh, IsPreparedBy};

    /// How many bytes of encoded messages the step that was planned would send.
    pub fn weigh(
        &self,
        topology: &Topology,
        m: &Message,
        prepared: &Prepared,
    ) -> Result<u64, OutOfMemory>
        requires up { is_down self.now ≡ false }
        requires may { StoreMayWeigh D.Disk topology.now self.now m.now }
        requires prepared { IsPreparedBy topology.now self.now m.now prepared.now }
        ensures { IfOk result (λ weight. OfEachStaging D.Disk topology.now self.now (λ name past staged. weight ≡ weight_of_all (emits_next topology.now name.actor (kept_with staged past) m.now).out)) }
    {
        let StoreState::Open(store) = &self.state else {
            unreachable!()
        };
        store.weigh(topology, m, prepared)
    }
}
