//! Whether a transaction may execute.
ghost use Rattle.std.specs.Prelude.{◌≡◌, List};
ghost use Rattle.std.specs.List.{list_all};
ghost use Rattle.std.specs.Option.{option_copied};
ghost use Rattle.acc_stamp.specs.Actor.{shard_of};
ghost use Rattle.acc_topology.specs.Layout.{Layout};
ghost use Rattle.acc_message.specs.Taken.{Taken};
ghost use Rattle.acc_record.specs.Shelf.{record_at};
ghost use Rattle.acc_record.specs.Stands.{StandsFor};
ghost use Rattle.acc_record.specs.Waits.{is_past_record};
ghost use Rattle.acc_execute.specs.Now.{is_ready_at, may_execute};

use acc_record::{Record, Shelf};
use acc_stamp::{Stamp, TxnId};

/// Whether a transaction may execute here: it is stable, and each of its dependencies in the shard is stable and, where its
/// timestamp is smaller, applied. Takes no memory.
pub fn ready(shelf: &Shelf, id: TxnId) -> bool
    ensures records { result ≡ is_ready_at shelf.now id }
    ensures rules { (layout : Layout) (history : List Taken) → StandsFor layout shelf.now history → result ≡ may_execute (shard_of shelf.now.actor) history id }
{
    is_ready(shelf, id)
}

fn is_ready(shelf: &Shelf, id: TxnId) -> bool
    ensures { result ≡ is_ready_at shelf.now id }
{
    let Some(there) = shelf.find(id) else {
        return false;
    };
    let Some(settled) = &there.stable else {
        return false;
    };
    are_past(shelf, settled.t, settled.deps.of_shard(shelf.actor.shard()))
}

fn are_past(shelf: &Shelf, t: Stamp, ids: &[TxnId]) -> bool
    ensures { result ≡ list_all (λ y. is_past_record t (record_at shelf.now.records y)) ids.now }
{
    for id in ids {
        if !is_past(shelf.find(*id), t) {
            return false;
        }
    }
    true
}

fn is_past(there: Option<&Record>, t: Stamp) -> bool
    ensures { result ≡ is_past_record t (option_copied there.entry) }
{
    let Some(there) = there else {
        return false;
    };
    let Some(settled) = &there.stable else {
        return false;
    };
    settled.t >= t || there.applied
}
