//! Names in rising order.
ghost use Rattle.std.specs.Prelude.{◌≡◌, [], IfOk};
ghost use Rattle.acc_stamp.specs.Rising.{IsRising, ids_union};

use acc_base::OutOfMemory;
use acc_stamp::{Ids, TxnId};

/// These transactions, each once, rising. Those of the index come in a few runs that rise, which a stable sort merges.
pub fn rising(found: Vec<TxnId>) -> Result<Ids, OutOfMemory>
    ensures ids { IfOk result (λ ids. ids ≡ ids_union [] found.items) }
    ensures rises { IfOk result IsRising }
{
    let mut ids = found;
    ids.sort()?;
    ids.dedup();
    ids.shrink_to_fit();
    Ok(Ids::from_vec(ids))
}
