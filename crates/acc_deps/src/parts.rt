//! Whether all dependencies of one list are in another.
ghost use Rattle.std.specs.Prelude.{IsTrue};
ghost use Rattle.acc_stamp.specs.declared.stamps.TxnId.{TxnId};
ghost use Rattle.acc_stamp.specs.Rising.{id_among};

use acc_stamp::TxnId;

// Whether the transactions of a rising list are found in another one, in one walk.
pub(crate) fn is_part(part: &[TxnId], whole: &[TxnId]) -> bool
    ensures { IsTrue result → (x : TxnId) → IsTrue (id_among x part.now) → IsTrue (id_among x whole.now) }
{
    let mut found = 0;
    for id in whole {
        if found < part.len() && part[found] == *id {
            found += 1;
        }
    }
    found == part.len()
}
