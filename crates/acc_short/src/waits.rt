//! Whether transactions rise.
ghost use Rattle.std.specs.Prelude.{◌≡◌};
ghost use Rattle.acc_stamp.specs.Stamp.{id_lt};
ghost use Rattle.acc_stamp.specs.Rising.{is_rising_by};

use acc_stamp::TxnId;

/// Whether each transaction is above the one before it.
pub(crate) fn rise(ids: &[TxnId]) -> bool
    ensures { result ≡ is_rising_by id_lt ids.now }
{
    if ids.len() < 2 {
        return true;
    }
    if !(ids[0] < ids[1]) {
        return false;
    }
    rise(&ids[1..])
}
