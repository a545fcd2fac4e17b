//! The records of a store with the record that the step gives its own transaction.
ghost use Rattle.std.specs.Prelude.{◌≡◌, not, ◌&&◌};
ghost use Rattle.std.specs.Option.{option_copied};
ghost use Rattle.acc_stamp.specs.Stamp.{id_eq};
ghost use Rattle.acc_record.specs.Shelf.{record_at};
ghost use Rattle.acc_opening.specs.Lookup.{lookup, is_over_in};

use acc_record::{Record, Records};
use acc_stamp::TxnId;

/// The record of a transaction, where the own one takes the place of the one that is kept.
pub fn record_of<'a>(records: &'a Records, own: &'a Record, id: TxnId) -> Option<&'a Record>
    ensures { option_copied result ≡ lookup records.now own.now id }
{
    if id == own.id {
        Some(own)
    } else {
        match records.get(&id) {
            Some(kept) => Some(kept.get()),
            None => None,
        }
    }
}

/// Whether a record is kept that is stable and applied, of another transaction than the own one. It is told without a look at
/// most of these records.
pub(crate) fn is_kept_over(records: &Records, own: &Record, id: TxnId) -> bool
    ensures { result ≡ (not (id_eq id own.now.id) && is_over_in (record_at records.now id)) }
{
    if id == own.id {
        return false;
    }
    match records.get(&id) {
        Some(kept) => kept.is_over(),
        None => false,
    }
}
