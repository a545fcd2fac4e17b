//! The numbers of transactions, by their ids.
use acc_base::Sequence;
use acc_stamp::TxnId;

/// For each id the number of its transaction. The ids rise, so none stands twice.
pub type Roll = Sequence<(TxnId, u32)>;
