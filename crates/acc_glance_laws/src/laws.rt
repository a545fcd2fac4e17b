//! Laws of looks at a key. Each is the contract of a function that does nothing.
//!
//! A transaction with an outcome is decided, so in each of its shards a majority of the stores knew it by then, and one of
//! these is among the majority that a look asks. So a store that has applied all told writers has applied each writer of
//! the key that had an outcome when the look began. What it has applied has an outcome, and of two writers of a key it
//! applies the one with the smaller timestamp first. So its cell is the serial cell of the first moment since then at which
//! all writers that it has applied have outcomes.
ghost use Rattle.std.specs.Prelude.{◌≡◌, ℕ, ◌≤◌, List, ◌++◌, length, Option, Contains};
ghost use Rattle.acc_stamp.specs.declared.stamps.TxnId.{TxnId};
ghost use Rattle.acc_value.specs.declared.key.Key.{Key};
ghost use Rattle.acc_value.specs.declared.value.Value.{Value};
ghost use Rattle.acc_message.specs.declared.item.Item.{Item};
ghost use Rattle.acc_message.specs.Items.{notes_of};
ghost use Rattle.acc_message.specs.Run.{Cluster, IsRun};
ghost use Rattle.acc_safety.specs.Decisions.{Answered, replies_of};
ghost use Rattle.acc_safety.specs.Valid.{IsValidCluster};
ghost use Rattle.acc_glance_laws.specs.SerialCells.{oldest};
ghost use Rattle.acc_glance_laws.specs.Looks.{Visit, IsAsked, IsRead, WasThere, ShowsReplied};

/// What a store that has applied all told writers has in the cell of the key is what the serial order of first outcomes had
/// there at some moment not before the look began and not after the store was read.
pub fn what_is_read_was_there()
    ensures { (cluster : Cluster) (items : List Item) → IsValidCluster cluster → IsRun cluster items →
        (key : Key) (from : ℕ) (visits : List Visit) (ids : List TxnId) (read : Visit) (cell : Option Value) →
        IsAsked cluster items key from visits ids → IsRead cluster items key from ids read cell →
        WasThere cluster items key from read.moment cell }
{}

/// Where a transaction had its reply when the look began, it is, with this reply, among the first outcomes at the moment
/// whose cell the look shows: it shows what the transaction wrote, or what came later.
pub fn a_look_sees_what_was_replied()
    ensures { (cluster : Cluster) (items : List Item) → IsValidCluster cluster → IsRun cluster items →
        (key : Key) (from : ℕ) (visits : List Visit) (ids : List TxnId) (read : Visit) (cell : Option Value) →
        IsAsked cluster items key from visits ids → IsRead cluster items key from ids read cell →
        (a : Answered) → Contains (replies_of (notes_of (oldest from items))) a →
        ShowsReplied cluster items key from read.moment cell a }
{}

/// However a run goes on, its oldest items stay, and with them what its stores told then and which cells it showed then. All
/// items are the oldest ones at the present moment.
pub fn oldest_items_stay()
    ensures stay { (more items : List Item) (n : ℕ) → n ≤ length items → oldest n (more ++ items) ≡ oldest n items }
    ensures all { (items : List Item) → oldest (length items) items ≡ items }
{}
