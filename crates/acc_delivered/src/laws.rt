//! Laws of delivered attempts. Each is the contract of a function that does nothing.
ghost use Rattle.std.specs.Prelude.{ℕ, List};
ghost use Rattle.acc_stamp.specs.declared.stamps.TxnId.{TxnId};
ghost use Rattle.acc_message.specs.declared.item.Item.{Item};
ghost use Rattle.acc_topology.specs.Layout.{Layout};
ghost use Rattle.acc_message.specs.NodeRules.{Deed};
ghost use Rattle.acc_message.specs.Run.{Cluster, EachStands};
ghost use Rattle.acc_safety.specs.StoreFactStatements.{OfEachStore};
ghost use Rattle.acc_delivered.specs.Laws.{AttemptsLack, BallotsAreDrawn, AttemptsEnd, OpenedAttemptsFinish, OpenedAttemptsReply, StablesAreAnswered, RoundsSendTheirOwn, RoundsStartOne, RoundsLeaveOthersAlone, SecondsAreNotEnded, BlockedHaveWaited, AppliesAreTold};

/// After its first phase an attempt of any ballot that has answers never rests with a majority everywhere of its phase's answers, nor with
/// all the reads that it waits for.
pub fn attempts_wait_for_what_they_lack()
    ensures { (layout : Layout) (node start : ℕ) (x : TxnId) (deeds : List Deed) → AttemptsLack layout node start x deeds }
{}

/// The ballot of a message, if it isn't zero, was drawn by a recover of the message's transaction.
pub fn ballots_are_drawn()
    ensures { (cluster : Cluster) (items : List Item) → EachStands cluster items → BallotsAreDrawn items }
{}

/// Where a recover started an attempt, and its node neither restarted nor started another one at the transaction since, and what was sent
/// since the recover is all taken, the attempt was ended by a greater ballot, was blocked, or decided, with its Stable taken by every store
/// of the transaction. Once each of these stores has opened the transaction, the attempt has its outcome, with its Apply taken by every
/// store. Where the attempt is at the node that began the transaction, and that hasn't restarted since, the client has its reply then.
pub fn delivered_attempts_end()
    ensures ended { (cluster : Cluster) → AttemptsEnd cluster }
    ensures finished { (cluster : Cluster) → OpenedAttemptsFinish cluster }
    ensures replied { (cluster : Cluster) → OpenedAttemptsReply cluster }
{}

/// A store that took a Stable of a transaction, with any ballot, and has opened the transaction, has answered it since.
pub fn stables_are_answered()
    ensures { OfEachStore StablesAreAnswered }
{}

/// What a round sends belongs to the attempt that its recover started, but for answers to reads, and for the Applies and Informs that
/// come of them. It starts no other attempt, and ends or blocks none of another transaction.
pub fn rounds_leave_others_alone()
    ensures sent { (cluster : Cluster) → RoundsSendTheirOwn cluster }
    ensures started { (cluster : Cluster) → RoundsStartOne cluster }
    ensures over { (cluster : Cluster) → RoundsLeaveOthersAlone cluster }
{}

/// Of two rounds of a transaction at one node, one right after the other, the second isn't ended by a greater ballot.
pub fn second_rounds_are_not_ended()
    ensures { (cluster : Cluster) → SecondsAreNotEnded cluster }
{}

/// An attempt is blocked only where a store told it of an older transaction that it awaited.
pub fn blocked_attempts_have_waited()
    ensures { (cluster : Cluster) → BlockedHaveWaited cluster }
{}

/// A transaction of which an Apply was sent is decided and has its outcome.
pub fn applied_transactions_are_told()
    ensures { (cluster : Cluster) → AppliesAreTold cluster }
{}
