//! Bounds of every run of a valid cluster. Lengths of lists and bytes are bounded where it has at most 10,000 transactions. Each law is the contract of a function that does nothing.
ghost use Rattle.std.specs.Prelude.{◌≡◌, ℕ, ◌+◌, ◌≤◌, true, false, List, Some, All, Contains};
ghost use Rattle.acc_stamp.specs.declared.actors.Actor.{Actor};
ghost use Rattle.acc_message.specs.declared.message.Message.{Message};
ghost use Rattle.acc_message.specs.declared.item.Item.{Item};
ghost use Rattle.acc_message.specs.Fields.{top_of};
ghost use Rattle.acc_message.specs.Items.{sent_in, message_at};
ghost use Rattle.acc_message.specs.NodeRules.{Act};
ghost use Rattle.acc_message.specs.Run.{Cluster, is_node};
ghost use Rattle.acc_safety.specs.Histories.{Sending};
ghost use Rattle.acc_safety.specs.Valid.{IsStanding};
ghost use Rattle.acc_message_code.specs.Short.{IsShortMessage};
ghost use Rattle.acc_run_laws.specs.Next.{MayDo, sends_next};
ghost use Rattle.acc_run_laws.specs.Heights.{most_h, AreLow};
ghost use Rattle.acc_run_laws.specs.Sends.{AreFew, HasFewBodies, AreSendable};
ghost use Rattle.acc_run_laws.specs.Calls.{NodeMeets, StoreMeets, IsDeliverable};

/// Heights rise by at most one with each item, lost entries, restarts and downs included: after so many items nothing that was
/// sent, drawn or seen is above 10^12 and their number. What an actor would send next is at most one above this.
pub fn heights_rise_by_one()
    ensures run { (cluster : Cluster) (items : List Item) → IsStanding cluster items → AreLow cluster items }
    ensures next { (cluster : Cluster) (items : List Item) (a : Actor) (act : Act) → IsStanding cluster items → MayDo cluster items a act →
        All (λ m. top_of m ≤ most_h items + 1) (sends_next cluster items a act) }
{}

/// In a cluster of at most 10,000 transactions every message fits the format: its actors are numbers of two bytes, its shards are 1 to 15, its lists are no longer than their
/// counts tell, and its cells and outcomes are such as a body gives. So does every message that an actor would send next.
pub fn messages_are_short()
    ensures run { (cluster : Cluster) (items : List Item) (m : Message) → IsStanding cluster items → HasFewBodies cluster → Sending items m →
        IsShortMessage m }
    ensures next { (cluster : Cluster) (items : List Item) (a : Actor) (act : Act) → IsStanding cluster items → HasFewBodies cluster →
        MayDo cluster items a act → All IsShortMessage (sends_next cluster items a act) }
{}

/// With at most 10,000 transactions and fewer than 2^31 items, the bytes of the messages that one entry sends, or that an actor would send next, are counted in 63
/// bits. A message takes at most 2^31 bytes; a node sends to each store of a transaction, and a store at most one message more than
/// it has taken, also where one step opens many transactions.
pub fn a_step_is_counted()
    ensures run { (cluster : Cluster) (item : Item) (items : List Item) → IsStanding cluster items → HasFewBodies cluster → AreFew items →
        Contains items item → AreSendable (sent_in item) }
    ensures next { (cluster : Cluster) (items : List Item) (a : Actor) (act : Act) → IsStanding cluster items → HasFewBodies cluster →
        AreFew items → MayDo cluster items a act → AreSendable (sends_next cluster items a act) }
{}

/// With fewer than 2^31 items, a node that stands for what it did and a store that stands for what it took meet what their calls ask
/// of heights and, with at most 10,000 transactions, of what they send, and each message that was sent can be taken where it goes to.
pub fn calls_are_met()
    ensures node { (cluster : Cluster) (items : List Item) (a : Actor) → IsStanding cluster items → AreFew items → is_node a ≡ true →
        NodeMeets cluster items a }
    ensures store { (cluster : Cluster) (items : List Item) (a : Actor) → IsStanding cluster items → AreFew items → is_node a ≡ false →
        StoreMeets cluster items a }
    ensures message { (cluster : Cluster) (items : List Item) (number : ℕ) (m : Message) → IsStanding cluster items → AreFew items →
        message_at items number ≡ Some m → IsDeliverable cluster items m }
{}
