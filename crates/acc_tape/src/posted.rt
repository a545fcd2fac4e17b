//! What a tape asks of an item, and of the list that it keeps items in.
ghost use Rattle.std.specs.Prelude.{◌≡◌, ℕ, ◌+◌, ◌-◌, ◌<◌, ◌≤◌, ◌^◌, Bool, List, [], ◌∷◌, ◌++◌, Option, length, Some, slice_get, IfOk, OnOk, OnErr};

use acc_base::OutOfMemory;
use std::alloc::Global;

/// An item that a tape can hold: who enters it, which message it took, which messages it sent, and what it weighs.
pub trait Posted: Drop {
    /// A list of items. Room is made in it ahead, and each item and each message uses up one of it.
    type List: Drop;

    /// A message that an item sent.
    type Message: Drop;

    /// What `fetch` tells of an item: of an item of a run, the transaction that it begins and the id that it drew, and `None`
    /// where it begins none.
    type Sign: Copy;

    /// The actor of the item.
    ghost actor_of: { Self → ℕ };

    /// The number of the message that the item took.
    ghost took: { Self → Option ℕ };

    /// The actors to which the item's messages go, in their order.
    ghost sent_to: { Self → List ℕ };

    /// Whether the item's messages are lost.
    ghost is_lost: { Self → Bool };

    /// The bytes of the item's messages.
    ghost bytes: { Self → ℕ };

    /// What is asked of an item that is weighed.
    ghost weighs: { Self → Type 0 };

    /// The message is the one that the item sent as its message with this index.
    ghost is_sent: { Self → ℕ → Self.Message → Type 0 };

    /// What is told of the item.
    ghost sign_of: { Self → Self.Sign };

    /// The items of a list.
    ghost in_list: { Self.List → List Self };

    /// How many notes the item has. They stand in the list beside the item and its messages.
    ghost noted: { Self → ℕ };

    /// For how many more items and messages a list has room.
    ghost room: { Self.List → ℕ };

    /// For how many more notes a list has room at least.
    ghost notes_room: { Self.List → ℕ };

    fn actor(&self) -> u32
        ensures { result ≡ actor_of self.now };

    fn taken(&self) -> Option<u64>
        ensures { result ≡ took self.now };

    fn sent(&self) -> u64
        ensures { result ≡ length (sent_to self.now) };

    fn goes_to(&self, i: u64) -> u32
        requires { i < length (sent_to self.now) }
        ensures { slice_get (sent_to self.now) i ≡ Some result };

    fn lost(&self) -> bool
        ensures { result ≡ is_lost self.now };

    fn weight(&self) -> u64
        requires { weighs self.now × (bytes self.now < 2 ^ 64) }
        ensures { result ≡ bytes self.now };

    /// A list of no items, with no room.
    fn list(alloc: Global) -> Self::List
        ensures items { in_list result ≡ [] }
        ensures room { room result ≡ 0 };

    /// How many items a list has.
    fn len(list: &Self::List) -> u64
        ensures { result ≡ length (in_list list.now) };

    /// Makes room for so many more items and messages in all, beside what there is room for already.
    fn reserve(list: &mut Self::List, more: u64) -> Result<(), OutOfMemory>
        ensures items { in_list list.new ≡ in_list list.old }
        ensures notes { notes_room list.new ≡ notes_room list.old }
        ensures ok { OnOk result (room list.new ≡ room list.old + more) }
        ensures err { OnErr result (room list.new ≡ room list.old) };

    /// Gives up room for so many items and messages.
    fn release(list: &mut Self::List, less: u64)
        requires { less ≤ room list.old }
        ensures items { in_list list.new ≡ in_list list.old }
        ensures notes { notes_room list.new ≡ notes_room list.old }
        ensures room { room list.new ≡ room list.old - less };

    /// Makes room for so many more notes in all.
    fn reserve_notes(list: &mut Self::List, all: u64) -> Result<(), OutOfMemory>
        ensures items { in_list list.new ≡ in_list list.old }
        ensures room { room list.new ≡ room list.old }
        ensures ok { OnOk result (all ≤ notes_room list.new) }
        ensures err { OnErr result (notes_room list.old ≤ notes_room list.new) };

    /// Appends an item. It uses up room for itself, for each of its messages and for each of its notes.
    fn push(list: &mut Self::List, item: Self)
        requires room { length (sent_to item) < room list.old }
        requires notes { noted item ≤ notes_room list.old }
        ensures items { in_list list.new ≡ in_list list.old ++ item ∷ [] }
        ensures room { room list.new ≡ room list.old - (1 + length (sent_to item)) }
        ensures notes { notes_room list.old ≤ notes_room list.new + noted item };

    /// The message with this index among those that the item at a place sent.
    fn message(list: &Self::List, place: u64, index: u64) -> Result<Self::Message, OutOfMemory>
        requires { (item : Self) × (slice_get (in_list list.now) place ≡ Some item) × (index < length (sent_to item)) }
        ensures { IfOk result (λ message. (item : Self) × (slice_get (in_list list.now) place ≡ Some item) × is_sent item index message) };

    /// What is told of the item at a place.
    fn sign(list: &Self::List, place: u64) -> Self::Sign
        requires { place < length (in_list list.now) }
        ensures { (item : Self) × (slice_get (in_list list.now) place ≡ Some item) × (result ≡ sign_of item) };

    /// Each message has a byte.
    ghost enough: { (item : Self) → length (sent_to item) ≤ bytes item };
}
