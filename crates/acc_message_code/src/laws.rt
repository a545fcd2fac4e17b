//! Laws of the format. Each is the contract of a function that does nothing.
ghost use Rattle.std.specs.Prelude.{◌≡◌, ◌<◌, ◌≤◌, ◌++◌, ◌∷◌, ℕ, List, length, take, Err};
ghost use Rattle.acc_wire.specs.declared.error.WireKind.TheVariants.{Short, Trailing};
ghost use Rattle.acc_message.specs.declared.message.Message.{Message};
ghost use Rattle.acc_message_code.specs.Short.{IsShortMessage};
ghost use Rattle.acc_message_code.specs.Fitting.{FitsMessage};
ghost use Rattle.acc_message_code.specs.MessageSpelling.{message_bytes};
ghost use Rattle.acc_message_code.specs.MessageReading.{message_of};

/// Two messages have different spellings, and neither begins the other: what begins with the spellings of both goes on in
/// the same way.
pub fn one_spelling()
    ensures { (a b : Message) (x y : List ℕ) → FitsMessage a → FitsMessage b → message_bytes a ++ x ≡ message_bytes b ++ y
        → (a ≡ b) × (x ≡ y) }
{}

/// Where more stands after a message, the fault is at its first byte.
pub fn bytes_behind_a_message()
    ensures { (m : Message) (x : ℕ) (xs : List ℕ) → FitsMessage m →
        message_of (message_bytes m ++ x ∷ xs) ≡ Err (record { kind = Trailing; place = length (message_bytes m) }) }
{}

/// Where a message is cut, the fault is that its bytes are too short.
pub fn cut_messages()
    ensures { (m : Message) (k : ℕ) → FitsMessage m → k < length (message_bytes m) →
        (place : ℕ) × (place ≤ k) × (message_of (take k (message_bytes m)) ≡ Err (record { kind = Short; place = place })) }
{}

/// What is decoded can be encoded again, without a further condition.
pub fn what_fits_is_short()
    ensures { (m : Message) → FitsMessage m → IsShortMessage m }
{}
