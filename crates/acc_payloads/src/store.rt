//! The payloads of a store.
ghost use Rattle.std.specs.Prelude.{◌≡◌, IfOk, IfSome, IsNone, is_some};
ghost use Rattle.acc_message.specs.Taken.{body_in};
ghost use Rattle.acc_payloads.specs.declared.store.StorePayload.{StorePayload as Payload};
ghost use Rattle.acc_payloads.specs.Store.{store_bytes, FitsStore, is_for as goes_to, store_may};

use crate::mark::{is_mark, may_mark};
use crate::text::has_text;
use acc_base::OutOfMemory;
use acc_code::CodeError;
use acc_message::{Message, top};
use acc_message_code::{KnownParts, decode_known};
use acc_stamp::Actor;
use std::alloc::Global;

/// No message of a store's journal names an `h` of so much or more.
const LIMIT: u64 = 1 << 62;

/// A payload of a store.
#[derive(Debug, Drop)]
pub enum StorePayload {
    /// From here on the journal was written by version 2.
    Mark,
    /// The store has taken a message.
    Takes(Message),
}

/// The payload of some bytes, all of them; `None` exactly where they are the payload of nothing. The message of a transaction that
/// is known shares what is at hand of it.
pub fn read_store_payload<K: KnownParts>(
    alloc: Global,
    bytes: &[u8],
    known: &K,
) -> Result<Option<StorePayload>, OutOfMemory>
    ensures found { IfOk result (λ read. IfSome read (λ p. bytes.now ≡ store_bytes p)) }
    ensures fits { IfOk result (λ read. IfSome read FitsStore) }
    ensures none { IfOk result (λ read. IsNone read → (p : Payload) → FitsStore p → bytes.now ≡ store_bytes p → ⊥) }
{
    if is_mark(bytes) {
        return Ok(Some(StorePayload::Mark));
    }
    match decode_known(alloc, bytes, known) {
        Ok(message) => Ok(Some(StorePayload::Takes(message))),
        Err(CodeError::Wire(_)) => Ok(None),
        Err(CodeError::OutOfMemory) => Err(OutOfMemory),
    }
}

/// Whether a payload may stand in the journal of a store that is read by this version, where `marked` tells whether a mark stands
/// before it. A message goes to this store, brings a body, names no `h` of 2^62 or more, and has a text value only after a mark.
/// That it follows no vote whose `h` is 2^62 or more is left to the one who replays the journal.
pub fn may_follow(own: Actor, version: u8, marked: bool, payload: &StorePayload) -> bool
    ensures { result ≡ store_may version own marked payload.now }
{
    match payload {
        StorePayload::Mark => may_mark(version, marked),
        StorePayload::Takes(m) => { is_for(own, m) && top(m) < LIMIT && (!has_text(m) || marked) }
    }
}

fn is_for(own: Actor, m: &Message) -> bool
    ensures { result ≡ goes_to own m.now }
{
    m.to() == own && has_body(m)
}

fn has_body(m: &Message) -> bool
    ensures { result ≡ is_some (body_in m.now) }
{
    matches!(
        m,
        Message::PreAccept { .. }
            | Message::Accept { .. }
            | Message::Commit { .. }
            | Message::Stable { .. }
            | Message::Apply { .. }
            | Message::Recover { .. }
    )
}
