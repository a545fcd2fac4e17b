//! What items put into the journals of their actors.
ghost use Rattle.std.specs.Prelude.{◌≡◌, ℕ, ◌++◌, nat_lt, List, Some, length, OnOk};
ghost use Rattle.acc_message.specs.declared.item.Item.{Item};
ghost use Rattle.acc_message.specs.declared.message.Message.{Message as AMessage};
ghost use Rattle.acc_message.specs.Items.{message_at};
ghost use Rattle.acc_message_code.specs.Short.{IsShortMessage};
ghost use Rattle.acc_payloads.specs.Items.{draw_payload, drawn_by as stamp_drawn_by, message_payload, payload_by};
ghost use Rattle.acc_left.specs.Kept.{front_of, TellPlaces};

use crate::payloads::{put_draw, put_mark, put_taken};
use crate::places::Places;
use acc_base::{Bytes, OutOfMemory};
use acc_message::{Event, Items, Note};
use acc_payloads::{Draw, Purpose};
use acc_stamp::{Actor, Stamp};

// The stamp that a begin or a recover draws, by its notes.
fn drawn_by(notes: &[Note]) -> Option<Stamp>
    ensures { result ≡ stamp_drawn_by notes.now }
{
    for note in notes {
        match note {
            Note::Begin { id } => return Some(id.0),
            Note::Recover { ballot, .. } => return Some(ballot.0),
            _ => {}
        }
    }
    None
}

/// Puts what an item journals into the journal of its actor, which has no gate at its end.
pub(crate) fn enter(
    journal: &mut Bytes,
    version: u8,
    items: &Items,
    places: &Places,
    actor: Actor,
    event: Event,
    notes: &[Note],
) -> Result<(), OutOfMemory>
    requires short { (entered : List Item) (number : ℕ) (m : AMessage) → TellPlaces places.now items.now entered → message_at entered number ≡ Some m → IsShortMessage m }
    requires told { (entered : List Item) × TellPlaces places.now items.now entered }
    ensures { OnOk result ((entered : List Item) (payloads : List (List ℕ)) → TellPlaces places.now items.now entered → journal.old ≡ front_of version payloads
        → journal.new ≡ front_of version (payloads ++ payload_by entered actor event notes.now)) }
{
    match event {
        Event::Begin { txn } => enter_draw(journal, version, Purpose::Begin, txn, notes),
        Event::Recover { txn } => enter_draw(journal, version, Purpose::Recover, txn, notes),
        Event::Message { number } if actor.shard() != 0 => {
            enter_message(journal, version, items, places, number)
        }
        Event::Message { .. } | Event::Slow { .. } | Event::Restart { .. } => Ok(()),
    }
}

// Puts a draw into a journal, where the notes tell one.
fn enter_draw(
    journal: &mut Bytes,
    version: u8,
    purpose: Purpose,
    txn: u32,
    notes: &[Note],
) -> Result<(), OutOfMemory>
    ensures { OnOk result ((payloads : List (List ℕ)) → journal.old ≡ front_of version payloads
        → journal.new ≡ front_of version (payloads ++ draw_payload purpose txn (stamp_drawn_by notes.now))) }
{
    match drawn_by(notes) {
        Some(stamp) => {
            let draw = Draw {
                purpose,
                txn,
                h: stamp.h,
            };
            put_mark(journal, version, has_payload(journal))?;
            put_draw(journal, &draw)
        }
        None => Ok(()),
    }
}

// Puts the message with this number into a journal, where it was sent.
fn enter_message(
    journal: &mut Bytes,
    version: u8,
    items: &Items,
    places: &Places,
    number: u64,
) -> Result<(), OutOfMemory>
    requires short { (entered : List Item) (number : ℕ) (m : AMessage) → TellPlaces places.now items.now entered → message_at entered number ≡ Some m → IsShortMessage m }
    requires told { (entered : List Item) × TellPlaces places.now items.now entered }
    ensures { OnOk result ((entered : List Item) (payloads : List (List ℕ)) → TellPlaces places.now items.now entered → journal.old ≡ front_of version payloads
        → journal.new ≡ front_of version (payloads ++ message_payload (message_at entered number))) }
{
    match places.message(items, number) {
        Some(m) => {
            put_mark(journal, version, has_payload(journal))?;
            put_taken(journal, m)
        }
        None => Ok(()),
    }
}

// Whether a journal has more than its first byte.
fn has_payload(journal: &Bytes) -> bool
    ensures { result ≡ nat_lt 1 (length journal.now) }
{
    journal.len() > 1
}
