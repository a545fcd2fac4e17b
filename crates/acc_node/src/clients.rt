//! What a node notes of its clients.
ghost use Rattle.std.specs.Prelude.{◌≡◌, ◌∷◌, [], Bool, true, cond, IfOk, IfErr};
ghost use Rattle.acc_stamp.specs.declared.stamps.TxnId.{TxnId as AnyId};
ghost use Rattle.acc_message.specs.declared.note.Note.TheVariants.{Reply as ReplyNote};
ghost use Rattle.acc_node.specs.Notes.{Noted, Replies, reply_to, reply_behind};

use acc_base::OutOfMemory;
use acc_message::{Note, Notes};
use acc_stamp::TxnId;
use acc_txn::Reply;
use std::alloc::Global;

/// A list of one note.
pub(crate) fn one_note(alloc: Global, note: Note) -> Result<Notes, OutOfMemory>
    ensures { IfOk result (λ notes. notes ≡ note ∷ []) }
{
    let mut notes = Vec::with_capacity(alloc, 1)?;
    notes.push_reserved(note);
    Ok(Notes::from_vec(notes))
}

/// The reply to a client, where it is open.
pub(crate) fn reply_note(
    alloc: Global,
    id: TxnId,
    reply: &Reply,
    is_open: bool,
) -> Result<Notes, OutOfMemory>
    ensures { IfOk result (λ notes. notes ≡ cond is_open (ReplyNote id reply.now ∷ []) []) }
{
    if !is_open {
        return Ok(Notes::new(alloc));
    }
    let reply = reply.copy()?;
    one_note(alloc, Note::Reply { id, reply })
}

/// Puts the reply after the outcome with which an attempt ends, where the client is open, and tells whether there is one. No
/// memory is needed where the attempt hasn't ended.
pub(crate) fn answer_client(
    notes: &mut Notes,
    has_ended: bool,
    is_open: bool,
) -> Result<bool, OutOfMemory>
    ensures ok { IfOk result (λ has_replied. (x : AnyId) → Noted x notes.old has_ended → Replies x is_open notes.old notes.new has_replied) }
    ensures err { IfErr result (λ error. has_ended ≡ true) }
{
    if has_ended && is_open {
        add_reply(notes)
    } else {
        Ok(false)
    }
}

// Puts the reply after an outcome.
fn add_reply(notes: &mut Notes) -> Result<bool, OutOfMemory>
    ensures { IfOk result (λ has_replied. (x : AnyId) (has_ended : Bool) → Noted x notes.old has_ended → Replies x true notes.old notes.new has_replied) }
{
    match reply_behind(notes.as_slice())? {
        Some(reply) => {
            notes.push(reply)?;
            Ok(true)
        }
        None => Ok(false),
    }
}

// The reply that belongs after these notes.
fn reply_behind(notes: &[Note]) -> Result<Option<Note>, OutOfMemory>
    ensures { IfOk result (λ reply. reply ≡ reply_behind notes.now) }
{
    match notes {
        [] | [_, _, ..] => Ok(None),
        [note] => reply_to(note),
    }
}

fn reply_to(note: &Note) -> Result<Option<Note>, OutOfMemory>
    ensures { IfOk result (λ reply. reply ≡ reply_to note.now) }
{
    match note {
        Note::Outcome { id, reply } => {
            let reply = reply.copy()?;
            Ok(Some(Note::Reply { id: *id, reply }))
        }
        Note::Begin { .. }
        | Note::Recover { .. }
        | Note::Blocked { .. }
        | Note::Ended { .. }
        | Note::Decide { .. }
        | Note::Reply { .. } => Ok(None),
    }
}
