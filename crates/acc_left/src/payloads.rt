//! Payloads put into journals.
ghost use Rattle.std.specs.Prelude.{◌≡◌, ◌∷◌, ◌++◌, [], length, OnOk, if◌then◌else◌};
ghost use Rattle.acc_wire.specs.Spelling.{u32_bytes};
ghost use Rattle.acc_journal.specs.Layout.{records, sized};
ghost use Rattle.acc_message_code.specs.MessageSpelling.{message_bytes};
ghost use Rattle.acc_message_code.specs.Short.{IsShortMessage};
ghost use Rattle.acc_payloads.specs.Journals.{may_mark as may_be_marked};
ghost use Rattle.acc_payloads.specs.Spelling.{draw_bytes, mark_bytes};

use acc_base::{Bytes, OutOfMemory};
use acc_message::Message;
use acc_message_code::{message_length, put_message};
use acc_payloads::{Draw, may_mark};
use acc_wire::{put_u8, put_u32};

/// Appends the record of the mark, where an actor of this version puts one in front of a payload.
pub(crate) fn put_mark(out: &mut Bytes, version: u8, marked: bool) -> Result<(), OutOfMemory>
    ensures { OnOk result (out.new ≡ out.old ++ (if may_be_marked version marked then records (mark_bytes ∷ []) else [])) }
{
    if may_mark(version, marked) {
        put_record(out, &[0xff, 2])?;
    }
    Ok(())
}

/// Appends the record of a draw.
pub(crate) fn put_draw(out: &mut Bytes, draw: &Draw) -> Result<(), OutOfMemory>
    ensures { OnOk result (out.new ≡ out.old ++ 1 ∷ sized (draw_bytes draw.now)) }
{
    let payload = draw.to_bytes(out.allocator())?;
    put_record(out, payload.as_slice())
}

/// Appends the record of a message.
pub(crate) fn put_taken(out: &mut Bytes, m: &Message) -> Result<(), OutOfMemory>
    requires { IsShortMessage m.now }
    ensures { OnOk result (out.new ≡ out.old ++ 1 ∷ sized (message_bytes m.now)) }
{
    let length = message_length(m);
    put_head(out, length as u32)?;
    put_message(out, m)
}

// Appends the record of a payload. Want of memory comes of one of 2^32 bytes or more too.
fn put_record(out: &mut Bytes, payload: &[u8]) -> Result<(), OutOfMemory>
    ensures { OnOk result (out.new ≡ out.old ++ 1 ∷ sized payload.now) }
{
    let Ok(length) = u32::try_from(payload.len()) else {
        return Err(OutOfMemory);
    };
    put_head(out, length)?;
    out.extend_from_slice(payload)
}

// Appends an open gate, and how long the payload after it is.
#[tactic(auto, unfolding(acc_wire::specs::Spelling::u8_bytes))]
fn put_head(out: &mut Bytes, length: u32) -> Result<(), OutOfMemory>
    ensures { OnOk result (out.new ≡ out.old ++ 1 ∷ u32_bytes length) }
{
    put_u8(out, 1)?;
    put_u32(out, length)
}
