//! The payload of a message that a store takes.
use acc_base::{Bytes, OutOfMemory};
use acc_journal::Payload;
use acc_message::Message;
use acc_message_code::put_message;

/// A message whose bytes are a payload.
#[derive(Drop)]
pub(crate) struct Taken<'a> {
    pub(crate) message: &'a Message,
}

impl<'a> Payload for Taken<'a> {
    ghost use Rattle.acc_message_code.specs.Short.{IsShortMessage};
    ghost use Rattle.acc_message_code.specs.Fitting.{FitsMessage};
    ghost use Rattle.acc_message_code.specs.MessageSpelling.{message_bytes};

    ghost has_payload = { λ t. IsShortMessage t.message.now };

    ghost bytes = { λ t. message_bytes t.message.now };

    ghost is_written = { λ t. FitsMessage t.message.now };

    fn put(&self, out: &mut Bytes) -> Result<(), OutOfMemory> {
        put_message(out, self.message)
    }
}
