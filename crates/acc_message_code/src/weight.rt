//! How many bytes several messages take.
ghost use Rattle.std.specs.Prelude.{◌≡◌, ◌<◌, ◌^◌, All};
ghost use Rattle.acc_message_code.specs.Short.{IsShortMessage};
ghost use Rattle.acc_message_code.specs.Weight.{weight_of_all};

use crate::message_lengths::message_length;
use acc_message::Message;

/// The sum of the lengths of what `encode` makes of each message, without making them.
#[inline(always)]
pub fn messages_length(messages: &[Message]) -> u64
    requires short { All IsShortMessage messages.now }
    requires fits { weight_of_all messages.now < 2 ^ 64 }
    ensures { result ≡ weight_of_all messages.now }
{
    let mut weight = 0;
    for message in messages {
        weight += message_length(message);
    }
    weight
}
