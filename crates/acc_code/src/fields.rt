//! Fields whose format forbids some values.
ghost use Rattle.std.specs.Prelude.{◌≡◌, ◌≢◌, IfErr, OnErr};
ghost use Rattle.acc_wire.specs.declared.error.WireError.{WireError};
ghost use Rattle.acc_wire.specs.declared.error.WireKind.{WireKind};
ghost use Rattle.acc_wire.specs.Reading.{AreBytes};
ghost use Rattle.acc_code.specs.Reading.{Reads, between_at};

use crate::error::CodeError;
use acc_wire::{Reader, WireError, WireKind};

/// The fault of a field that begins at this place and holds what its format forbids.
pub fn out_of_range(place: u64) -> CodeError
    ensures { result ≡ CodeError.Wire (record { kind = WireKind.Range; place = place }) }
{
    CodeError::Wire(WireError {
        kind: WireKind::Range,
        place,
    })
}

/// A byte from `least` to `most`. Both errors have the place of this byte: it is Short where no byte is left, and Range
/// where the byte is smaller or greater. After an error the reader is unchanged. It takes no memory.
#[tactic(auto, unfolding(crate::specs::Reading::between_at))]
pub fn take_between(reader: &mut Reader<'_>, least: u8, most: u8) -> Result<u8, CodeError>
    ensures exact { Reads result reader.new (between_at least most reader.old) }
    ensures kept { OnErr result (reader.new ≡ reader.old) }
    ensures bytes { AreBytes reader.old.bytes }
    ensures taken { IfErr result (λ error. error ≢ CodeError.OutOfMemory) }
{
    let mut ahead = reader.fork();
    let number = ahead.take_u8()?;
    if number < least || number > most {
        return Err(out_of_range(reader.place()));
    }
    *reader = ahead;
    Ok(number)
}
