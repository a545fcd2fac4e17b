//! Where bytes go.
ghost use Rattle.std.specs.Prelude.{◌≡◌, ◌≤◌, ◌↔◌, ℕ, List, [], length, take, Option, IfOk, OnErr, IsErrOf};
ghost use Rattle.acc_ports.specs.Faults.{Rose};
ghost use Rattle.acc_ports.specs.Sink.{followed_by};

use crate::PortError;

/// A stream of bytes that a program writes.
///
/// A sink may tell contracts which bytes it was given. Then they say exactly what each write appends. Whether it tells
/// them never changes.
pub trait Sink {
    /// How often the outside has failed. The count never falls. It is kept in 64 bits and stands still at their end.
    ghost faults: { Self → ℕ };

    /// The bytes written so far, or `None` where the sink doesn't tell them.
    ghost written: { Self → Option (List ℕ) };

    /// Writes a front of `piece` behind what was written before, and answers the length of that front. It is zero only for
    /// an empty piece: a sink that can take nothing of another one answers `Failed`. After an error nothing was written.
    fn write(&mut self, piece: &[u8]) -> Result<usize, PortError>
        ensures room { IfOk result (λ count. count ≤ length piece.now) }
        ensures progress { IfOk result (λ count. (count ≡ 0) ↔ (piece.now ≡ [])) }
        ensures appended { IfOk result (λ count. written self.new ≡ followed_by (take count piece.now) (written self.old)) }

        ensures kept { OnErr result (written self.new ≡ written self.old) }

        // It doesn't give up by itself.
        ensures counted { faults self.old ≤ faults self.new }
        ensures cause { IsErrOf result PortError.Failed → Rose (faults self.old) (faults self.new) }
        ensures still { ¬ (IsErrOf result PortError.Failed) → faults self.new ≡ faults self.old };
}
