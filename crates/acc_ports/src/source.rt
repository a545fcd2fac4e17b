//! Where bytes come from.
ghost use Rattle.std.specs.Prelude.{◌≡◌, ◌<◌, ◌≤◌, ◌↔◌, ℕ, List, [], ◌∷◌, length, Option, None, IsSome, IfSome, IfOk, OnErr, IsErrOf};
ghost use Rattle.acc_ports.specs.Faults.{Rose};
ghost use Rattle.acc_ports.specs.Source.{without_first, read_also, FillsFront};

use crate::PortError;

/// A stream of bytes that a program reads.
///
/// A source may tell contracts which bytes it has left. Then they say exactly what each read gives. It may also tell what
/// its reads gave so far. Whether it tells either never changes.
pub trait Source {
    /// How often the outside has failed. The count never falls. It is kept in 64 bits and stands still at their end.
    ghost faults: { Self → ℕ };

    /// The bytes left to read, or `None` where the source doesn't tell them.
    ghost left: { Self → Option (List ℕ) };

    /// How many bytes each read has given, in their order and without the reads that failed, or `None` where the source
    /// doesn't tell it. At the end of input a read gives none.
    ghost reads: { Self → Option (List ℕ) } = { λ _. None };

    /// Reads some bytes, at least one and at most as many as `into` has room for, into the front of `into`, and answers how
    /// many. It answers zero at the end of input, and only there. After an error no byte was read.
    fn read(&mut self, into: &mut [u8]) -> Result<usize, PortError>
        requires { 0 < length into.old }

        ensures room { IfOk result (λ count. count ≤ length into.old) }
        ensures taken { IfOk result (λ count. left self.new ≡ without_first count (left self.old)) }
        ensures given { IfOk result (λ count. IfSome (left self.old) (λ bytes. FillsFront count bytes into.old into.new)) }
        ensures end { IfOk result (λ count. IfSome (left self.old) (λ bytes. (count ≡ 0) ↔ (bytes ≡ []))) }

        ensures told { IfOk result (λ count. reads self.new ≡ read_also (count ∷ []) (reads self.old)) }

        ensures kept { OnErr result (left self.new ≡ left self.old) }
        ensures untold { OnErr result (reads self.new ≡ reads self.old) }
        ensures untouched { OnErr result (IsSome (left self.old) → into.new ≡ into.old) }

        // It doesn't give up by itself.
        ensures counted { faults self.old ≤ faults self.new }
        ensures cause { IsErrOf result PortError.Failed → Rose (faults self.old) (faults self.new) }
        ensures still { ¬ (IsErrOf result PortError.Failed) → faults self.new ≡ faults self.old };
}
