//! Why a part of a report isn't read.
ghost use Rattle.std.specs.Prelude.{◌≡◌};
ghost use Rattle.acc_report_reader.specs.declared.refusal.Refusal.TheVariants.{Memory};

use acc_base::OutOfMemory;

/// Why a part of a report isn't read.
#[derive(Clone, Copy, Debug)]
pub(crate) enum Refusal {
    /// It has no form.
    Form,
    /// Memory was refused.
    Memory,
}

impl From<OutOfMemory> for Refusal {
    ghost from_gives = { λ _ refusal. refusal ≡ Memory };

    fn from(_error: OutOfMemory) -> Refusal {
        Refusal::Memory
    }
}
