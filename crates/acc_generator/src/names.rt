//! The names of transactions.
ghost use Rattle.std.specs.Prelude.{◌≡◌, string_bytes, OnOk};
ghost use Rattle.acc_generator.specs.Document.{name_of};

use std::alloc::AllocError;

/// Makes a text the name of the transaction of this number.
#[tactic(auto, unfolding(crate::specs::Document::name_of))]
pub(crate) fn set_name(name: &mut String, number: u32) -> Result<(), AllocError>
    ensures { OnOk result (string_bytes name.new ≡ name_of number) }
{
    name.clear();
    write!(name, "t{number}")
}
