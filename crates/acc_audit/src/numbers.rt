//! Transactions that are named in a list.
ghost use Rattle.std.specs.Prelude.{◌≡◌};
ghost use Rattle.std.specs.List.{list_all};
ghost use Rattle.acc_audit.specs.Fronts.{is_known};

use acc_document_fields::NameTable;
use acc_report_reader::PlacedNames;

/// Whether there are transactions with all these names.
pub(crate) fn has_each(numbers: &NameTable, names: &PlacedNames<'_>) -> bool
    ensures { result ≡ list_all (is_known numbers.now) names.now }
{
    let mut rest = names.copy();
    while let Some((name, others)) = rest.split_first() {
        if !numbers.has(name) {
            return false;
        }
        rest = others;
    }
    true
}
