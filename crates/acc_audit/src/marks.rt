//! The transactions that a line names.
ghost use Rattle.std.specs.Prelude.{◌≡◌, ◌<◌, ℕ, List, length, map, slice_set, IsTrue, if◌then◌else◌};
ghost use Rattle.std.specs.List.{list_any, list_all};
ghost use Rattle.std.specs.Str.{bytes_eq};
ghost use Rattle.acc_audit.specs.Fronts.{is_known};
ghost use Rattle.acc_audit.specs.Rules.{Differ};

use acc_document_fields::NameTable;
use acc_report_reader::PlacedNames;

/// Gives the transactions with these names this mark. False where there is no such transaction; then some keep theirs.
pub(crate) fn mark(
    marks: &mut Vec<u64>,
    numbers: &NameTable,
    names: &PlacedNames<'_>,
    mark: u64,
) -> bool
    requires as_many { length marks.old.items ≡ length numbers.now }
    requires differ { Differ numbers.now }
    ensures known { result ≡ list_all (is_known numbers.now) names.now }
    ensures marked { IsTrue result → (was : List ℕ → ℕ) → marks.old.items ≡ map was numbers.now
        → marks.new.items ≡ map (λ name. if list_any (bytes_eq name) names.now then mark else was name) numbers.now }
{
    let mut rest = names.copy();
    while let Some((name, others)) = rest.split_first() {
        match numbers.place(name) {
            Some(number) => set_mark(marks, number, mark),
            None => return false,
        }
        rest = others;
    }
    true
}

fn set_mark(marks: &mut Vec<u64>, number: usize, mark: u64)
    requires { number < length marks.old.items }
    ensures { marks.new.items ≡ slice_set marks.old.items number mark }
{
    marks[number] = mark;
}
