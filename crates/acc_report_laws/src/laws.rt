//! That a report of items is read again, and that its lines are those of its items.
ghost use Rattle.std.specs.Prelude.{◌≡◌, ℕ, ◌<◌, ◌^◌, List, [], ◌∷◌, ◌++◌, length, Result};
ghost use Rattle.acc_stamp.specs.declared.stamps.TxnId.{TxnId};
ghost use Rattle.acc_message.specs.declared.item.Item.{Item};
ghost use Rattle.acc_message.specs.Items.{notes_of};
ghost use Rattle.acc_schedule.specs.declared.plan.Print.{Print};
ghost use Rattle.acc_report.specs.declared.names.Directory.{Directory};
ghost use Rattle.acc_report.specs.Numbers.{name_in, IsOf};
ghost use Rattle.acc_report.specs.Report.{number_in, number_of, name_of, name_at, lines_in, lines_of, report_lines, report_text};
ghost use Rattle.acc_report_line.specs.declared.line.Line.{Line};
ghost use Rattle.acc_report_line.specs.Forms.{AreNames, HaveForms};
ghost use Rattle.acc_report_reader.specs.declared.error.ReportError.{ReportError};
ghost use Rattle.acc_report_reader.specs.Report.{Reads, GivesBack};
ghost use Rattle.acc_report_laws.specs.Fits.{ItemFits, ItemsFit};

/// The lines of a report have forms where the names have, and where the items can be told: each transaction in them has a
/// name, and their numbers are such as the machine has.
pub fn the_lines_have_forms()
    ensures { (print : Print) (names : List (List ℕ)) (roll : List (TxnId × ℕ)) (items : List Item) →
        AreNames names → ItemsFit names roll items → length (notes_of items) < 2 ^ 64 → HaveForms (report_lines print names roll items) }
{}

/// Of the text of such a report `read_report` answers the lines of its items and the last line, or that memory was refused,
/// and no fault.
pub fn a_report_is_read_again()
    ensures { (print : Print) (names : List (List ℕ)) (roll : List (TxnId × ℕ)) (items : List Item) (answer : Result (List Line) ReportError) →
        AreNames names → ItemsFit names roll items → length (notes_of items) < 2 ^ 64 →
        Reads answer (report_text print names roll items) → GivesBack (report_lines print names roll items) answer }
{}

/// The lines that `line` answers of one item are those that the report of all items has of it: where the roll that `line` is
/// given has what the roll and the earlier items give, and each transaction in the item is known by then.
pub fn an_item_has_its_lines_alone()
    ensures { (names : List (List ℕ)) (roll known : List (TxnId × ℕ)) (later : List Item) (item : Item) (earlier : List Item) →
        ((x : TxnId) → number_in known x ≡ number_of roll earlier x) → ItemFits names (number_of known (item ∷ [])) item →
        lines_of names known (item ∷ []) ≡ lines_in (name_of names roll (later ++ item ∷ earlier)) (name_at names) item }
{}

/// The lines that a directory answers of one item, once it has the item and those before it, stay those of the report of all
/// items, whatever comes later: where each transaction in the item is known by then.
pub fn an_item_keeps_its_lines()
    ensures { (names : List (List ℕ)) (roll : List (TxnId × ℕ)) (later : List Item) (item : Item) (earlier : List Item) →
        ItemFits names (number_of roll (item ∷ earlier)) item →
        lines_in (name_of names roll (item ∷ earlier)) (name_at names) item
        ≡ lines_in (name_of names roll (later ++ item ∷ earlier)) (name_at names) item }
{}

/// A directory of items calls each transaction as their report does.
pub fn a_directory_gives_the_names()
    ensures { (directory : Directory) (names : List (List ℕ)) (roll : List (TxnId × ℕ)) (items : List Item) →
        IsOf directory names roll items → (x : TxnId) → name_in directory x ≡ name_of names roll items x }
{}
