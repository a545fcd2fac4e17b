//! That reading a report is exact.
ghost use Rattle.std.specs.Prelude.{◌≡◌, ℕ, List, Result};
ghost use Rattle.acc_report_line.specs.declared.line.Line.{Line};
ghost use Rattle.acc_report_line.specs.Forms.{HaveForms};
ghost use Rattle.acc_report_line.specs.Texts.{lines_text};
ghost use Rattle.acc_report_reader.specs.declared.error.ReportError.{ReportError};
ghost use Rattle.acc_report_reader.specs.Report.{IsReport, Reads, GivesBack};

/// What is written is read again: of the text of lines with their forms `read_report` answers these very lines, or that memory
/// was refused, and no fault.
pub fn what_is_written_is_read()
    ensures { (lines : List Line) (answer : Result (List Line) ReportError) → HaveForms lines → Reads answer (lines_text lines) → GivesBack lines answer }
{}

/// No two lists of lines with their forms have the same text.
pub fn bytes_have_one_reading()
    ensures { (bytes : List ℕ) (lines others : List Line) → IsReport bytes lines → IsReport bytes others → lines ≡ others }
{}
