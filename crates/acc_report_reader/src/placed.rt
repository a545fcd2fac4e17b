//! Lines that are read in place: their names stand in the bytes of the report.
ghost use Rattle.std.specs.Prelude.{◌≡◌, [], ◌∷◌, false, MatchOption};
ghost use Rattle.acc_report_reader.specs.Fields.{pieces};
ghost use Rattle.acc_report_reader.specs.Placed.{line_said};

use crate::parts::piece;
use acc_base::Sequence;
use acc_message::Path;
use acc_stamp::{Actor, Stamp};
use acc_txn::Reply;
use std::marker::Model;

/// The names of a list, as the bytes of a report have them, with commas between them. Contracts see the names in their order.
#[derive(Debug, Drop)]
pub struct PlacedNames<'r> {
    text: Option<&'r [u8]>,
}

impl<'r> Model for PlacedNames<'r> {
    ghost use Rattle.std.specs.Prelude.{List, ℕ};
    ghost use Rattle.acc_report_reader.specs.Fields.{pieces_of};

    ghost Value = { List (List ℕ) };

    ghost view = { λ n. pieces_of n.text };
}

impl<'r> PlacedNames<'r> {
    /// No names.
    pub(crate) fn none() -> PlacedNames<'r>
        ensures { result ≡ [] }
    {
        PlacedNames { text: None }
    }

    /// What stands between the commas of these bytes.
    pub(crate) fn of(bytes: &'r [u8]) -> PlacedNames<'r>
        ensures { result ≡ pieces false bytes.now }
    {
        PlacedNames { text: Some(bytes) }
    }

    /// The same names.
    pub fn copy(&self) -> PlacedNames<'r>
        ensures { result ≡ self.now }
    {
        PlacedNames { text: self.text }
    }

    /// The first name, and those after it.
    pub fn split_first(&self) -> Option<(&'r [u8], PlacedNames<'r>)>
        ensures { MatchOption result (self.now ≡ []) (λ p. self.now ≡ p.0.now ∷ p.1) }
    {
        match self.text {
            Some(text) => Some(first_of(text)),
            None => None,
        }
    }
}

// The first name of a text, and those after it.
fn first_of(text: &[u8]) -> (&[u8], PlacedNames<'_>)
    ensures { pieces false text.now ≡ result.0.now ∷ result.1 }
{
    match piece(text) {
        Some((first, others)) => (first, PlacedNames::of(others)),
        None => (text, PlacedNames::none()),
    }
}

/// The words of a line in their order, as `acc_report_line` has them.
#[derive(Debug, Drop)]
pub enum PlacedForm<'r> {
    Begin {
        name: &'r [u8],
        id: Stamp,
    },
    Recover {
        name: &'r [u8],
        ballot: Stamp,
    },
    Blocked {
        name: &'r [u8],
        ballot: Stamp,
        by: PlacedNames<'r>,
    },
    Ended {
        name: &'r [u8],
        ballot: Stamp,
        by: Stamp,
    },
    Decide {
        name: &'r [u8],
        t: Stamp,
        path: Path,
        deps: PlacedNames<'r>,
    },
    Outcome {
        name: &'r [u8],
        reply: Reply,
    },
    Reply {
        name: &'r [u8],
        reply: Reply,
    },
    SkipNoMessage {
        step: u64,
        number: u64,
        sent: u64,
    },
    SkipDown {
        step: u64,
        actor: Actor,
    },
    SkipBegun {
        step: u64,
        name: &'r [u8],
    },
    SkipUnknown {
        step: u64,
        name: &'r [u8],
    },
    SkipNoQuorum {
        step: u64,
        name: &'r [u8],
    },
    Down {
        actor: Actor,
    },
    Restart {
        actor: Actor,
        kept: u64,
    },
    Decided {
        fast: u64,
        slow: u64,
        recovered: u64,
        adopted: u64,
    },
    End {
        txns: u64,
        replied: u64,
        unreplied: u64,
    },
}

/// A line of a report, whose names stand in the bytes of the report. Contracts see the line of `acc_report_line` that it says.
#[derive(Debug, Drop)]
pub struct PlacedLine<'r> {
    pub(crate) form: PlacedForm<'r>,
}

impl<'r> Model for PlacedLine<'r> {
    ghost use Rattle.acc_report_line.specs.declared.line.Line.{Line};
    ghost use Rattle.acc_report_reader.specs.Placed.{line_said};

    ghost Value = { Line };

    ghost view = { λ l. line_said l.form };
}

impl<'r> PlacedLine<'r> {
    /// The words of the line.
    pub fn form(&self) -> &PlacedForm<'r>
        ensures { line_said result.now ≡ self.now }
    {
        &self.form
    }
}

/// The lines of a report, in their order.
pub type PlacedLines<'r> = Sequence<PlacedLine<'r>>;
