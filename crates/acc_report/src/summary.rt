//! The counts of a report, and the lines that give them.
ghost use Rattle.std.specs.Prelude.{◌≡◌, ◌+◌, List, ◌++◌, count_by, decimal, reverse, IfOk, OnOk};
ghost use Rattle.acc_message.specs.declared.message.Message.{Message};
ghost use Rattle.acc_message.specs.Items.{notes_of, noted_in};
ghost use Rattle.acc_message.specs.Shown.{with_sent};
ghost use Rattle.acc_report.specs.declared.summary.Tally.{Tally as AnyTally};
ghost use Rattle.acc_report.specs.declared.summary.Tally.TheVariants.{Decisions};
ghost use Rattle.acc_report.specs.Counts.{is_counted as counts, counted, counts_with, AreCounts, last_line_of, decided_line_of};
ghost use Rattle.acc_report.specs.Report.{last_line, decided_line};
ghost use Rattle.acc_report_line.specs.Texts.{full_text};

use acc_base::{OutOfMemory, push_number};
use acc_message::{Items, Note, Path, Shown};

/// What is counted.
#[derive(Clone, Copy, Debug)]
pub(crate) enum Tally {
    /// Transactions that were begun.
    Begins,
    /// Replies to clients.
    Replies,
    /// Decisions by a path.
    Decisions(Path),
}

/// How many notes there are of each that is counted.
#[derive(Debug, Drop)]
pub(crate) struct Counts {
    begins: u64,
    replies: u64,
    fast: u64,
    slow: u64,
    recovered: u64,
    adopted: u64,
}

/// Appends the last line.
pub(crate) fn push_last(text: &mut Vec<u8>, all: &Counts) -> Result<(), OutOfMemory>
    ensures { OnOk result (text.new.items ≡ text.old.items ++ full_text (last_line_of all.now)) }
{
    let begins = all.number(Tally::Begins);
    let replies = all.number(Tally::Replies);
    text.extend_from_slice(b"end txns=")?;
    push_number(text, begins)?;
    text.extend_from_slice(b" replied=")?;
    push_number(text, replies)?;
    text.extend_from_slice(b" open=")?;
    push_number(text, begins.saturating_sub(replies))?;
    text.push(b'\n')?;
    Ok(())
}

/// Appends the line that counts the decisions of each path.
pub(crate) fn push_decided(text: &mut Vec<u8>, all: &Counts) -> Result<(), OutOfMemory>
    ensures { OnOk result (text.new.items ≡ text.old.items ++ full_text (decided_line_of all.now)) }
{
    push_decisions(text, b"decided fast=", all, Path::Fast)?;
    push_decisions(text, b" slow=", all, Path::Slow)?;
    push_decisions(text, b" recovered=", all, Path::Recovered)?;
    push_decisions(text, b" adopted=", all, Path::Adopted)?;
    text.push(b'\n')?;
    Ok(())
}

fn push_decisions(
    text: &mut Vec<u8>,
    word: &[u8],
    all: &Counts,
    path: Path,
) -> Result<(), OutOfMemory>
    ensures { OnOk result (text.new.items ≡ text.old.items ++ (word.now ++ decimal (counted all.now (Decisions path)))) }
{
    text.extend_from_slice(word)?;
    push_number(text, all.number(Tally::Decisions(path)))
}

impl Counts {
    // Nothing is counted yet.
    fn none() -> Counts
        ensures { (what : AnyTally) → counted result what ≡ 0 }
    {
        Counts {
            begins: 0,
            replies: 0,
            fast: 0,
            slow: 0,
            recovered: 0,
            adopted: 0,
        }
    }

    /// How many notes of the items are counted as each. More than 64 bits hold don't fit in memory, and are refused as memory is.
    pub(crate) fn of(items: &Items) -> Result<Counts, OutOfMemory>
        ensures last { IfOk result (λ all. last_line_of all ≡ last_line (notes_of (reverse items.now))) }
        ensures decided { IfOk result (λ all. decided_line_of all ≡ decided_line (notes_of (reverse items.now))) }
    {
        let all = Counts::count(items)?;
        Ok(all)
    }

    fn count(items: &Items) -> Result<Counts, OutOfMemory>
        ensures { IfOk result (λ all. AreCounts all (notes_of (reverse items.now))) }
    {
        let mut all = Counts::none();
        for place in 0..items.len() {
            all.add_item(items.shown(place))?;
        }
        Ok(all)
    }

    // Counts the notes of an item too.
    fn add_item(&mut self, item: Shown<'_>) -> Result<(), OutOfMemory>
        ensures { OnOk result ((out : List Message) (what : AnyTally) → counted self.new what ≡ counted self.old what + count_by (counts what) (noted_in (with_sent item.entry out))) }
    {
        match item {
            Shown::Step { notes, .. } => self.add_notes(notes),
            Shown::Skipped { .. } | Shown::Down { .. } => Ok(()),
        }
    }

    fn add_notes(&mut self, notes: &[Note]) -> Result<(), OutOfMemory>
        ensures { OnOk result ((what : AnyTally) → counted self.new what ≡ counted self.old what + count_by (counts what) notes.now) }
    {
        for note in notes {
            self.add(note)?;
        }
        Ok(())
    }

    fn add(&mut self, note: &Note) -> Result<(), OutOfMemory>
        ensures { OnOk result (self.new ≡ counts_with self.old note.now) }
    {
        match note {
            Note::Begin { .. } => self.begins = one_more(self.begins)?,
            Note::Reply { .. } => self.replies = one_more(self.replies)?,
            Note::Decide { path, .. } => match path {
                Path::Fast => self.fast = one_more(self.fast)?,
                Path::Slow => self.slow = one_more(self.slow)?,
                Path::Recovered => self.recovered = one_more(self.recovered)?,
                Path::Adopted => self.adopted = one_more(self.adopted)?,
            },
            Note::Recover { .. }
            | Note::Blocked { .. }
            | Note::Ended { .. }
            | Note::Outcome { .. } => {}
        }
        Ok(())
    }

    // How many notes are counted as this.
    fn number(&self, what: Tally) -> u64
        ensures { result ≡ counted self.now what }
    {
        match what {
            Tally::Begins => self.begins,
            Tally::Replies => self.replies,
            Tally::Decisions(Path::Fast) => self.fast,
            Tally::Decisions(Path::Slow) => self.slow,
            Tally::Decisions(Path::Recovered) => self.recovered,
            Tally::Decisions(Path::Adopted) => self.adopted,
        }
    }
}

fn one_more(number: u64) -> Result<u64, OutOfMemory>
    ensures { IfOk result (λ more. more ≡ number + 1) }
{
    match number.checked_add(1) {
        Some(more) => Ok(more),
        None => Err(OutOfMemory),
    }
}
