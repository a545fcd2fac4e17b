//! The last line of a report.
ghost use Rattle.std.specs.Prelude.{◌≡◌, ◌<◌, ◌==◌, ◌+◌, ◌^◌, ◌&&◌, false, not, count_by, if◌then◌else◌};
ghost use Rattle.acc_audit.specs.Rules.{has_counts as has_counts_of, rules};
ghost use Rattle.acc_audit.specs.Said.{is_begin as is_begin_line, is_reply as is_reply_line};

use crate::steps::last_rule;
use acc_report_reader::{PlacedForm, PlacedLine};

/// A line that ends the report, with the counts of its lines.
pub(crate) fn end(
    lines: &[PlacedLine<'_>],
    txns: u64,
    replied: u64,
    unreplied: u64,
    last: bool,
) -> Option<u32>
    ensures { result ≡ rules false false false false false false (not (last && has_counts_of lines.now txns replied unreplied)) }
{
    last_rule(!(last && has_counts(lines, txns, replied, unreplied)))
}

// Whether so many of the lines begin transactions and so many are replies, and whether the sum is right.
fn has_counts(lines: &[PlacedLine<'_>], txns: u64, replied: u64, unreplied: u64) -> bool
    ensures { result ≡ has_counts_of lines.now txns replied unreplied }
{
    txns == begins(lines) && replied == replies(lines) && is_sum(replied, unreplied, txns)
}

fn begins(lines: &[PlacedLine<'_>]) -> u64
    ensures { result ≡ count_by is_begin_line lines.now }
{
    let mut count = 0;
    for place in 0..lines.len() {
        count = plus(count, is_begin(&lines[place]));
    }
    count
}

fn is_begin(line: &PlacedLine<'_>) -> bool
    ensures { result ≡ is_begin_line line.now }
{
    match line.form() {
        PlacedForm::Begin { .. } => true,
        _ => false,
    }
}

fn replies(lines: &[PlacedLine<'_>]) -> u64
    ensures { result ≡ count_by is_reply_line lines.now }
{
    let mut count = 0;
    for place in 0..lines.len() {
        count = plus(count, is_reply(&lines[place]));
    }
    count
}

fn is_reply(line: &PlacedLine<'_>) -> bool
    ensures { result ≡ is_reply_line line.now }
{
    match line.form() {
        PlacedForm::Reply { .. } => true,
        _ => false,
    }
}

fn plus(count: u64, more: bool) -> u64
    requires { count + 1 < 2 ^ 64 }
    ensures { result ≡ count + (if more then 1 else 0) }
{
    if more { count + 1 } else { count }
}

fn is_sum(a: u64, b: u64, sum: u64) -> bool
    ensures { result ≡ (a + b == sum) }
{
    match a.checked_add(b) {
        Some(total) => total == sum,
        None => false,
    }
}
