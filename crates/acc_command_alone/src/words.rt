//! The words of a command line.
ghost use Rattle.std.specs.Prelude.{◌≡◌, ◌↔◌, ◌≤◌, [], ◌∷◌, IsTrue, IfOk};
ghost use Rattle.acc_command_alone.specs.Words.{IsAuditLine, IsGlanceLine, IsLineOf, IsDocumentLineOf, IsHealLine, IsLeaveLine, IsNumbersOf, IsResumeLine, IsWorkersOf};

use crate::{seed, txns, workers};
use acc_base::{OutOfMemory, Text};
use std::alloc::Global;

/// A command that reads a document.
#[derive(Clone, Copy, Debug, PartialEq, Eq)]
pub enum Command {
    /// From a document to the report of its run.
    Run,
    /// From a document to how many nodes, shards, transactions and steps it has.
    Check,
}

/// The seed of a generated document, and how many transactions it has.
#[derive(Clone, Copy, Debug, PartialEq, Eq)]
pub struct Numbers {
    /// The seed.
    pub seed: u64,
    /// How many transactions.
    pub txns: u32,
}

/// A line of words that asks for no threads.
#[derive(Clone, Copy, Debug, PartialEq, Eq)]
pub enum Line {
    /// A command that reads a document.
    Document(Command),
    /// The command that runs a document and heals what its run left open.
    Heal,
    /// The command that runs a document and writes it again with the journals of its run.
    Leave,
    /// The command that goes on from the journals of a document.
    Resume,
    /// The command that judges a report.
    Audit,
    /// The command that runs a document with looks.
    Glance,
    /// The command that makes a document.
    Generate(Numbers),
}

/// How many workers these words ask for, if they are the line that shares a document among threads. `OutOfMemory` says nothing of the
/// words.
pub fn workers_of(alloc: Global, words: &[Text]) -> Result<Option<u8>, OutOfMemory>
    ensures { IfOk result (IsWorkersOf words.now) }
{
    let [command, option, word] = words else {
        return Ok(None);
    };
    if !is(command, b"free") || !is(option, b"--workers") {
        return Ok(None);
    }
    workers(alloc, word.as_slice())
}

/// The line that these words are, if it asks for no threads.
pub(crate) fn line_of(alloc: Global, words: &[Text]) -> Result<Option<Line>, OutOfMemory>
    ensures { IfOk result (IsLineOf words.now) }
{
    if let Some(command) = document_line(words) {
        return Ok(Some(Line::Document(command)));
    }
    if is_heal_line(words) {
        return Ok(Some(Line::Heal));
    }
    if is_leave_line(words) {
        return Ok(Some(Line::Leave));
    }
    if is_resume_line(words) {
        return Ok(Some(Line::Resume));
    }
    if is_audit_line(words) {
        return Ok(Some(Line::Audit));
    }
    if is_glance_line(words) {
        return Ok(Some(Line::Glance));
    }
    match generate_line(alloc, words)? {
        Some(numbers) => Ok(Some(Line::Generate(numbers))),
        None => Ok(None),
    }
}

// The command of these words, if it is one of these.
fn document_line(words: &[Text]) -> Option<Command>
    ensures { IsDocumentLineOf words.now result }
{
    let [word] = words else {
        return None;
    };
    if is(word, b"run") {
        Some(Command::Run)
    } else if is(word, b"check") {
        Some(Command::Check)
    } else {
        None
    }
}

// Whether these words are the line that heals.
fn is_heal_line(words: &[Text]) -> bool
    ensures { IsTrue result ↔ IsHealLine words.now }
{
    let [word] = words else {
        return false;
    };
    is(word, b"heal")
}

// Whether these words are the line that leaves journals.
fn is_leave_line(words: &[Text]) -> bool
    ensures { IsTrue result ↔ IsLeaveLine words.now }
{
    let [word] = words else {
        return false;
    };
    is(word, b"leave")
}

// Whether these words are the line that goes on from journals.
fn is_resume_line(words: &[Text]) -> bool
    ensures { IsTrue result ↔ IsResumeLine words.now }
{
    let [word] = words else {
        return false;
    };
    is(word, b"resume")
}

// Whether these words judge a report.
fn is_audit_line(words: &[Text]) -> bool
    ensures { IsTrue result ↔ IsAuditLine words.now }
{
    let [word] = words else {
        return false;
    };
    is(word, b"audit")
}

// Whether these words run a document with looks.
fn is_glance_line(words: &[Text]) -> bool
    ensures { IsTrue result ↔ IsGlanceLine words.now }
{
    let [word] = words else {
        return false;
    };
    is(word, b"glance")
}

// The numbers of these words, if they are the line that makes a document.
fn generate_line(alloc: Global, words: &[Text]) -> Result<Option<Numbers>, OutOfMemory>
    ensures { IfOk result (IsNumbersOf words.now) }
{
    let [command, seed_option, seed_word, txns_option, txns_word] = words else {
        return Ok(None);
    };
    if !is(command, b"gen") || !is(seed_option, b"--seed") || !is(txns_option, b"--txns") {
        return Ok(None);
    }
    let Some(seed) = seed(alloc, seed_word.as_slice())? else {
        return Ok(None);
    };
    match txns(alloc, txns_word.as_slice())? {
        Some(txns) => Ok(Some(Numbers { seed, txns })),
        None => Ok(None),
    }
}

fn is(word: &Text, expected: &[u8]) -> bool
    ensures { IsTrue result ↔ (word.now ≡ expected.now) }
{
    word.as_slice() == expected
}
