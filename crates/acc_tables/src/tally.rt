//! How many answers are as wanted.
use anyhow::{Result, ensure};
use std::io;

/// How many lines were read, how many of them ask for answers, and how many of these are as wanted.
#[derive(Clone, Copy)]
pub struct Tally {
    lines: u64,
    all: u64,
    agree: u64,
}

impl Tally {
    /// Nothing read yet.
    pub fn new() -> Tally {
        Tally {
            lines: 0,
            all: 0,
            agree: 0,
        }
    }

    /// The number of the next line.
    pub fn next_line(&mut self) -> u64 {
        self.lines = self.lines.saturating_add(1);
        self.lines
    }

    /// Counts whether the answers of this line are as wanted. None for a heading.
    pub fn count(&mut self, rt: &impl Print, agrees: Option<bool>) -> io::Result<()> {
        let Some(agrees) = agrees else {
            return Ok(());
        };
        self.all = self.all.saturating_add(1);
        if agrees {
            self.agree = self.agree.saturating_add(1);
            return Ok(());
        }
        println!(rt; "line {}: other answers", self.lines)
    }

    /// Tells the counts. Fails where some answers differ.
    pub fn end(&self, rt: &impl Print) -> Result<()> {
        let Tally { all, agree, .. } = self;
        println!(rt; "as wanted: {agree} of {all}")?;
        ensure!(agree == all, "some answers differ");
        Ok(())
    }
}
