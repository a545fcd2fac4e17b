//! The program: the picture of a document's run, from standard input to standard output, with disks in memory.
#![tactic(auto)]

mod draw;
mod words;

use crate::draw::draw_run;
use acc_command_alone::Status;
use acc_ports::{StdSink, StdSource};
use std::process::ExitCode;

/// Draws the run of the document that standard input has.
fn main(rt: HostRuntime) -> ExitCode {
    let mut source = StdSource::new(&rt);
    let mut sink = StdSink::new(&rt);
    let status = match words::read_words(&rt) {
        Ok(wish) => draw_run(rt.alloc(), wish, &mut source, &mut sink),
        Err(_) => Status::OutOfMemory,
    };
    ExitCode::from(status.code())
}
