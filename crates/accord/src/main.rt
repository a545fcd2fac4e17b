//! The program: the commands over standard input and output, disks in memory, and a gate that holds nobody.
#![tactic(auto)]

ghost use Rattle.std.specs.Prelude.{◌≡◌, IfOk, drop, map, string_bytes};
ghost use Rattle.std.specs.Process.{exit_status};
ghost use Rattle.acc_command_alone.specs.Ends.{code_of};

use acc_base::{OutOfMemory, Sequence, Text};
use acc_command::accord;
use acc_command_alone::{Remains, Status};
use acc_ports::{MemMaker, OpenGate, StdSink, StdSource};
use std::alloc::Global;
use std::env::Env;
use std::process::ExitCode;
use std::{env, io, mem};

/// A word as a text.
fn text_of(alloc: Global, word: &String) -> Result<Text, OutOfMemory>
    ensures { IfOk result (λ text. text ≡ string_bytes word.now) }
{
    Sequence::from_slice(alloc, word.as_bytes())
}

/// Words as texts, in their order.
fn texts_of(alloc: Global, words: &[String]) -> Result<Sequence<Text>, OutOfMemory>
    ensures { IfOk result (λ texts. texts ≡ map string_bytes words.now) }
{
    let mut texts = Sequence::new(alloc);
    for word in words {
        texts.push(text_of(alloc, word)?)?;
    }
    Ok(texts)
}

/// The words after the first, which is the program's name.
fn behind_name(alloc: Global, args: &[String]) -> Result<Sequence<Text>, OutOfMemory>
    ensures { IfOk result (λ words. words ≡ map string_bytes (drop 1 args.now)) }
{
    match args.split_first() {
        Some((_, rest)) => texts_of(alloc, rest),
        None => Ok(Sequence::new(alloc)),
    }
}

/// The words of the command line. A word that isn't UTF-8 is none that is defined, so it gives no words at all, which are
/// refused as well.
fn words<R: Env + AllocGlobal>(rt: &R) -> Result<Sequence<Text>, OutOfMemory> {
    let alloc = rt.alloc();
    let args: Vec<String> = match env::args(rt) {
        Ok(args) => args.collect(alloc)?,
        Err(error) if error.kind() == io::ErrorKind::OutOfMemory => return Err(OutOfMemory),
        Err(_) => Vec::new(alloc),
    };
    behind_name(alloc, args.as_slice())
}

/// The exit code that tells a status.
fn exit_code(status: Status) -> ExitCode
    ensures { exit_status result ≡ code_of status }
{
    ExitCode::from(status.code())
}

/// Runs the command that the words name.
fn main(rt: HostRuntime) -> ExitCode {
    let mut source = StdSource::new(&rt);
    let mut sink = StdSink::new(&rt);
    let mut disks = MemMaker::new(rt.alloc());
    let mut remains = Remains::new(rt.alloc());
    let status = match words(&rt) {
        Ok(words) => accord(
            &rt,
            words.as_slice(),
            &mut source,
            &mut sink,
            &mut disks,
            &OpenGate,
            &mut remains,
        ),
        Err(OutOfMemory) => Status::OutOfMemory,
    };
    // The process ends here, and its memory goes back at once.
    mem::forget(remains);
    exit_code(status)
}
