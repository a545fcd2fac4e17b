//! The words of the command line.
use acc_base::{OutOfMemory, Sequence, Text};
use acc_picture::Choice;
use clap::builder::ValueParser;
use clap::error::ErrorKind;
use clap::{Arg, ArgAction, ArgMatches, Command};
use std::alloc::{AllocError, Global};
use std::env::Env;
use std::{env, io};

/// What is to be drawn, and in which form.
#[derive(Debug, Drop)]
pub(crate) struct Wish {
    /// Which items are drawn.
    pub(crate) choice: Choice,
    /// Whether a page is wanted, and not the picture alone.
    pub(crate) page: bool,
}

/// What the words of the command line ask for, or nothing where they are no words of this program.
pub(crate) fn read_words<R: Env + AllocGlobal>(rt: &R) -> Result<Option<Wish>, OutOfMemory> {
    let alloc = rt.alloc();
    let args: Vec<String> = match env::args(rt) {
        Ok(args) => args.collect(alloc)?,
        Err(error) if error.kind() == io::ErrorKind::OutOfMemory => return Err(OutOfMemory),
        Err(_) => return Ok(None),
    };
    match args.as_slice().split_first() {
        Some((_, rest)) => parse(alloc, rest),
        None => Ok(None),
    }
}

fn parse(alloc: Global, words: &[String]) -> Result<Option<Wish>, OutOfMemory> {
    let line = line(alloc)?;
    match line.try_get_matches_from(words) {
        Ok(matches) => Ok(Some(found(alloc, &matches)?)),
        Err(error) if error.kind() == ErrorKind::OutOfMemory => Err(OutOfMemory),
        Err(_) => Ok(None),
    }
}

// The options that there are.
fn line<'a>(alloc: Global) -> Result<Command<'a>, AllocError> {
    Command::new(alloc, "accord_picture")
        .no_binary_name(true)
        .arg(number(alloc, "from"))?
        .arg(number(alloc, "to"))?
        .arg(
            Arg::new(alloc, "only")
                .long("only")
                .action(ArgAction::Append),
        )?
        .arg(
            Arg::new(alloc, "page")
                .long("page")
                .action(ArgAction::SetTrue),
        )
}

// An option with a number.
fn number<'a>(alloc: Global, name: &'a str) -> Arg<'a> {
    Arg::new(alloc, name)
        .long(name)
        .action(ArgAction::Set)
        .value_parser(ValueParser::unsigned(0, u64::MAX))
}

fn found(alloc: Global, matches: &ArgMatches<'_>) -> Result<Wish, OutOfMemory> {
    let mut only = Sequence::new(alloc);
    if let Some(names) = matches.get_strs("only") {
        for name in names {
            only.push(Text::from_slice(alloc, name.as_bytes())?)?;
        }
    }
    Ok(Wish {
        choice: Choice {
            from: matches.get_one::<u64>("from").unwrap_or(0),
            to: matches.get_one::<u64>("to").unwrap_or(u64::MAX),
            only,
        },
        page: matches.get_flag("page"),
    })
}
