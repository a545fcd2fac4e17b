//! A number as `clap` reads it.
ghost use Rattle.std.specs.Prelude.{◌≡◌, IfOk};
ghost use Rattle.clap.specs.Words.{app_of};
ghost use Rattle.acc_command_alone.specs.Number.{IsNumberOf};
ghost use Rattle.acc_command_alone.specs.Reader.{number_app};

use acc_base::OutOfMemory;
use clap::builder::ValueParser;
use clap::error::ErrorKind;
use clap::{Arg, ArgAction, Command};
use std::alloc::{AllocError, Global};

/// The number that a word spells, or nothing where it spells none from `least` to `most`.
pub(crate) fn number(
    alloc: Global,
    word: &str,
    least: u64,
    most: u64,
) -> Result<Option<u64>, OutOfMemory>
    ensures { IfOk result (IsNumberOf least most word.now) }
{
    let reader = reader_of(alloc, least, most)?;
    // After `--` a word is a value, whatever it looks like.
    let words = ["--", word];
    match reader.try_get_matches_from(&words) {
        Ok(matches) => Ok(matches.get_one::<u64>("number")),
        Err(error) if error.kind() == ErrorKind::OutOfMemory => Err(OutOfMemory),
        Err(_) => Ok(None),
    }
}

// The command line of one number.
fn reader_of<'a>(alloc: Global, least: u64, most: u64) -> Result<Command<'a>, AllocError>
    ensures { IfOk result (λ reader. app_of reader ≡ number_app least most) }
{
    let number = Arg::new(alloc, "number")
        .required(true)
        .action(ArgAction::Set)
        .value_parser(ValueParser::unsigned(least, most));
    Command::new(alloc, "option")
        .no_binary_name(true)
        .arg(number)
}
