//! The text of sums and of the names in them.
ghost use Rattle.std.specs.Prelude.{◌≡◌, ◌++◌, OnOk};
ghost use Rattle.acc_print.specs.Canonical.{name_of, cell_text, term_text, sign_text, signed_text, sum_text};

use crate::keys::push_quoted;
use acc_base::{OutOfMemory, push_signed_number};
use acc_txn::{Let, Part, Term};

/// Appends a sum. Its first term has no sign.
pub fn push_sum(text: &mut Vec<u8>, lets: &[Let], sum: &[Part]) -> Result<(), OutOfMemory>
    ensures { OnOk result (text.new.items ≡ text.old.items ++ sum_text lets.now sum.now) }
{
    let Some((first, others)) = sum.split_first() else {
        return Ok(());
    };
    push_term(text, lets, &first.term)?;
    for part in others {
        push_signed(text, lets, part)?;
    }
    Ok(())
}

/// Appends a term after the first, with its sign.
fn push_signed(text: &mut Vec<u8>, lets: &[Let], part: &Part) -> Result<(), OutOfMemory>
    ensures { OnOk result (text.new.items ≡ text.old.items ++ signed_text lets.now part.now) }
{
    text.extend_from_slice(sign(part.minus))?;
    push_term(text, lets, &part.term)
}

fn sign(minus: bool) -> &'static [u8]
    ensures { result.now ≡ sign_text minus }
{
    if minus { b" - " } else { b" + " }
}

fn push_term(text: &mut Vec<u8>, lets: &[Let], term: &Term) -> Result<(), OutOfMemory>
    ensures { OnOk result (text.new.items ≡ text.old.items ++ term_text lets.now term.now) }
{
    match term {
        Term::Number(number) => push_signed_number(text, *number),
        Term::Name(number) => push_cell(text, lets, *number),
        Term::Null => Ok(text.extend_from_slice(b"NULL")?),
        Term::Text(value) => push_quoted(text, value.as_slice()),
    }
}

/// Appends the cell of a name, which is given by the number of its LET.
pub fn push_cell(text: &mut Vec<u8>, lets: &[Let], number: u8) -> Result<(), OutOfMemory>
    ensures { OnOk result (text.new.items ≡ text.old.items ++ cell_text lets.now number) }
{
    text.extend_from_slice(name(lets, number))?;
    text.extend_from_slice(b".v")?;
    Ok(())
}

fn name(lets: &[Let], number: u8) -> &[u8]
    ensures { result.now ≡ name_of lets.now number }
{
    match lets.get(number as usize) {
        Some(binding) => binding.name.as_slice(),
        None => b"",
    }
}
