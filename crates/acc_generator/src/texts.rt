//! The texts of transactions.
ghost use Rattle.std.specs.Prelude.{◌≡◌, ◌++◌, string_bytes, OnOk};
ghost use Rattle.acc_generator.specs.Texts.{end_text, first_text, later_text, state_behind, text_from};

use crate::draws::Draws;
use std::alloc::AllocError;

// How many keys there are. The first transactions set one each.
const KEYS: u64 = 64;

/// Makes a text that of the transaction of this number. It takes the draws that it needs.
pub(crate) fn set_text(text: &mut String, number: u32, draws: &mut Draws) -> Result<(), AllocError>
    ensures text { OnOk result (string_bytes text.new ≡ text_from draws.old.state number) }
    ensures behind { draws.new.state ≡ state_behind draws.old.state number }
{
    text.clear();
    let key = u64::from(number);
    if key < KEYS {
        push_first(text, key)
    } else {
        let read = draws.draw() % KEYS;
        let written = draws.draw() % KEYS;
        let added = draws.draw() % 100;
        push_later(text, read, written, added)
    }
}

// Sets a key to its number.
fn push_first(text: &mut String, key: u64) -> Result<(), AllocError>
    ensures { OnOk result (string_bytes text.new ≡ string_bytes text.old ++ first_text key) }
{
    write!(text, "BEGIN TRANSACTION UPDATE t SET v = {key}")?;
    push_end(text, key)
}

// Sets a key to the cell of another one, and a number more.
fn push_later(text: &mut String, read: u64, written: u64, added: u64) -> Result<(), AllocError>
    ensures { OnOk result (string_bytes text.new ≡ string_bytes text.old ++ later_text read written added) }
{
    write!(
        text,
        "BEGIN TRANSACTION LET r = (SELECT v FROM t WHERE k = 'k{}{}')",
        read / 10,
        read % 10
    )?;
    write!(text, "; SELECT r.v; UPDATE t SET v = r.v + {added}")?;
    push_end(text, written)
}

// Ends an update of a key, and its transaction.
fn push_end(text: &mut String, key: u64) -> Result<(), AllocError>
    ensures { OnOk result (string_bytes text.new ≡ string_bytes text.old ++ end_text key) }
{
    write!(
        text,
        " WHERE k = 'k{}{}'; COMMIT TRANSACTION",
        key / 10,
        key % 10
    )
}
