//! Values as texts, in a form of this table's own.
mod cells;
mod messages;
mod outcomes;
mod records;

use acc_base::OutOfMemory;
pub use messages::told_message;
pub use outcomes::told_outcome;

/// Appends a piece to a text.
fn push(text: &mut Vec<u8>, piece: &str) -> Result<(), OutOfMemory> {
    text.extend_from_slice(piece.as_bytes())?;
    Ok(())
}
