//! Room for what a disk in memory holds.
ghost use Rattle.std.specs.Prelude.{◌≡◌, ◌++◌, OnOk, OnErr};

use acc_base::OutOfMemory;

/// Content that is shorter than this grows by doubling.
const SHORT: usize = 8_192;

/// Longer content grows by this much at least. The C library maps a block of such a size, and moves the map when the block grows, in
/// place of its bytes; what is never touched of it takes no memory.
const STEP: usize = 4_194_304;

/// Appends bytes. Without memory for a whole step it asks for what it needs, and without that the content is as before.
pub(crate) fn append(content: &mut Vec<u8>, bytes: &[u8]) -> Result<(), OutOfMemory>
    ensures ok { OnOk result (content.new.items ≡ content.old.items ++ bytes.now) }
    ensures err { OnErr result (content.new.items ≡ content.old.items) }
{
    if bytes.is_empty() {
        return Ok(());
    }
    let length = content.len();
    if content.capacity() - length < bytes.len() && length >= SHORT {
        let _step = content.reserve(bytes.len().max(STEP));
    }
    content.extend_from_slice(bytes)?;
    Ok(())
}
