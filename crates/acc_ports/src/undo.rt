//! Writes that can be taken back.
ghost use Rattle.std.specs.Prelude.{◌≡◌, ◌+◌, ◌≤◌, [], ◌∷◌, ◌++◌, length, reverse, vec_len, OnOk, OnErr};
ghost use Rattle.acc_ports.specs.Disk.{overwritten};
ghost use Rattle.acc_ports.specs.Strict.{IsFilled};
ghost use Rattle.acc_ports.specs.Undo.{synced_of, ranges_of, CanUndo, CanCrash};

use crate::room::append;
use crate::saved::Saved;
use crate::surface::Write;
use acc_base::OutOfMemory;

/// Writes bytes over some of the content.
pub(crate) fn overwrite(content: &mut Vec<u8>, at: usize, bytes: &[u8])
    requires { at + length bytes.now ≤ vec_len content.old }
    ensures { content.new.items ≡ overwritten at bytes.now content.old.items }
{
    match bytes {
        [] => {}
        [byte] => content[at] = *byte,
        _ => content[at..at + bytes.len()].copy_from_slice(bytes),
    }
}

/// Writes bytes at a place, over the content and past its end, and notes what takes that back. Without memory all is as
/// before.
pub(crate) fn write_over(
    content: &mut Vec<u8>,
    writes: &mut Vec<Write>,
    at: usize,
    bytes: &[u8],
) -> Result<(), OutOfMemory>
    requires inside { at ≤ vec_len content.old }
    requires can { CanCrash writes.old.items content.old.items }
    ensures content { OnOk result (content.new.items ≡ overwritten at bytes.now content.old.items) }
    ensures written { OnOk result (ranges_of writes.new.items ≡ ranges_of writes.old.items ++ (at, length bytes.now) ∷ []) }
    ensures synced { OnOk result (synced_of writes.new.items content.new.items ≡ synced_of writes.old.items content.old.items) }
    ensures can { OnOk result (CanCrash writes.new.items content.new.items) }
    ensures same_content { OnErr result (content.new.items ≡ content.old.items) }
    ensures same_writes { OnErr result (writes.new.items ≡ writes.old.items) }
{
    let before = content.len();
    let count = bytes.len();
    let over = count.min(before - at);
    let saved = Saved::of(*content.allocator(), &content[at..at + over])?;
    append(content, &bytes[over..])?;
    let write = Write {
        at,
        count,
        before,
        saved,
    };
    let Ok(()) = writes.push(write) else {
        content.truncate(before);
        return Err(OutOfMemory);
    };
    overwrite(content, at, &bytes[..over]);
    Ok(())
}

/// Notes a write that failed. Without memory for that all is as before.
pub(crate) fn note_failure(
    content: &[u8],
    writes: &mut Vec<Write>,
    at: usize,
    count: usize,
) -> Result<(), OutOfMemory>
    requires inside { at ≤ length content.now }
    requires can { CanCrash writes.old.items content.now }
    ensures written { OnOk result (ranges_of writes.new.items ≡ ranges_of writes.old.items ++ (at, count) ∷ []) }
    ensures synced { OnOk result (synced_of writes.new.items content.now ≡ synced_of writes.old.items content.now) }
    ensures can { OnOk result (CanCrash writes.new.items content.now) }
    ensures same { OnErr result (writes.new.items ≡ writes.old.items) }
{
    let before = content.len();
    let saved = Saved::nothing(*writes.allocator());
    writes.push(Write {
        at,
        count,
        before,
        saved,
    })?;
    Ok(())
}

/// Takes all writes back, the newest first.
pub(crate) fn take_back(content: &mut Vec<u8>, writes: &mut Vec<Write>)
    requires { CanUndo (reverse writes.old.items) content.old.items }
    ensures content { content.new.items ≡ synced_of writes.old.items content.old.items }
    ensures none { writes.new.items ≡ [] }
{
    while let Some(write) = writes.pop() {
        write.saved.put_back(content, write.at);
        content.truncate(write.before);
    }
}

/// Puts a byte in the place of each that was written.
pub(crate) fn fill(content: &mut Vec<u8>, writes: &[Write], byte: u8)
    ensures { IsFilled byte (ranges_of writes.now) content.old.items content.new.items }
{
    for write in writes {
        fill_range(content, write.at, write.count, byte);
    }
}

/// Puts a byte at each of so many places, as far as there is content.
fn fill_range(content: &mut Vec<u8>, at: usize, count: usize, byte: u8)
    ensures { IsFilled byte ((at, count) ∷ []) content.old.items content.new.items }
{
    let from = at.min(content.len());
    let room = content.len() - from;
    for place in from..from + count.min(room) {
        content[place] = byte;
    }
}
