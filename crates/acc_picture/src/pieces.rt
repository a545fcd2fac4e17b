//! The pieces of which the text of a picture is put together.
use acc_base::{OutOfMemory, push_number};
use acc_stamp::{Actor, Stamp};

/// A piece of text.
#[derive(Clone, Copy, Debug)]
pub(crate) enum Piece<'a> {
    /// Text as it stands.
    Raw(&'a str),
    /// A number in decimal.
    Number(u64),
    /// Bytes of a document, escaped.
    Escaped(&'a [u8]),
    /// A timestamp.
    Stamp(Stamp),
    /// An actor.
    Actor(Actor),
}

/// Appends pieces in their order.
pub(crate) fn put(text: &mut Vec<u8>, pieces: &[Piece<'_>]) -> Result<(), OutOfMemory> {
    for piece in pieces {
        put_one(text, *piece)?;
    }
    Ok(())
}

fn put_one(text: &mut Vec<u8>, piece: Piece<'_>) -> Result<(), OutOfMemory> {
    match piece {
        Piece::Raw(raw) => Ok(text.extend_from_slice(raw.as_bytes())?),
        Piece::Number(number) => push_number(text, number),
        Piece::Escaped(bytes) => push_escaped(text, bytes),
        Piece::Stamp(stamp) => push_stamp(text, stamp),
        Piece::Actor(actor) => push_actor(text, actor),
    }
}

fn push_stamp(text: &mut Vec<u8>, stamp: Stamp) -> Result<(), OutOfMemory> {
    push_number(text, stamp.h)?;
    text.push(b'.')?;
    push_number(text, u64::from(stamp.origin))
}

fn push_actor(text: &mut Vec<u8>, actor: Actor) -> Result<(), OutOfMemory> {
    push_number(text, u64::from(actor.node()))?;
    if actor.shard() != 0 {
        text.push(b'.')?;
        push_number(text, u64::from(actor.shard()))?;
    }
    Ok(())
}

/// Appends bytes as text of XML and of HTML, between tags as well as in an attribute. A control character, and each of the
/// two characters that XML forbids at the end of the plane, becomes the replacement character; bytes that aren't UTF-8 become a
/// question mark.
pub(crate) fn push_escaped(text: &mut Vec<u8>, bytes: &[u8]) -> Result<(), OutOfMemory> {
    if std::str::from_utf8(bytes).is_err() {
        return Ok(text.push(b'?')?);
    }
    let mut before = (0, 0);
    for byte in bytes {
        push_byte(text, before, *byte)?;
        before = (before.1, *byte);
    }
    Ok(())
}

// Appends one byte of UTF-8 after the two bytes before it.
fn push_byte(text: &mut Vec<u8>, before: (u8, u8), byte: u8) -> Result<(), OutOfMemory> {
    match byte {
        b'&' => text.extend_from_slice(b"&amp;")?,
        b'<' => text.extend_from_slice(b"&lt;")?,
        b'>' => text.extend_from_slice(b"&gt;")?,
        b'"' => text.extend_from_slice(b"&quot;")?,
        b'\'' => text.extend_from_slice(b"&#39;")?,
        0..=31 | 127 => text.extend_from_slice(b"\xef\xbf\xbd")?,
        0xbe | 0xbf if before == (0xef, 0xbf) => text.push(0xbd)?,
        _ => text.push(byte)?,
    }
    Ok(())
}
