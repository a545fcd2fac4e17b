//! Where in a document a fault stands. The text of a place is made only at a fault.
ghost use Rattle.std.specs.Prelude.{◌≡◌, [], ◌∷◌, ◌++◌, map, IfOk, OnOk};
ghost use Rattle.acc_schedule.specs.declared.error.PlanError.TheVariants.{Bad};
ghost use Rattle.acc_schedule.specs.Faults.{fault, unknown_field, IsFault};
ghost use Rattle.acc_document_fields.specs.Parts.{part_text};
ghost use Rattle.acc_schedule.specs.Paths.{escaped, escaped_byte, path_text, pointer};

use acc_base::{OutOfMemory, Sequence, Text, push_number};
use acc_schedule::{PlanError, PlanKind};
use std::alloc::Global;

/// A part of a path: the name of a field, or a place in an array, from 0. A name stands in the path as it is: it is one that a
/// program knows, without `~` and `/`; names that come from a document are escaped (`unknown`).
#[derive(Clone, Copy)]
pub enum Part<'p> {
    Field(&'p str),
    Place(usize),
}

/// The fault that something of this kind is wrong at the path.
pub fn wrong(alloc: Global, kind: PlanKind, path: &[Part<'_>]) -> PlanError
    ensures { IsFault (fault kind (map part_text path.now)) result }
{
    detailed(alloc, kind, path, 0, 0)
}

/// The same, with the number of another crate's fault and where in a text it stands.
pub fn detailed(alloc: Global, kind: PlanKind, path: &[Part<'_>], detail: u32, at: u64) -> PlanError
    ensures { IsFault (Some (Bad kind (path_text (map part_text path.now)) detail at)) result }
{
    match text(alloc, path) {
        Ok(path) => PlanError::Bad {
            kind,
            path,
            detail,
            at,
        },
        Err(OutOfMemory) => PlanError::OutOfMemory,
    }
}

/// The fault that the object at the path has a field of this name.
pub fn unknown(alloc: Global, path: &[Part<'_>], name: &str) -> PlanError
    ensures { IsFault (unknown_field (map part_text path.now) name.now) result }
{
    match unknown_text(alloc, path, name) {
        Ok(path) => PlanError::Bad {
            kind: PlanKind::Shape,
            path,
            detail: 0,
            at: 0,
        },
        Err(OutOfMemory) => PlanError::OutOfMemory,
    }
}

// The text of a path.
fn text(alloc: Global, path: &[Part<'_>]) -> Result<Text, OutOfMemory>
    ensures { IfOk result (λ text. text ≡ path_text (map part_text path.now)) }
{
    let mut text = Vec::new(alloc);
    if path.is_empty() {
        text.extend_from_slice(b"-")?;
    } else {
        push_pointer(&mut text, path)?;
    }
    Ok(Sequence::from_vec(text))
}

// The text of the path of a field that the object at this path has.
fn unknown_text(alloc: Global, path: &[Part<'_>], name: &str) -> Result<Text, OutOfMemory>
    ensures { IfOk result (λ text. text ≡ path_text (map part_text path.now ++ escaped name.now ∷ [])) }
{
    let mut text = Vec::new(alloc);
    push_pointer(&mut text, path)?;
    text.push(b'/')?;
    push_escaped(&mut text, name.as_bytes())?;
    Ok(Sequence::from_vec(text))
}

fn push_pointer(text: &mut Vec<u8>, path: &[Part<'_>]) -> Result<(), OutOfMemory>
    ensures { OnOk result (text.new.items ≡ text.old.items ++ pointer (map part_text path.now)) }
{
    for part in path {
        push_part(text, *part)?;
    }
    Ok(())
}

fn push_part(text: &mut Vec<u8>, part: Part<'_>) -> Result<(), OutOfMemory>
    ensures { OnOk result (text.new.items ≡ text.old.items ++ 47 ∷ part_text part.entry) }
{
    text.push(b'/')?;
    match part {
        Part::Field(name) => text.extend_from_slice(name.as_bytes())?,
        Part::Place(place) => push_number(text, place as u64)?,
    }
    Ok(())
}

// The name with its tildes and slashes written as a JSON pointer writes them.
fn push_escaped(text: &mut Vec<u8>, name: &[u8]) -> Result<(), OutOfMemory>
    ensures { OnOk result (text.new.items ≡ text.old.items ++ escaped name.now) }
{
    for byte in name {
        match byte {
            b'~' => text.extend_from_slice(b"~0")?,
            b'/' => text.extend_from_slice(b"~1")?,
            _ => text.push(*byte)?,
        }
    }
    Ok(())
}
