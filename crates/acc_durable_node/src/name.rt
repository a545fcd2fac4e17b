//! Which node it is.
ghost use Rattle.std.specs.Prelude.{◌^◌, ◌≤◌};

/// What a node over a disk is opened as.
#[derive(Clone, Copy, Debug)]
pub struct NodeName {
    /// Its number, from 1 to 15.
    pub number: u32,
    /// Its clock draws above this, which is at most 10^12.
    pub start: u64,
    /// The version of its journal, 1 or 2.
    pub version: u8,
}

/// What a node was opened as.
#[derive(Clone, Copy, Debug)]
pub(crate) struct Named {
    pub(crate) name: NodeName,
    ghost number_from: { 1 ≤ name.number },
    ghost number_to: { name.number ≤ 15 },
    ghost start_in_range: { name.start ≤ 10 ^ 12 },
}
