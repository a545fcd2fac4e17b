//! The ports through which a program reaches the outside: a source of bytes and a sink for bytes, over memory and over
//! standard input and output.
#![tactic(auto)]

mod calls;
mod disk;
mod disk_calls;
mod error;
mod gate;
mod history;
mod maker;
mod memory;
mod memory_disk;
mod memory_maker;
mod rig;
mod room;
mod saved;
mod sink;
mod source;
mod standard;
mod surface;
mod undo;
mod whole;

pub use calls::Calls;
pub use disk::Disk;
pub use error::{PortError, ReadError};
pub use gate::{Gate, OpenGate};
pub use history::History;
pub use maker::DiskMaker;
pub use memory::{MemSink, MemSource};
pub use memory_disk::MemDisk;
pub use memory_maker::MemMaker;
pub use rig::Rig;
pub use sink::Sink;
pub use source::Source;
pub use standard::{StdSink, StdSource};
pub use whole::{read_all, write_all};
