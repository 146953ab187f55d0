//! The edge to the outside world: where files come from, where output goes, and where workers meet.
#![tactic(auto)]

mod disk_files;
mod faults;
mod gates;
pub mod laws;
mod lines;
mod memory_files;
mod memory_sink;
mod sinks;
mod sources;
mod steady_sink;
mod writer_sink;

pub use disk_files::{DiskFiles, load_from, load_opened};
pub use faults::{IoMemory, LoadFault, MOST_FAULTS, PutFault};
pub use gates::{Gate, OpenGate};
pub use lines::{LINE_ROOM, Line, NUMBER_ROOM};
pub use memory_files::MemoryFiles;
pub use memory_sink::MemorySink;
pub use sinks::{Sink, put_all};
pub use sources::Files;
pub use steady_sink::SteadySink;
pub use writer_sink::WriterSink;
