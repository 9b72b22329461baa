//! The outside of the checker: texts that are read by name, sinks that take bytes, and a gate that is asked on the way. Libraries and sinks
//! have two ends each, one in memory and one of the operating system; the one gate here is always open.
#![tactic(auto)]

mod file_library;
mod last_read;
mod memory_library;
mod memory_sink;
mod stream_sink;
mod traits;

pub use file_library::FileLibrary;
pub use memory_library::MemoryLibrary;
pub use memory_sink::MemorySink;
pub use stream_sink::StreamSink;
pub use traits::{Gate, Library, NoGate, ReadFail, Sink, SinkFail};
