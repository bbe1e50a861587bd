//! Sources that give bytes and sinks that take them, each with a count of its faults.
//!
//! The shell reads and writes through the traits `Source` and `Sink` alone.
//! `MemSource` and `MemSink` stand in memory and fail at the calls that they are told.
//! `SureSource` and `SureSink` stand in memory and never fail.
//! `StdSource` and `StdSink` stand over a reader and a writer of std, and tell nothing of the bytes.
#![tactic(auto)]

mod counting;
mod ends;
mod give;
mod mem_sink;
mod mem_source;
mod std_sink;
mod std_source;
mod sure_sink;
mod sure_source;

pub use ends::{Failed, Sink, SinkFault, Source};
pub use mem_sink::MemSink;
pub use mem_source::MemSource;
pub use std_sink::StdSink;
pub use std_source::StdSource;
pub use sure_sink::SureSink;
pub use sure_source::SureSource;
