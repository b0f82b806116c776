//! Sources and sinks of bytes, the lines of a source, the words and the end of a top call, and
//! gates for tests of threads.
#![tactic(auto)]

pub mod gate;
pub mod lines;
pub mod memory;
pub mod sink;
pub mod source;
pub mod standard;
pub mod status;
pub mod words;

pub use gate::{Gate, OpenGate, Point};
pub use lines::{Line, LineFault, LineReader, MAX_LINE, MAX_LINES};
pub use memory::{MemSink, MemSource};
pub use sink::{Sink, WriteAnswer, Wrote, write_all};
pub use source::{ReadAnswer, Source};
pub use standard::{Reading, Writing};
pub use status::{Status, audit_why_name};
pub use words::Words;

#[cfg(test)]
mod tests;
