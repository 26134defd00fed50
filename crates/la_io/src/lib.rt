//! What reaches outside: a source of bytes, a sink, their stand-ins in memory, a buffer after a source
//! and one before a sink.
#![tactic(auto)]

mod answer;
mod buffered;
mod fault;
mod give;
mod intake;
mod memory;
mod outgoing;
mod outside;
mod standard;
mod sure;
mod whole;

pub use answer::Step;
pub use buffered::Buffered;
pub use fault::{CaptureError, CaptureFault};
pub use intake::{Intake, MOST_BYTES};
pub use memory::{MemSink, MemSource};
pub use outside::{Failed, Sink, Source};
pub use standard::{StdSink, StdSource};
pub use sure::{SureSink, SureSource};
pub use whole::write_whole;
