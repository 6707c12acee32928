//! Where bytes come from and go to: sources and sinks that count their faults, in memory and at the standard streams.
#![tactic(auto)]

mod edge;
mod script;
mod sinks;
mod sources;
mod standard;
mod transfer;

pub use edge::{Failed, ReadEnd, Sink, Source};
pub use sinks::{MemSink, WholeSink};
pub use sources::{MemSource, WholeSource};
pub use standard::{StdSink, StdSource};
pub use transfer::{read_all, write_all};
