//! Bytes that come in and go out: sources and sinks with counted faults, and the lists that they fill.
#![tactic(auto)]

mod adapters;
mod gates;
mod lists;
mod memory;
mod moves;
mod placed;
mod traits;

pub use adapters::{ReadAdapter, WriteAdapter};
pub use gates::{Gate, OpenGate, StopGate, TurnstileGate};
pub use lists::{Memory, Numbers, Octets};
pub use memory::{MemSink, MemSource, SureSink, SureSource};
pub use moves::{give_all, take_all, take_exact};
pub use placed::Placed;
pub use traits::{Failed, Sink, SinkFault, Source, TakeFault};
