//! The outside of the program: where a batch comes from, where its reply goes, and who is told
//! where a lane is.
//!
//! A contract sees a [`Source`] as the bytes that it has left, if it reports them, and as a count
//! of its faults. It sees a [`Sink`] as the bytes that were written, if it reports them, and as a
//! count of its faults. The promise for all code above: a call answers `Failed` only if the count
//! rose in that call or has the greatest value of a `u64`. So a program that reports a fault has
//! had one.
//!
//! The implementations in memory are exact to the byte. They fail on demand, or never. The adapters
//! over std's readers and writers report no bytes, since no contract can say what a file or a
//! terminal gives or takes. A [`Gate`] is told where a lane is, and never what the lane handles.
//!
//! Tests: `text_tests`.
#![tactic(auto)]

mod calls;
mod gates;
mod memory;
mod outside;
mod pure;
mod streams;

pub use gates::{FreeGate, HoldGate};
pub use memory::{MemorySink, MemorySource};
pub use outside::{Gate, Got, Point, Sink, Source, Took};
pub use pure::{PureSink, PureSource};
pub use streams::{StdSink, StdSource};
