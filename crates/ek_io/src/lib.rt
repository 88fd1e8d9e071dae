//! Bytes from a source and to a sink, each of which counts its faults.
//!
//! Input: a `Source`, as `StdSource` over a reader of std. Output: a `Sink`, as `StdSink` over a writer.
//! `read_all` and `write_all_counted` move whole texts. `MemorySource`, `CleanSource` and
//! `MemorySink` stand for the outside in tests, and fail where they are told to.
//! What a count of faults says is in `specs/Faults.antt`, what several calls do together in
//! `specs/Transfer.antt`, what is seen of the types in `specs/Memory.antt` and `specs/Standard.antt`.
//! Read `streams.rt` (the traits), `transfer.rt`, then `calls.rt`, `memory_source.rt`,
//! `clean_source.rt`, `memory_sink.rt` and `standard.rt`.
#![tactic(auto)]

mod calls;
mod clean_source;
mod memory_sink;
mod memory_source;
mod standard;
mod streams;
#[cfg(test)]
mod tests;
mod transfer;

pub use clean_source::CleanSource;
pub use memory_sink::MemorySink;
pub use memory_source::MemorySource;
pub use standard::{StdSink, StdSource};
pub use streams::{Failed, Sink, Source};
pub use transfer::{ReadEnd, read_all, write_all_counted};
