//! The outside of a program: a store of files, a source of input and a sink of output, as traits,
//! and versions of them in memory.
//!
//! Each trait says what its object holds, where it tells that, and counts the faults of the
//! outside: a call fails only where the count rises in that call.
#![tactic(auto)]

mod copy;
mod file;
mod mem_sink;
mod mem_source;
mod mem_store;
mod plan;
mod sink;
mod source;
mod store;
mod sure_sink;
mod sure_source;
mod sure_store;
mod table;

pub use mem_sink::MemSink;
pub use mem_source::MemSource;
pub use mem_store::MemStore;
pub use sink::{Sink, SinkFail};
pub use source::{Failed, Source};
/// There was no memory.
pub use std::alloc::AllocError as NoMemory;
pub use store::{Store, StoreFail};
pub use sure_sink::SureSink;
pub use sure_source::SureSource;
pub use sure_store::SureStore;
