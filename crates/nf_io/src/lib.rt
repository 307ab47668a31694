//! The outside of nfer: where its bytes come from and where they go.
//!
//! A `Shelf` has named files, of which one at a time is read; a `Sink` takes bytes. Both say in
//! their contracts what they do as far as they tell it, and answer Failed only where their count
//! of faults rose. The forms in memory tell everything, and fail exactly at chosen calls or never;
//! the real forms are the trusted edge, and tell nothing of their content.
//!
//! The definitions are those of specs/: the map of the files (Files), what a shelf and a sink tell
//! (Tells), what one read gives and what a sink took (Bytes), causes of failures (Causes), and what a
//! contract sees of the forms in memory (Memory) and of the real ones (Real). Below stands want of
//! memory; above stand the calls that read a whole input and write a whole output.
#![tactic(auto)]

mod call_list;
mod copied;
mod counted;
mod failure;
mod file_map;
mod mem_shelf;
mod mem_sink;
mod real_shelf;
mod real_sink;
mod shelves;
mod sinks;
mod sure_shelf;
mod sure_sink;

pub use call_list::CallList;
pub use failure::Failed;
pub use file_map::FileMap;
pub use mem_shelf::MemShelf;
pub use mem_sink::MemSink;
pub use real_shelf::RealShelf;
pub use real_sink::RealSink;
pub use shelves::Shelf;
pub use sinks::{Sink, write_all};
pub use sure_shelf::SureShelf;
pub use sure_sink::SureSink;
