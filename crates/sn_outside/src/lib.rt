//! What the program reaches beyond itself: files, a sink for its text, and a gate before steps of workers.
//!
//! * `files`: the trait [`Files`], and the list of calls that one may tell
//! * `sink`: the trait [`Sink`]
//! * `gate`: the trait [`Gate`], and [`NoGate`]
//! * `fault`: what these answer where they refuse
//! * `mem_files`, `mem_sink`: both in memory, for tests: they tell what they hold, and fail at chosen calls
//! * `streams`: bytes from any reader and to any writer
//! * `real_files`, `std_out`: the thin adapters to the system
#![tactic(auto)]

mod fault;
mod files;
mod gate;
mod mem_files;
mod mem_sink;
mod real_files;
mod sink;
mod std_out;
mod streams;

pub use fault::{FileFault, SinkFault};
pub use files::{CallKind, FileCall, Files};
pub use gate::{Gate, NoGate};
pub use mem_files::MemFiles;
pub use mem_sink::MemSink;
pub use real_files::RealFiles;
pub use sink::Sink;
pub use std_out::StdOut;
pub use streams::{read_within, write_some, write_whole};
