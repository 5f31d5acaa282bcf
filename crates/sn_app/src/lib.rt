//! What every app runs over: a context with packets, links, interlinks, files and counters, and what a call of it means.
//!
//! - `ports`: the ports of an app, with their links
//! - `app`: what every app is
//! - `handler`: what an app does with each packet of an input
//! - `linked`: named ports, where they are linked
//! - `verbs`: send and take
//! - `halt`: why a call didn't go on
//! - `counters`: the counts of apps and links
//! - `ctx`: the context
//! - `end_state`: how an end of an interlink stands
//! - `bench`: a context over lists
//! - `bench_ctx`: its calls as a context
//! - `bench_claims`: how it allocates
//! - `bench_lanes`: what it does at the ends of its interlinks
//! - `tape`: the entries of a bench
//! - `lanes`: the ends of its interlinks
//! - `outputs`: files that apps write
//! - `roster_rows`: the rows of names
//! - `peeks`: what an entry tells a call that may read it
//! - `arrivals`: packets that come into it
#![tactic(auto)]

mod app;
mod arrivals;
mod bench;
mod bench_claims;
mod bench_ctx;
mod bench_lanes;
mod counters;
mod ctx;
mod end_state;
mod halt;
mod handler;
mod lanes;
mod linked;
mod outputs;
mod peeks;
mod ports;
mod roster_rows;
mod tape;
mod verbs;

pub use app::App;
pub use bench::{Bench, BenchParts};
pub use counters::{AppCounts, Counter, Counters};
pub use ctx::Ctx;
pub use end_state::EndState;
pub use halt::Halt;
pub use handler::{Handler, handle_next, handle_some};
pub use linked::{linked_input, linked_out, linked_output};
pub use outputs::{Output, no_files};
pub use ports::Ports;
pub use roster_rows::{file_row, link_spec_row, name_row};
pub use sn_core::Side;
pub use verbs::{send, take};
