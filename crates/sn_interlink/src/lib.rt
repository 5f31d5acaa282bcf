//! An interlink: a ring of packets from one worker to another, lock-free, first in first out.
//!
//! - `entry`: what an end's log says
//! - `view`: what the seats of an interlink's table know, and the rule over its words, slots and views
//! - `plays`: what each step on the words tells, and how the two ends are parted and joined
//! - `answers`: what attaching and detaching answer
//! - `end`: one end, which serves as transmitter and as receiver, in three parts: its words, putting, taking
//! - `interlink`: the interlink, and how it is opened
//! - `tx_end`, `rx_end`: the transmitter and the receiver
//! - `receipt`: the closing, and its receipt
//! - `step_laws`: each step is the core's event on the lane that is read off words, slots and views
#![tactic(auto)]

mod answers;
mod end;
mod entry;
mod interlink;
mod plays;
mod receipt;
mod rx_end;
mod step_laws;
mod tx_end;
mod view;

pub use answers::{Attached, Detached};
pub use entry::LaneEntry;
pub use interlink::{Interlink, is_down};
pub use receipt::{LaneReceipt, close};
pub use rx_end::RxEnd;
pub use sn_core::Side;
pub use step_laws::steps_are_events;
pub use tx_end::TxEnd;
pub use view::EndState;
