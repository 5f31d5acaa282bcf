//! The group's freelist: packets in cells, which seats in any thread take and give, over one atomic word and one slot
//! a cell.
//!
//! - `entry`: what a seat's steps say, and what its scans see
//! - `view`: what a seat knows, and the rule over words, slots and views
//! - `plays`: what each step on a word tells, and how views are dealt and gathered
//! - `answers`: what a claim answers, and how far a transfer has come
//! - `words`: a packet's number and turn as one word
//! - `way`: the way round the cells
//! - `take_scan`, `give_scan`: the scans for a full and for an empty cell
//! - `seat`: the token that takes and gives packets
//! - `receipt`: what a group had when it closed
//! - `group`: the group, how it opens, and how it closes
//! - `laws`: what each step is in the core
#![tactic(auto)]

mod answers;
mod entry;
mod give_scan;
mod group;
mod laws;
mod plays;
mod receipt;
mod seat;
mod take_scan;
mod view;
mod way;
mod words;

pub use answers::{GiveClaim, Pending, TakeClaim};
pub use entry::{GroupEntry, Probe};
pub use group::Group;
pub use laws::steps_are_events;
pub use receipt::GroupReceipt;
pub use seat::GroupSeat;
