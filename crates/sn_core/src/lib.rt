//! The pure core: every packet of the pool has one owner, after any list of events.
//!
//! - `events`: what may happen, what a step answers, and who owns a packet
//! - `parts`: packets, the fields of a lane, cells and pending transfers
//! - `lane`: one lane between two seats
//! - `seat`: one seat, with what it holds
//! - `machine`: cells, lanes and seats together
//! - `lane_events`, `cell_events`, `seat_events`: each event on the machine
//! - `steps`: one step of the machine, by its event
//! - `owners`: where a packet stands in the machine
//! - `state`: the core as callers see it
//! - `laws`: what each event keeps of one lane, for those who read a lane off a real ring
#![tactic(auto)]

mod cell_events;
mod events;
mod lane;
mod lane_events;
mod laws;
mod machine;
mod owners;
mod parts;
mod seat;
mod seat_events;
mod state;
mod steps;

pub use events::{Event, Owner, Side, Stepped};
pub use laws::{emptied_queues, lanes_stay_sound};
pub use parts::{Cell, Claim, Field, MAX_TURN, Packet, Phase};
pub use state::CoreState;
