//! A seat: what a worker holds and shares with others, and its journal.
#![tactic(auto)]

mod ends;
mod gates;
mod gave;
mod ledger;
mod ledger_ends;
mod ledger_give;
mod ledger_notes;
mod ledger_packets;
mod live;
mod live_ctx;
mod opening;
mod parts;
mod seat;
mod seat_attach;
mod seat_claims;
mod seat_detach;
mod seat_end;
mod seat_lanes;
mod seat_packets;
mod seat_rows;
mod seat_settle;
mod shared;
mod worker_calls;

pub use ends::Ends;
pub use gates::{Before, Turnstile};
pub use gave::Gave;
pub use live::Live;
pub use parts::SeatParts;
pub use seat::Seat;
pub use seat_end::SeatEnd;
pub use shared::Shared;
