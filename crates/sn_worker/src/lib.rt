//! A worker: how it takes the actions of its plan, and how its network breathes, turn by turn and round by round.
//!
//! - `work`: what a worker's turns need of a context beside the calls of its apps
//! - `worker`: a worker
//! - `taking`: how it takes actions
//! - `turns`: its breath, and its last turn
//! - `seated`: what a slot's turns need of a context beside what a worker's need
//! - `giving`: how a slot gives free packets back
//! - `slot_turns`: the turns of a worker over a seat, and a round
//! - `live_work`: a seat at work as such a context
//! - `slot`: a worker with its seat
//! - `slot_plan`: a slot of a scenario
//! - `closing`: how a slot is closed
#![tactic(auto)]

mod closing;
mod giving;
mod live_work;
mod seated;
mod slot;
mod slot_plan;
mod slot_turns;
mod taking;
mod turns;
mod work;
mod worker;

pub use seated::Seated;
pub use slot::{RoundEnd, Slot};
pub use work::Work;
pub use worker::Worker;
