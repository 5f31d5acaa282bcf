//! The journal of a worker: what it did, entry by entry, what that cost, and its text.
//!
//! - `payload`: the bytes that an entry carries
//! - `entry`: what an entry says
//! - `journal`: the list of entries, with room for more
//! - `slot_state`: how a worker's slot stands
//! - `laws`: what journals say of the packets that are held
//! - `kind`: the words that the lines of a journal's text begin with
//! - `line`: what a line of the text says
//! - `print`: the text of a journal
//! - `fault`: why a text isn't a journal's
//! - `cutting`, `number`, `numbers`: a text cut at a byte, and the numbers in it
//! - `line_reading`: the line of a kind and its numbers
//! - `outlining`: the lines of a journal's text, read back
//! - `text_laws`: what the texts of journals are
#![tactic(auto)]

mod cutting;
mod entry;
mod fault;
mod journal;
mod kind;
mod laws;
mod line;
mod line_reading;
mod number;
mod numbers;
mod outlining;
mod payload;
mod print;
mod slot_state;
mod text_laws;

pub use entry::Entry;
pub use fault::OutlineFault;
pub use journal::Journal;
pub use laws::{held_by_weight, holding_balances, holding_grows, holding_joins};
pub use line::Line;
pub use outlining::outline;
pub use payload::Payload;
pub use slot_state::SlotState;
pub use text_laws::{one_outline, text_reads_back};
