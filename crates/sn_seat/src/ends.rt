//! The ends of interlinks that a worker gets.
use sn_interlink::{RxEnd, TxEnd};

/// The ends of interlinks that a worker gets, each with its interlink's number, rising.
#[derive(Drop)]
pub struct Ends {
    pub tx: Vec<(u32, TxEnd)>,
    pub rx: Vec<(u32, RxEnd)>,
}
