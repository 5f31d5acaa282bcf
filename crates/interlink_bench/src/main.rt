//! Hands packets from one thread to another over one interlink, session by session, and says whether all came as they
//! were put. The words are the number of packets and the number of sessions.
#![tactic(auto)]

mod packets;
mod relay;

use packets::{all_came, make_packets};
use relay::session;
use sn_interlink::Interlink;
use std::thread::Threads;
use std::{env, io};

/// The most packets of a pool.
const MOST: u32 = 16_384;

/// The number that a word says, or else this one.
fn number_of(word: Option<String>, other: u32) -> u32 {
    match word {
        Some(text) => match text.parse::<u32>() {
            Ok(n) => n,
            Err(_) => other,
        },
        None => other,
    }
}

fn main(rt: HostRuntime) -> io::Result<()> {
    let mut words = env::args(&rt)?.skip(1);
    let pool = number_of(words.next(), 1000);
    let sessions = number_of(words.next(), 1);
    let pool = if pool < MOST { pool } else { MOST };
    let alloc = rt.alloc();
    let (lane, mut tx, mut rx) = Interlink::new(alloc)?;
    let mut packets = make_packets(alloc, pool)?;
    for _ in 0..sessions {
        let Some((next_tx, next_rx, came)) = session(&rt, alloc, &lane, tx, rx, packets)? else {
            println!(rt; "an end didn't come up")?;
            return Ok(());
        };
        tx = next_tx;
        rx = next_rx;
        packets = came;
    }
    let whole = all_came(&packets, pool, sessions);
    println!(rt; "{sessions} sessions of {pool} packets, all as they were put: {whole}")?;
    Ok(())
}
