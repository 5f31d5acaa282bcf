//! The program that `bench/seat` times: packets from one seat to another over an interlink, with both journals.
//!
//! `seat_bench seats SIZE BATCHES ROUNDS`: in each batch two new seats have so many rounds. In each round a Source makes 102
//! packets and a Transmitter puts them, on the one seat; a Receiver takes them, a Sink frees them, and they are given back, on
//! the other.
//! `seat_bench payloads SIZE BATCHES ROUNDS`: in each batch the entries of as many packets that have a payload alone are added
//! to two journals.
//! It prints how many packets there were.
#![tactic(auto)]

mod sides;
mod ways;
mod wire;

ghost use Rattle.std.specs.Prelude.{◌≤◌};

use std::alloc::Global;
use std::env;
use std::test::Fail;
use ways::{payloads, seats};

/// The longest packet.
const LONGEST: u32 = 10_240;

/// The number that a word says, or else this one.
fn number_of(word: Option<String>, other: u32) -> u32 {
    match word {
        Some(text) => match text.parse::<u32>() {
            Ok(n) => n,
            Err(_) => other,
        },
        None => other,
    }
}

/// How many packets there were in so many batches.
fn run(alloc: Global, way: &str, size: u32, batches: u32, rounds: u32) -> Result<u64, Fail>
    requires { size ≤ 10240 }
{
    let mut packets: u64 = 0;
    for _batch in 0..batches {
        let more = if way == "payloads" {
            payloads(alloc, size, rounds)?
        } else {
            seats(alloc, size, rounds)?
        };
        packets = packets.saturating_add(more);
    }
    Ok(packets)
}

fn main(rt: HostRuntime) -> Result<(), Fail> {
    let mut words = env::args(&rt)?.skip(1);
    let way = words.next().unwrap_or(String::new(rt.alloc()));
    let size = number_of(words.next(), 60);
    let batches = number_of(words.next(), 1);
    let rounds = number_of(words.next(), 1);
    let size = if size < LONGEST { size } else { LONGEST };
    let packets = run(rt.alloc(), &way, size, batches, rounds)?;
    println!(rt; "{packets} packets")?;
    Ok(())
}
