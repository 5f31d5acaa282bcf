//! The program that `bench/apps` times: apps over a bench, many packets long.
//!
//! `app_bench line ROUNDS`: a Source makes 102 packets in each round, and a Sink frees them behind one link.
//! `app_bench tee ROUNDS`: a Source makes 102 packets, a Tee sends each on two links, and a Sink frees them all.
//! It prints how many packets the Sink took.
#![tactic(auto)]

mod ways;

ghost use Rattle.std.specs.Prelude.{◌≡◌, IfOk, length};

use app_rig::Rig;
use sn_app::{Bench, Counter};
use sn_basic::{Sink, Source, Tee};
use sn_names::{Arg, Name, Roster};
use std::alloc::Global;
use std::env;
use std::test::Fail;
use ways::{line, tee};

/// How many packets the bench has: enough for one round of each way.
const PACKETS: u32 = 512;

/// The names of three apps, and no others.
fn three_apps(alloc: Global) -> Result<Roster, Fail>
    ensures apps { IfOk result (λ roster. length roster.apps ≡ 3) }
    ensures links { IfOk result (λ roster. length roster.links ≡ 0) }
    ensures captures { IfOk result (λ roster. length roster.captures ≡ 0) }
    ensures files { IfOk result (λ roster. length roster.files ≡ 0) }
    ensures lanes { IfOk result (λ roster. length roster.lanes ≡ 0) }
{
    Ok(Roster {
        apps: vec![in alloc;
            Name::parse(alloc, b"a")?,
            Name::parse(alloc, b"b")?,
            Name::parse(alloc, b"c")?,
        ]?,
        links: Vec::new(alloc),
        captures: Vec::new(alloc),
        files: Vec::new(alloc),
        lanes: Vec::new(alloc),
    })
}

/// How many packets the Sink took, after so many rounds of a way.
fn run(alloc: Global, way: &str, rounds: u32) -> Result<u64, Fail> {
    let names = three_apps(alloc)?;
    let bench = Bench::new(alloc, PACKETS, names, Vec::new(alloc), Vec::new(alloc))?;
    let mut rig = Rig::new(alloc, bench)?;
    let mut source = Source::start(&mut rig.bench, 0, &Arg::Nothing)?;
    let mut sink = Sink::start(&mut rig.bench, 1, &Arg::Nothing)?;
    if way == "tee" {
        let mut middle = Tee::start(alloc, &mut rig.bench, 2, &Arg::Nothing)?;
        tee(alloc, &mut rig, &mut source, &mut middle, &mut sink, rounds)?;
    } else {
        line(alloc, &mut rig, &mut source, &mut sink, rounds)?;
    }
    let counters = rig.bench.counters();
    Ok(counters.app(1, Counter::Packets))
}

fn main(rt: HostRuntime) -> Result<(), Fail> {
    let mut words = env::args(&rt)?.skip(1);
    let way = words.next().unwrap_or(String::new(rt.alloc()));
    let rounds = match words.next() {
        Some(word) => word.parse::<u32>()?,
        None => 1,
    };
    let taken = run(rt.alloc(), &way, rounds)?;
    println!(rt; "{taken} packets")?;
    Ok(())
}
