//! Packets and interlinks of a run that opens, and the ends of interlinks that each worker gets.
ghost use Rattle.std.specs.Prelude.{◌≡◌, ◌<◌, ◌≤◌, ◌++◌, ◌∷◌, [], IfOk, OnOk, length, map, slice_set};
ghost use Rattle.sn_group.specs.Cells.{named};
ghost use Rattle.sn_scenario.specs.Scenarios.{AreLanes};
ghost use Rattle.sn_sharing.specs.Laying.{AddsLane, AreLaid, ends_at, rxs, txs};
ghost use Rattle.sn_sharing.specs.Pools.{pool_packets};

use sn_interlink::{Interlink, RxEnd, TxEnd};
use sn_packet::Packet;
use sn_scenario::Lane;
use sn_seat::Ends;
use std::alloc::{AllocError, Global};

/// The packets of a pool at turn 0.
pub(crate) fn packets_of(alloc: Global, pool: u32) -> Result<Vec<Packet>, AllocError>
    requires { pool ≤ 16384 }
    ensures { IfOk result (λ packets. map named packets.items ≡ pool_packets pool) }
{
    let mut packets = Vec::with_capacity(alloc, pool as usize)?;
    for number in 0..pool {
        packets.push(Packet::new(alloc, number, 0)?)?;
    }
    Ok(packets)
}

/// No ends for each worker.
fn no_ends(alloc: Global, workers: u32) -> Result<Vec<Ends>, AllocError>
    ensures { IfOk result (λ all. AreLaid workers [] [] all.items) }
{
    let mut all = Vec::new(alloc);
    for worker in 0..workers {
        let _ = worker;
        all.push(Ends {
            tx: Vec::new(alloc),
            rx: Vec::new(alloc),
        })?;
    }
    Ok(all)
}

/// A worker gets a transmitter.
fn add_tx(all: &mut Vec<Ends>, worker: u32, number: u32, end: TxEnd) -> Result<(), AllocError>
    requires { worker < length all.old.items }
    ensures tx { OnOk result (txs all.new.items
        ≡ slice_set (txs all.old.items) worker (ends_at (txs all.old.items) worker ++ (number, end) ∷ [])) }
    ensures rx { OnOk result (rxs all.new.items ≡ rxs all.old.items) }
    ensures len { OnOk result (length all.new.items ≡ length all.old.items) }
{
    all[worker as usize].tx.push((number, end))?;
    Ok(())
}

/// A worker gets a receiver.
fn add_rx(all: &mut Vec<Ends>, worker: u32, number: u32, end: RxEnd) -> Result<(), AllocError>
    requires { worker < length all.old.items }
    ensures tx { OnOk result (txs all.new.items ≡ txs all.old.items) }
    ensures rx { OnOk result (rxs all.new.items
        ≡ slice_set (rxs all.old.items) worker (ends_at (rxs all.old.items) worker ++ (number, end) ∷ [])) }
    ensures len { OnOk result (length all.new.items ≡ length all.old.items) }
{
    all[worker as usize].rx.push((number, end))?;
    Ok(())
}

/// One interlink more, whose two workers get its ends.
fn add_lane(
    alloc: Global,
    line: &Lane,
    interlinks: &mut Vec<Interlink>,
    all: &mut Vec<Ends>,
) -> Result<(), AllocError>
    requires tx { line.now.tx < length all.old.items }
    requires rx { line.now.rx < length all.old.items }
    requires few { length interlinks.old.items ≤ 16 }
    ensures { OnOk result (AddsLane line.now interlinks.old.items all.old.items interlinks.new.items all.new.items) }
{
    let number = interlinks.len() as u32;
    let (interlink, tx, rx) = Interlink::new(alloc)?;
    add_tx(all, line.tx, number, tx)?;
    add_rx(all, line.rx, number, rx)?;
    interlinks.push(interlink)?;
    Ok(())
}

/// The interlinks of these lines, and each worker's ends of them.
pub(crate) fn lay_lanes(
    alloc: Global,
    lines: &[Lane],
    workers: u32,
) -> Result<(Vec<Interlink>, Vec<Ends>), AllocError>
    requires { AreLanes workers lines.now }
    ensures { IfOk result (λ laid. AreLaid workers lines.now laid.0.items laid.1.items) }
{
    let mut all = no_ends(alloc, workers)?;
    let mut interlinks = Vec::new(alloc);
    for line in lines {
        add_lane(alloc, line, &mut interlinks, &mut all)?;
    }
    Ok((interlinks, all))
}
