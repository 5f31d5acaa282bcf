//! How a seat is made, and what it shows.
ghost use Rattle.std.specs.Prelude.{◌≡◌, IfOk, map};
ghost use Rattle.sn_seat.specs.Openings.{as_receiver, as_transmitter};

use crate::ends::Ends;
use crate::gates::Before;
use crate::ledger::Ledger;
use crate::live::Live;
use crate::seat::Seat;
use crate::seat_end::SeatEnd;
use crate::shared::Shared;
use sn_app::{Counters, no_files};
use sn_channel::Listener;
use sn_group::GroupSeat;
use sn_interlink::{RxEnd, TxEnd};
use sn_journal::{Entry, Journal};
use sn_names::Roster;
use sn_outside::Gate;
use sn_packet::Hold;
use std::alloc::{AllocError, Global};

fn transmitters(alloc: Global, ends: Vec<(u32, TxEnd)>) -> Result<Vec<(u32, SeatEnd)>, AllocError>
    ensures { IfOk result (λ all. all.items ≡ map as_transmitter ends.items) }
{
    ends.into_iter()
        .map(|end| (end.0, SeatEnd::Transmitter(end.1)))
        .collect(alloc)
}

fn receivers(alloc: Global, ends: Vec<(u32, RxEnd)>) -> Result<Vec<(u32, SeatEnd)>, AllocError>
    ensures { IfOk result (λ all. all.items ≡ map as_receiver ends.items) }
{
    ends.into_iter()
        .map(|end| (end.0, SeatEnd::Receiver(end.1)))
        .collect(alloc)
}

impl Ledger {
    ghost use Rattle.std.specs.Prelude.{◌≡◌, [], IfOk, None, ℕ};
    ghost use Rattle.sn_packet.specs.Hold.{frees_of, used_of};
    ghost use Rattle.sn_seat.specs.Openings.{AreNew, IsNewSeat, all_ends};

    /// A ledger of no entries and no packets.
    fn open(
        alloc: Global,
        pool: u32,
        ends: Ends,
        group: GroupSeat,
        listener: Listener,
    ) -> Result<Ledger, AllocError>
        requires ends { AreNew (all_ends ends.tx.items ends.rx.items) }
        requires group { IsNewSeat group }
        requires listener { listener.heard ≡ [] }
        ensures entries { IfOk result (λ l. l.journal.entries ≡ []) }
        ensures frees { IfOk result (λ l. frees_of l.hold ≡ []) }
        ensures used { IfOk result (λ l. (place : ℕ) → used_of l.hold place ≡ None) }
        ensures ends { IfOk result (λ l. l.ends.items ≡ all_ends ends.tx.items ends.rx.items) }
        ensures group { IfOk result (λ l. l.group ≡ group) }
        ensures listener { IfOk result (λ l. l.listener ≡ listener) }
    {
        let Ends { tx, rx } = ends;
        let mut all = transmitters(alloc, tx)?;
        let mut more = receivers(alloc, rx)?;
        all.append(&mut more)?;
        let mut journal = Journal::new(alloc);
        journal.reserve()?;
        let hold = Hold::new(alloc, pool)?;
        Ok(Ledger {
            journal,
            hold,
            ends: all,
            group,
            listener,
        })
    }
}

impl Seat {
    ghost use Rattle.std.specs.Prelude.{◌≡◌, ◌<◌, ◌^◌, [], IfOk, List, None, length, ℕ};
    ghost use Rattle.sn_seat.specs.Openings.{AreNew, IsNewSeat, all_ends, new_tray};
    ghost use Rattle.sn_seat.specs.Tellings.{TellsAll};
    ghost use Rattle.sn_seat.specs.Trays.{Fits, bond_of, seat_tray, seat_used};
    ghost use Rattle.sn_seat.specs.SeatEnds.{wires};

    /// The seat of a worker that has done nothing, with these ends of interlinks, the group's seat of the worker and the
    /// listener of its channel. Its stop lines are pairs of a number of entries and a number of gates behind them.
    ///
    /// # Errors
    /// Want of memory.
    pub fn new(
        alloc: Global,
        worker: u32,
        pool: u32,
        roster: Roster,
        stops: Vec<(u64, u32)>,
        ends: Ends,
        group: GroupSeat,
        listener: Listener,
    ) -> Result<Seat, AllocError>
        requires ends { AreNew (all_ends ends.tx.items ends.rx.items) }
        requires group { IsNewSeat group }
        requires listener { listener.heard ≡ [] }
        requires few_apps { length roster.apps < 2 ^ 32 }
        requires few_links { length roster.links < 2 ^ 32 }
        requires few_captures { length roster.captures < 2 ^ 32 }
        requires few_files { length roster.files < 2 ^ 32 }
        requires few_lanes { length roster.lanes < 2 ^ 32 }
        ensures tray { (captures : List (List ℕ)) → IfOk result (λ seat. seat_tray captures seat
            ≡ new_tray stops.items roster captures (all_ends ends.tx.items ends.rx.items)) }
        ensures used { IfOk result (λ seat. (place : ℕ) → seat_used seat place ≡ None) }
        ensures bond { IfOk result (λ seat. bond_of seat
            ≡ record {
              worker = worker;
              wiring = record {
                ends = wires (all_ends ends.tx.items ends.rx.items);
                group = group.group;
                channel = listener.channel;
                met = listener.met;
              };
              captures = length roster.captures;
              lanes = length roster.lanes;
            }) }
    {
        let ledger = Ledger::open(alloc, pool, ends, group, listener)?;
        let counters = Counters::new(alloc, roster.apps.len() as u32, roster.links.len() as u32)?;
        let files = no_files(alloc, roster.files.len())?;
        Ok(Seat {
            alloc,
            worker,
            ledger,
            gates: 0,
            stops,
            counters,
            files,
            roster,
        })
    }

    /// The journal.
    pub fn journal(&self) -> &Journal
        ensures entries { (captures : List (List ℕ)) → result.now.entries ≡ (seat_tray captures self.now).log.past }
        ensures told { TellsAll result.now.entries self.now }
    {
        &self.ledger.journal
    }

    /// What apps and links have counted.
    pub fn counters(&self) -> &Counters
        ensures { (captures : List (List ℕ)) → result.now ≡ (seat_tray captures self.now).counters }
    {
        &self.counters
    }

    /// The seat at work, over what it shares, with what is called at its gates.
    pub fn live<'a, G: Gate>(&'a mut self, shared: &'a Shared, gate: &'a G) -> Live<'a, G>
        requires fits { Fits self.now shared.now }
        ensures lent { result.seat.ghost_name ≡ self.entry.ghost_name }
        ensures seat { result.seat.now ≡ self.entry.now }
        ensures shared { result.shared.now ≡ shared.now }
    {
        Live {
            seat: self,
            shared,
            gate,
        }
    }
}
