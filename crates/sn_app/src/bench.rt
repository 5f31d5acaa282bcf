//! A context over lists: its packets, ends of interlinks, files and counters are its own, and its entries come from a script.
ghost use Rattle.std.specs.Prelude.{◌≡◌, ◌<◌, ◌≤◌, ◌^◌, ◌∷◌, ◌++◌, ◌↔◌, ℕ, []};
ghost use Rattle.std.specs.Prelude.{IfOk, IsTrue, None, OnErr, OnOk, length, option_map, replicate, slice_index_or};
ghost use Rattle.sn_link.specs.Counts.{no_counts};
ghost use Rattle.sn_packet.specs.Hold.{frees_of, used_of};
ghost use Rattle.sn_packet.specs.Packet.{most_packets};
ghost use Rattle.sn_app.specs.Bench.{ends_of, tray_of};
ghost use Rattle.sn_core.specs.declared.events.Side.{Side as SideOf};
ghost use Rattle.sn_app.specs.Counts.{no_app_counts};
ghost use Rattle.sn_app.specs.Desk.{after_entry, out_end};
ghost use Rattle.sn_app.specs.Opening.{packets_below};

use crate::Counters;
use crate::arrivals::lay_free;
use crate::lanes::Lane;
use crate::outputs::{Output, no_files};
use crate::tape::Tape;
use sn_journal::{Entry, Journal};
use sn_names::Roster;
use sn_packet::{Hold, Packet};
use sn_pcap::Capture;
use std::alloc::{AllocError, Global};
use std::marker::Model;

/// A context over lists, for tests. What a context over shared objects would find at them, it reads from a script.
#[derive(Drop)]
pub struct Bench {
    pub(crate) alloc: Global,
    pub(crate) hold: Hold,
    pub(crate) tape: Tape,
    pub(crate) lanes: Vec<Lane>,
    pub(crate) files: Vec<Output>,
    pub(crate) counters: Counters,
    pub(crate) roster: Roster,
    pub(crate) captures: Vec<Capture>,
    // Whether there was no script at all.
    pub(crate) bare: bool,
}

impl Model for Bench {
    ghost use Rattle.sn_app.specs.Bench.{BenchState, IsBench, bench_of};

    ghost Value = { BenchState };

    ghost view = { λ b.
        bench_of b.hold b.tape b.lanes.items b.counters b.files.items b.roster b.captures.items b.bare };

    ghost invariant = { λ b.
        IsBench (bench_of b.hold b.tape b.lanes.items b.counters b.files.items b.roster b.captures.items b.bare) };
}

/// What a bench leaves: its journal, what its apps and links have counted, and its files by their rows.
#[derive(Drop)]
pub struct BenchParts {
    pub journal: Journal,
    pub counters: Counters,
    pub files: Vec<Output>,
}

/// A hold of the packets of the numbers below this one, all free at turn 0, the last one freed last.
fn free_packets(alloc: Global, frees: u32) -> Result<Hold, AllocError>
    requires { frees ≤ most_packets }
    ensures frees { IfOk result (λ hold. frees_of hold ≡ packets_below frees) }
    ensures used { IfOk result (λ hold. (place : ℕ) → used_of hold place ≡ None) }
{
    let mut hold = Hold::new(alloc, frees)?;
    for number in 0..frees {
        let packet = Packet::new(alloc, number, 0)?;
        lay_free(&mut hold, packet);
    }
    Ok(hold)
}

/// So many interlinks that nobody attached to.
fn no_lanes(alloc: Global, count: usize) -> Result<Vec<Lane>, AllocError>
    ensures len { IfOk result (λ lanes. length lanes.items ≡ count) }
    ensures ends { IfOk result (λ lanes. (lane : ℕ) (side : SideOf) → ends_of lanes.items lane side ≡ out_end) }
{
    let mut lanes = Vec::with_capacity(alloc, count)?;
    for _lane in 0..count {
        lanes.push_reserved(Lane::new(alloc));
    }
    Ok(lanes)
}

impl Bench {
    /// A bench with these rows and captures, whose entries come from this script. It has so many packets, numbered from 0 on,
    /// and all are free at turn 0, the last one freed last.
    ///
    /// # Errors
    /// Want of memory.
    pub fn new(
        alloc: Global,
        frees: u32,
        names: Roster,
        captures: Vec<Capture>,
        script: Vec<Entry>,
    ) -> Result<Bench, AllocError>
        requires some { 1 ≤ frees }
        requires most { frees ≤ most_packets }
        requires captures { length captures.items ≡ length names.captures }
        requires few_apps { length names.apps < 2 ^ 32 }
        requires few_links { length names.links < 2 ^ 32 }
        requires few_captures { length names.captures < 2 ^ 32 }
        requires few_files { length names.files < 2 ^ 32 }
        requires few_lanes { length names.lanes < 2 ^ 32 }
        ensures frees { IfOk result (λ bench. frees_of bench.held ≡ packets_below frees) }
        ensures used { IfOk result (λ bench. (place : ℕ) → used_of bench.held place ≡ None) }
        ensures past { IfOk result (λ bench. bench.past ≡ []) }
        ensures script { IfOk result (λ bench. bench.script ≡ script.items) }
        ensures bare { IfOk result (λ bench. IsTrue bench.bare ↔ (script.items ≡ [])) }
        ensures lanes { IfOk result (λ bench. length bench.lanes ≡ length names.lanes) }
        ensures ends { IfOk result (λ bench. (lane : ℕ) (side : SideOf) → ends_of bench.lanes lane side ≡ out_end) }
        ensures files { IfOk result (λ bench. bench.files ≡ replicate (length names.files) None) }
        ensures apps { IfOk result (λ bench. bench.counters.apps ≡ replicate (length names.apps) no_app_counts) }
        ensures links { IfOk result (λ bench. bench.counters.links ≡ replicate (length names.links) no_counts) }
        ensures roster { IfOk result (λ bench. bench.roster ≡ names) }
        ensures captures { IfOk result (λ bench. bench.captures ≡ captures.items) }
    {
        let hold = free_packets(alloc, frees)?;
        let counters = Counters::new(alloc, names.apps.len() as u32, names.links.len() as u32)?;
        let files = no_files(alloc, names.files.len())?;
        let lanes = no_lanes(alloc, names.lanes.len())?;
        let bare = script.is_empty();
        Ok(Bench {
            alloc,
            hold,
            tape: Tape::new(alloc, script),
            lanes,
            files,
            counters,
            roster: names,
            captures,
            bare,
        })
    }

    /// The entries that it read and added.
    pub fn journal(&self) -> &Journal
        ensures { result.now.entries ≡ self.now.past }
    {
        self.tape.journal()
    }

    /// What its apps and links have counted.
    pub fn counters(&self) -> &Counters
        ensures value { result.now ≡ self.now.counters }
        ensures apps { length result.now.apps ≡ length self.now.roster.apps }
        ensures links { length result.now.links ≡ length self.now.roster.links }
    {
        &self.counters
    }

    /// Its captures, by their rows.
    pub fn captures(&self) -> &[Capture]
        ensures value { result.now ≡ self.now.captures }
        ensures rows { length result.now ≡ length self.now.roster.captures }
    {
        &self.captures
    }

    /// The bytes of a file that was written, None exactly where it was never started.
    pub fn file(&self, file: u32) -> Option<&[u8]>
        ensures { option_map (λ bytes. bytes.now) result ≡ slice_index_or self.now.files file None }
    {
        match self.files.get(file as usize) {
            None => None,
            Some(output) => output.bytes(),
        }
    }

    /// Its journal, its counters and its files, each in the memory in which it lies. The rest is dropped.
    pub fn into_parts(self) -> BenchParts
        ensures journal { result.journal.entries ≡ self.past }
        ensures counters { result.counters ≡ self.counters }
        ensures files { result.files.items ≡ self.files }
        ensures rows { length result.files.items ≡ length self.roster.files }
    {
        BenchParts {
            journal: self.tape.into_journal(),
            counters: self.counters,
            files: self.files,
        }
    }

    /// Adds an entry to its journal.
    ///
    /// # Errors
    /// Want of memory, and nothing changes.
    pub fn note(&mut self, entry: Entry) -> Result<(), AllocError>
        ensures noted { OnOk result (self.new ≡ record self.old { past = self.old.past ++ entry ∷ [] }) }
        ensures tray { OnOk result (tray_of self.new ≡ after_entry entry (tray_of self.old)) }
        ensures refused { OnErr result (self.new ≡ self.old) }
    {
        self.tape.reserve()?;
        self.tape.note(entry);
        Ok(())
    }
}
