//! What a run reports.
ghost use Rattle.std.specs.Prelude.{◌≡◌};

use sn_app::Counters;
use sn_group::GroupReceipt;
use sn_interlink::LaneReceipt;
use sn_journal::{Journal, SlotState};
use sn_names::FileName;
use std::marker::Model;

/// A file that a run writes.
#[derive(Debug, Drop)]
pub struct OutFile {
    pub name: FileName,
    pub bytes: Vec<u8>,
}

impl Model for OutFile {
    ghost use Rattle.sn_run.specs.Reported.{WrittenFile};

    ghost Value = { WrittenFile };

    ghost view = { λ f. record { name = f.name; bytes = f.bytes.items } };
}

/// A packet that a worker still holds at its end, by number and turn.
#[derive(Clone, Copy, Debug, PartialEq, Eq)]
pub struct Kept {
    pub worker: u32,
    pub number: u32,
    pub turn: u64,
}

/// What a run leaves: the journal of each worker, the receipts of the interlinks and of the group, the packets that workers
/// still hold, by worker and number, what the apps and links of each worker have counted, the files that apps wrote, how each
/// worker's slot stands, and how much was left undone.
#[derive(Drop)]
pub struct Report {
    pub journals: Vec<Journal>,
    pub lanes: Vec<LaneReceipt>,
    pub group: GroupReceipt,
    pub kept: Vec<Kept>,
    pub counters: Vec<Counters>,
    pub files: Vec<OutFile>,
    pub states: Vec<SlotState>,
    pub left: u64,
}

impl Model for Report {
    ghost use Rattle.std.specs.Prelude.{map};
    ghost use Rattle.sn_run.specs.Reported.{RunReport};

    ghost Value = { RunReport };

    ghost view = { λ r. record {
      journals = map (λ j. j.entries) r.journals.items;
      lanes = r.lanes.items;
      group = r.group;
      kept = r.kept.items;
      counters = r.counters.items;
      files = r.files.items;
      states = r.states.items;
      left = r.left;
    } };
}
