//! How the top call ends.
ghost use Rattle.sn_run.specs.Exit.{exit_number};
ghost use Rattle.std.specs.Prelude.{◌≡◌};

use crate::Report;
use sn_names::FileName;
use sn_pcap::PcapFault;
use sn_scenario::ScenarioFault;

/// What became of the command.
#[derive(Debug, Drop)]
pub enum Status {
    /// Nothing was left to do.
    Drained,
    /// The rounds were used up, and so much was left.
    RoundsUsed(u64),
    /// The journal of this worker is full, and no worker before it has a full one.
    JournalLimit(u32),
    /// The scenario was read, and what was asked of it is printed.
    Done,
    /// The words are no command.
    BadWords,
    /// The scenario doesn't have this worker.
    NoWorker(u32),
    /// The file holds no scenario, and this is its first fault.
    BadScenario(ScenarioFault),
    /// The scenario doesn't run so far: it stops a worker.
    NotYet(FileName),
    /// The file is no capture, and this is its first fault.
    BadPcap(FileName, PcapFault),
    /// The file was not read: the count of faults rose.
    ReadFault(FileName),
    /// The file has more bytes than are read of its kind.
    TooLong(FileName),
    /// The file was not written: the count of faults rose.
    WriteFault(FileName),
    /// The text was not printed: the sink's count of faults rose.
    PrintFault,
    /// There was no memory.
    OutOfMemory,
}

impl Status {
    /// The exit status of the program: 0 where all was done, 1 for words, 2 for files and printing,
    /// 3 for what a file holds, 4 where something was left, 5 for want of memory.
    pub fn number(&self) -> u8
        ensures { result ≡ exit_number self.now }
    {
        match self {
            Status::Drained | Status::Done => 0,
            Status::BadWords => 1,
            Status::ReadFault(_) | Status::TooLong(_) => 2,
            Status::WriteFault(_) | Status::PrintFault => 2,
            Status::NoWorker(_) => 3,
            Status::BadScenario(_) => 3,
            Status::NotYet(_) => 3,
            Status::BadPcap(_, _) => 3,
            Status::RoundsUsed(_) | Status::JournalLimit(_) => 4,
            Status::OutOfMemory => 5,
        }
    }
}

/// How the top call ended: its status, the answer that a print fault replaced, and what a run
/// reports.
#[derive(Drop)]
pub struct Ended {
    pub status: Status,
    pub replaced: Option<Status>,
    pub report: Option<Report>,
}
