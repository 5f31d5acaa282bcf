//! A bench is a context: its calls at packets, captures, files and counters read no entry, and the others read its script.
ghost use base.Stored.{gnil};
ghost use Rattle.std.specs.Prelude.{◌≡◌, ◌≢◌, ◌<◌, ◌≤◌, ℕ, false};
ghost use Rattle.std.specs.Prelude.{IfErr, IfOk, IfSome, IsSome, IsTrue, None, OnOk, Ok, Some, length, replicate, take};
ghost use Rattle.sn_packet.specs.Hold.{put_at, used_of};
ghost use Rattle.sn_packet.specs.Packet.{is_worn, most_bytes};
ghost use Rattle.sn_pcap.specs.Places.{IsRecordOf, payload_of};
ghost use Rattle.sn_app.specs.Answers.{OnTray};
ghost use Rattle.sn_app.specs.Bench.{Played, tray_of};
ghost use Rattle.sn_app.specs.Calls.{AfterPut, AfterTake, IsFresh, IsUp, Knows, bytes_at, known_at};
ghost use Rattle.sn_app.specs.Calls.{LeavesAllButFiles, LeavesEnds, LeavesOtherEnds, named, packet_there, rewritten_at};
ghost use Rattle.sn_app.specs.Claims.{Claims};
ghost use Rattle.sn_app.specs.Desk.{capture_at, counted_on, freed, is_started, kept_counts, name_of, roster_of};
ghost use Rattle.sn_app.specs.Gates.{working};
ghost use Rattle.sn_app.specs.Rows.{row_allocate, row_attach, row_detach, row_file_append, row_file_start};
ghost use Rattle.sn_app.specs.Rows.{row_look, row_put, row_room, row_take};
ghost use Rattle.sn_app.specs.World.{packet_at};
ghost use Rattle.sn_app.specs.declared.end_state.EndState.TheVariants.{Out};
ghost use Rattle.sn_app.specs.declared.halt.Halt.TheVariants.{OutOfMemory};
ghost use Rattle.sn_core.specs.declared.events.Side.TheVariants.{Rx, Tx};

use crate::roster_rows::{file_row, link_spec_row, name_row};
use crate::{Bench, Counter, Ctx, Halt};
use sn_core::Side;
use sn_link::LinkCounts;
use sn_names::{FileName, LinkSpec, Name};
use sn_pcap::RecordAt;

impl Ctx for Bench {
    ghost tray = { tray_of };

    ghost used = { λ bench. used_of bench.held };

    // Nothing was lent to it.
    ghost lender = { λ bench. gnil };

    fn allocate(&mut self) -> Result<Option<u32>, Halt>
        ensures reads { OnTray row_allocate (tray_of self.old) (tray_of self.new) (named (used_of self.new.held) result) }
        ensures fresh { IfOk result (λ place. IfSome place (IsFresh (used_of self.old.held) (used_of self.new.held))) }
        ensures others { (q : ℕ) → result ≢ Ok (Some q) → used_of self.new.held q ≡ used_of self.old.held q }
        ensures leaves { LeavesEnds (tray_of self.old) (tray_of self.new) }
        ensures claims { OnOk result (Claims self.old self.new) }
        ensures memory { IfErr result (λ halt. halt ≡ OutOfMemory) }
    {
        self.allocate_packet()
    }

    fn free(&mut self, place: u32)
        requires { IsSome (used_of self.old.held place) }
        ensures tray { tray_of self.new ≡ freed (name_of (packet_at (used_of self.old.held) place)) (tray_of self.old) }
        ensures used { used_of self.new.held ≡ put_at place None (used_of self.old.held) }
        ensures script { self.new.script ≡ self.old.script }
    {
        self.hold.free(place);
    }

    fn size(&self, place: u32) -> u32 {
        self.hold.packet(place).bytes().len() as u32
    }

    fn worn(&self, place: u32) -> bool {
        self.hold.packet(place).worn()
    }

    fn byte(&self, place: u32, at: u32) -> Option<u8> {
        self.hold.packet(place).bytes().get(at as usize).copied()
    }

    fn zeros(&mut self, place: u32, len: u32)
        requires place { IsSome (used_of self.old.held place) }
        requires len { len ≤ most_bytes }
        ensures tray { tray_of self.new ≡ tray_of self.old }
        ensures used { used_of self.new.held ≡ rewritten_at place (replicate len 0) (used_of self.old.held) }
        ensures script { self.new.script ≡ self.old.script }
    {
        self.hold.zeros(place, len);
    }

    fn copy(&mut self, from: u32, to: u32)
        requires from { IsSome (used_of self.old.held from) }
        requires to { IsSome (used_of self.old.held to) }
        ensures tray { tray_of self.new ≡ tray_of self.old }
        ensures used { used_of self.new.held
            ≡ rewritten_at to (bytes_at (used_of self.old.held) from) (used_of self.old.held) }
        ensures script { self.new.script ≡ self.old.script }
    {
        self.hold.copy(from, to);
    }

    fn cut(&mut self, place: u32, len: u32)
        requires place { IsSome (used_of self.old.held place) }
        requires len { len ≤ length (bytes_at (used_of self.old.held) place) }
        ensures tray { tray_of self.new ≡ tray_of self.old }
        ensures used { used_of self.new.held
            ≡ rewritten_at place (take len (bytes_at (used_of self.old.held) place)) (used_of self.old.held) }
        ensures script { self.new.script ≡ self.old.script }
    {
        self.hold.cut(place, len);
    }

    fn first(&self, capture: u32) -> u64 {
        self.captures[capture as usize].first()
    }

    fn record(&self, capture: u32, at: u64) -> Option<RecordAt> {
        self.captures[capture as usize].record(at)
    }

    fn load(&mut self, place: u32, capture: u32, at: RecordAt)
        requires capture { capture < length (roster_of (tray_of self.old)).captures }
        requires place { IsSome (used_of self.old.held place) }
        requires record { IsRecordOf (capture_at capture (tray_of self.old)) at }
        requires len { at.len ≤ most_bytes }
        ensures tray { tray_of self.new ≡ tray_of self.old }
        ensures used { used_of self.new.held
            ≡ rewritten_at place (payload_of (capture_at capture (tray_of self.old)) at) (used_of self.old.held) }
        ensures script { self.new.script ≡ self.old.script }
    {
        let payload = self.captures[capture as usize].payload(at);
        self.hold.fill(place, payload);
    }

    fn lane_attach(&mut self, lane: u32, side: Side) -> Result<bool, Halt>
        requires { IsTrue ((tray_of self.old).log.constants.has_end lane side) }
        ensures reads { OnTray (row_attach lane side) (tray_of self.old) (tray_of self.new) result }
        ensures up { IfOk result (λ came_up. IsTrue came_up → IsUp lane side (tray_of self.new)) }
        ensures used { used_of self.new.held ≡ used_of self.old.held }
        ensures leaves { LeavesOtherEnds lane side (tray_of self.old) (tray_of self.new) }
        ensures plays { Played (row_attach lane side) (tray_of self.old) (tray_of self.new)
            self.old.script self.new.script result }
    {
        self.attach(lane, side)
    }

    fn lane_detach(&mut self, lane: u32, side: Side) -> Result<(), Halt>
        requires { IsTrue ((tray_of self.old).log.constants.has_end lane side) }
        ensures reads { OnTray (row_detach working lane side) (tray_of self.old) (tray_of self.new) result }
        ensures out { OnOk result (((tray_of self.new).ends lane side).state ≡ Out) }
        ensures used { used_of self.new.held ≡ used_of self.old.held }
        ensures leaves { LeavesOtherEnds lane side (tray_of self.old) (tray_of self.new) }
        ensures plays { Played (row_detach working lane side) (tray_of self.old) (tray_of self.new)
            self.old.script self.new.script result }
    {
        self.detach(lane, side)
    }

    fn lane_look(&mut self, lane: u32) -> Result<u32, Halt>
        requires end { IsTrue ((tray_of self.old).log.constants.has_end lane Rx) }
        requires up { IsUp lane Rx (tray_of self.old) }
        ensures reads { OnTray (row_look lane) (tray_of self.old) (tray_of self.new) result }
        ensures known { IfOk result (Knows lane Rx (tray_of self.old) (tray_of self.new)) }
        ensures used { used_of self.new.held ≡ used_of self.old.held }
        ensures leaves { LeavesOtherEnds lane Rx (tray_of self.old) (tray_of self.new) }
        ensures plays { Played (row_look lane) (tray_of self.old) (tray_of self.new) self.old.script self.new.script result }
    {
        self.look(lane)
    }

    fn lane_take(&mut self, lane: u32) -> Result<u32, Halt>
        requires end { IsTrue ((tray_of self.old).log.constants.has_end lane Rx) }
        requires up { IsUp lane Rx (tray_of self.old) }
        requires known { 0 < known_at lane Rx (tray_of self.old) }
        ensures reads { OnTray (row_take lane) (tray_of self.old) (tray_of self.new)
            (packet_there (used_of self.new.held) result) }
        ensures fresh { IfOk result (IsFresh (used_of self.old.held) (used_of self.new.held)) }
        ensures others { (q : ℕ) → result ≢ Ok q → used_of self.new.held q ≡ used_of self.old.held q }
        ensures known { OnOk result (AfterTake lane (tray_of self.old) (tray_of self.new)) }
        ensures leaves { LeavesOtherEnds lane Rx (tray_of self.old) (tray_of self.new) }
        ensures plays { Played (row_take lane) (tray_of self.old) (tray_of self.new)
            self.old.script self.new.script (packet_there (used_of self.new.held) result) }
    {
        self.take(lane)
    }

    fn lane_room(&mut self, lane: u32) -> Result<u32, Halt>
        requires end { IsTrue ((tray_of self.old).log.constants.has_end lane Tx) }
        requires up { IsUp lane Tx (tray_of self.old) }
        ensures reads { OnTray (row_room lane) (tray_of self.old) (tray_of self.new) result }
        ensures known { IfOk result (Knows lane Tx (tray_of self.old) (tray_of self.new)) }
        ensures used { used_of self.new.held ≡ used_of self.old.held }
        ensures leaves { LeavesOtherEnds lane Tx (tray_of self.old) (tray_of self.new) }
        ensures plays { Played (row_room lane) (tray_of self.old) (tray_of self.new) self.old.script self.new.script result }
    {
        self.room(lane)
    }

    fn lane_put(&mut self, lane: u32, place: u32) -> Result<(), Halt>
        requires end { IsTrue ((tray_of self.old).log.constants.has_end lane Tx) }
        requires up { IsUp lane Tx (tray_of self.old) }
        requires known { 0 < known_at lane Tx (tray_of self.old) }
        requires place { IsSome (used_of self.old.held place) }
        requires worn { is_worn (packet_at (used_of self.old.held) place) ≡ false }
        ensures reads { OnTray (row_put lane (packet_at (used_of self.old.held) place))
            (tray_of self.old) (tray_of self.new) result }
        ensures gone { OnOk result (used_of self.new.held ≡ put_at place None (used_of self.old.held)) }
        ensures others { (q : ℕ) → q ≢ place → used_of self.new.held q ≡ used_of self.old.held q }
        ensures known { OnOk result (AfterPut lane (packet_at (used_of self.old.held) place)
            (tray_of self.old) (tray_of self.new)) }
        ensures leaves { LeavesOtherEnds lane Tx (tray_of self.old) (tray_of self.new) }
        ensures plays { Played (row_put lane (packet_at (used_of self.old.held) place)) (tray_of self.old) (tray_of self.new)
            self.old.script self.new.script result }
    {
        self.put(lane, place)
    }

    fn file_start(&mut self, file: u32) -> Result<(), Halt>
        requires { file < length (roster_of (tray_of self.old)).files }
        ensures reads { OnTray (row_file_start file) (tray_of self.old) (tray_of self.new) result }
        ensures started { OnOk result (IsTrue (is_started file (tray_of self.new))) }
        ensures used { used_of self.new.held ≡ used_of self.old.held }
        ensures leaves { LeavesAllButFiles (tray_of self.old) (tray_of self.new) }
        ensures script { self.new.script ≡ self.old.script }
    {
        self.files[file as usize].start(self.alloc)?;
        Ok(())
    }

    fn file_append(&mut self, file: u32, place: u32) -> Result<bool, Halt>
        requires file { IsTrue (is_started file (tray_of self.old)) }
        requires place { IsSome (used_of self.old.held place) }
        ensures reads { OnTray (row_file_append file (packet_at (used_of self.old.held) place))
            (tray_of self.old) (tray_of self.new) result }
        ensures started { IsTrue (is_started file (tray_of self.new)) }
        ensures used { used_of self.new.held ≡ used_of self.old.held }
        ensures leaves { LeavesAllButFiles (tray_of self.old) (tray_of self.new) }
        ensures script { self.new.script ≡ self.old.script }
    {
        let payload = self.hold.packet(place).bytes();
        Ok(self.files[file as usize].append(payload)?)
    }

    fn count(&mut self, app: u32, counter: Counter, by: u64)
        requires { app < length (roster_of (tray_of self.old)).apps }
        ensures tray { tray_of self.new ≡ counted_on app counter by (tray_of self.old) }
        ensures used { used_of self.new.held ≡ used_of self.old.held }
        ensures script { self.new.script ≡ self.old.script }
    {
        self.counters.raise(app, counter, by);
    }

    fn keep_counts(&mut self, link: u32, counts: LinkCounts)
        requires { link < length (roster_of (tray_of self.old)).links }
        ensures tray { tray_of self.new ≡ kept_counts link counts (tray_of self.old) }
        ensures used { used_of self.new.held ≡ used_of self.old.held }
        ensures script { self.new.script ≡ self.old.script }
    {
        self.counters.keep(link, counts);
    }

    fn app_row(&self, name: &Name) -> u32 {
        name_row(&self.roster.apps, name)
    }

    fn link_row(&self, link: &LinkSpec) -> u32 {
        link_spec_row(&self.roster.links, link)
    }

    fn capture_of(&self, name: &FileName) -> u32 {
        file_row(&self.roster.captures, name)
    }

    fn file_of(&self, name: &FileName) -> u32 {
        file_row(&self.roster.files, name)
    }

    fn lane_of(&self, name: &Name) -> u32 {
        name_row(&self.roster.lanes, name)
    }
}
