//! The context that apps run over.
ghost use base.Stored.{Gv};
ghost use Rattle.std.specs.Prelude.{◌≡◌, ◌≢◌, ℕ, ◌<◌, ◌≤◌, false, replicate, take, length, IfOk, IfSome};
ghost use Rattle.std.specs.Prelude.{IfNone, IsSome, IsTrue, None, OnOk, Ok, Some, slice_get};
ghost use Rattle.sn_packet.specs.Hold.{put_at};
ghost use Rattle.sn_packet.specs.Packet.{is_worn, most_bytes};
ghost use Rattle.sn_pcap.specs.Places.{IsAtEnd, IsPlace, IsRecordOf, StandsAt, payload_of};
ghost use Rattle.sn_app.specs.Answers.{OnTray};
ghost use Rattle.sn_app.specs.Calls.{AfterPut, AfterTake, HasLink, HasName, IsFresh, IsUp, Knows, LeavesAllButFiles};
ghost use Rattle.sn_app.specs.Calls.{LeavesEnds, LeavesOtherEnds, bytes_at, known_at, named, packet_there};
ghost use Rattle.sn_app.specs.Calls.{rewritten_at, row_of, row_of_link};
ghost use Rattle.sn_app.specs.Desk.{Tray, capture_at, counted_on, freed, is_started, kept_counts, name_of, roster_of};
ghost use Rattle.sn_app.specs.Gates.{working};
ghost use Rattle.sn_app.specs.Rows.{row_allocate, row_attach, row_detach, row_file_append, row_file_start, row_look};
ghost use Rattle.sn_app.specs.Rows.{row_put, row_room, row_take};
ghost use Rattle.sn_app.specs.World.{Used, packet_at};
ghost use Rattle.sn_app.specs.declared.end_state.EndState.TheVariants.{Out};
ghost use Rattle.sn_core.specs.declared.events.Side.TheVariants.{Rx, Tx};

use crate::{Counter, Halt};
use sn_core::Side;
use sn_link::LinkCounts;
use sn_names::{FileName, LinkSpec, Name};
use sn_pcap::RecordAt;

/// What an app runs over: packets at places, files, captures, counters, and the ends of interlinks.
///
/// Contracts see a context as its tray, which has no places, and as the packets that are held and not free, by their places.
/// A call that may read entries says that it answered as its row reads them. A place that is given to a call is held and not
/// free. After `Stopped` the context takes no further call but `keep_counts`.
pub trait Ctx {
    ghost tray: { Self → Tray };

    ghost used: { Self → Used };

    // Names what was lent to the context, a borrow and what it belongs to, so that who lent it knows it again.
    ghost lender: { Self → Gv };

    /// A free packet, of any bytes, at its place. Where there is none, up to 64 are claimed first. None where none came.
    ///
    /// # Errors
    /// A stop, or want of memory.
    fn allocate(&mut self) -> Result<Option<u32>, Halt>
        ensures reads { OnTray row_allocate (tray self.old) (tray self.new) (named (used self.new) result) }
        ensures fresh { IfOk result (λ place. IfSome place (IsFresh (used self.old) (used self.new))) }
        ensures others { (q : ℕ) → result ≢ Ok (Some q) → used self.new q ≡ used self.old q }
        ensures leaves { LeavesEnds (tray self.old) (tray self.new) }
        ensures lent { lender self.new ≡ lender self.old };

    /// The packet at a place becomes free.
    fn free(&mut self, place: u32)
        requires { IsSome (used self.old place) }
        ensures tray { tray self.new ≡ freed (name_of (packet_at (used self.old) place)) (tray self.old) }
        ensures used { used self.new ≡ put_at place None (used self.old) }
        ensures lent { lender self.new ≡ lender self.old };

    /// How many bytes the packet at a place has.
    fn size(&self, place: u32) -> u32
        requires { IsSome (used self.now place) }
        ensures value { result ≡ length (bytes_at (used self.now) place) }
        ensures most { result ≤ most_bytes };

    /// Whether the packet at a place is at the highest turn, so that it can't be put.
    fn worn(&self, place: u32) -> bool
        requires { IsSome (used self.now place) }
        ensures { result ≡ is_worn (packet_at (used self.now) place) };

    /// A byte of the packet at a place, counted from 0. None exactly where the packet is no longer.
    fn byte(&self, place: u32, at: u32) -> Option<u8>
        requires { IsSome (used self.now place) }
        ensures { result ≡ slice_get (bytes_at (used self.now) place) at };

    /// The packet at a place becomes so many zeros.
    fn zeros(&mut self, place: u32, len: u32)
        requires place { IsSome (used self.old place) }
        requires len { len ≤ most_bytes }
        ensures tray { tray self.new ≡ tray self.old }
        ensures used { used self.new ≡ rewritten_at place (replicate len 0) (used self.old) }
        ensures lent { lender self.new ≡ lender self.old };

    /// The packet at `to` gets the bytes of the one at `from`.
    fn copy(&mut self, from: u32, to: u32)
        requires from { IsSome (used self.old from) }
        requires to { IsSome (used self.old to) }
        ensures tray { tray self.new ≡ tray self.old }
        ensures used { used self.new ≡ rewritten_at to (bytes_at (used self.old) from) (used self.old) }
        ensures lent { lender self.new ≡ lender self.old };

    /// The packet at a place keeps its first bytes alone.
    fn cut(&mut self, place: u32, len: u32)
        requires place { IsSome (used self.old place) }
        requires len { len ≤ length (bytes_at (used self.old) place) }
        ensures tray { tray self.new ≡ tray self.old }
        ensures used { used self.new ≡ rewritten_at place (take len (bytes_at (used self.old) place)) (used self.old) }
        ensures lent { lender self.new ≡ lender self.old };

    /// Where the first record of a capture stands.
    fn first(&self, capture: u32) -> u64
        requires { capture < length (roster_of (tray self.now)).captures }
        ensures first { result ≡ 24 }
        ensures place { IsPlace (capture_at capture (tray self.now)) 24 };

    /// The record of a capture at a place, which is its first or a record's `next`. None exactly at the end.
    fn record(&self, capture: u32, at: u64) -> Option<RecordAt>
        requires capture { capture < length (roster_of (tray self.now)).captures }
        requires place { IsPlace (capture_at capture (tray self.now)) at }
        ensures found { IfSome result (StandsAt (capture_at capture (tray self.now)) at) }
        ensures end { IfNone result (IsAtEnd (capture_at capture (tray self.now)) at) };

    /// The packet at a place gets the bytes of a record.
    fn load(&mut self, place: u32, capture: u32, at: RecordAt)
        requires capture { capture < length (roster_of (tray self.old)).captures }
        requires place { IsSome (used self.old place) }
        requires record { IsRecordOf (capture_at capture (tray self.old)) at }
        requires len { at.len ≤ most_bytes }
        ensures tray { tray self.new ≡ tray self.old }
        ensures used { used self.new ≡ rewritten_at place (payload_of (capture_at capture (tray self.old)) at) (used self.old) }
        ensures lent { lender self.new ≡ lender self.old };

    /// Brings an end of an interlink up, if it isn't. False where the interlink was down, or its state had changed meanwhile.
    ///
    /// # Errors
    /// A stop, or want of memory.
    fn lane_attach(&mut self, lane: u32, side: Side) -> Result<bool, Halt>
        requires { IsTrue ((tray self.old).log.constants.has_end lane side) }
        ensures reads { OnTray (row_attach lane side) (tray self.old) (tray self.new) result }
        ensures up { IfOk result (λ came_up. IsTrue came_up → IsUp lane side (tray self.new)) }
        ensures used { used self.new ≡ used self.old }
        ensures leaves { LeavesOtherEnds lane side (tray self.old) (tray self.new) }
        ensures lent { lender self.new ≡ lender self.old };

    /// Takes an end of an interlink down, if it isn't. The last of both ends empties the interlink and frees its packets.
    ///
    /// # Errors
    /// A stop, or want of memory.
    fn lane_detach(&mut self, lane: u32, side: Side) -> Result<(), Halt>
        requires { IsTrue ((tray self.old).log.constants.has_end lane side) }
        ensures reads { OnTray (row_detach working lane side) (tray self.old) (tray self.new) result }
        ensures out { OnOk result (((tray self.new).ends lane side).state ≡ Out) }
        ensures used { used self.new ≡ used self.old }
        ensures leaves { LeavesOtherEnds lane side (tray self.old) (tray self.new) }
        ensures lent { lender self.new ≡ lender self.old };

    /// How many packets the receiver of an interlink can take: at least so many, and at most 1,023.
    ///
    /// # Errors
    /// A stop, or want of memory.
    fn lane_look(&mut self, lane: u32) -> Result<u32, Halt>
        requires end { IsTrue ((tray self.old).log.constants.has_end lane Rx) }
        requires up { IsUp lane Rx (tray self.old) }
        ensures reads { OnTray (row_look lane) (tray self.old) (tray self.new) result }
        ensures known { IfOk result (Knows lane Rx (tray self.old) (tray self.new)) }
        ensures used { used self.new ≡ used self.old }
        ensures leaves { LeavesOtherEnds lane Rx (tray self.old) (tray self.new) }
        ensures lent { lender self.new ≡ lender self.old };

    /// Takes the next packet of an interlink, of those that were seen.
    ///
    /// # Errors
    /// A stop, or want of memory.
    fn lane_take(&mut self, lane: u32) -> Result<u32, Halt>
        requires end { IsTrue ((tray self.old).log.constants.has_end lane Rx) }
        requires up { IsUp lane Rx (tray self.old) }
        requires known { 0 < known_at lane Rx (tray self.old) }
        ensures reads { OnTray (row_take lane) (tray self.old) (tray self.new) (packet_there (used self.new) result) }
        ensures fresh { IfOk result (IsFresh (used self.old) (used self.new)) }
        ensures others { (q : ℕ) → result ≢ Ok q → used self.new q ≡ used self.old q }
        ensures known { OnOk result (AfterTake lane (tray self.old) (tray self.new)) }
        ensures leaves { LeavesOtherEnds lane Rx (tray self.old) (tray self.new) }
        ensures lent { lender self.new ≡ lender self.old };

    /// For how many packets the transmitter of an interlink has room: at least so many, and at most 1,023.
    ///
    /// # Errors
    /// A stop, or want of memory.
    fn lane_room(&mut self, lane: u32) -> Result<u32, Halt>
        requires end { IsTrue ((tray self.old).log.constants.has_end lane Tx) }
        requires up { IsUp lane Tx (tray self.old) }
        ensures reads { OnTray (row_room lane) (tray self.old) (tray self.new) result }
        ensures known { IfOk result (Knows lane Tx (tray self.old) (tray self.new)) }
        ensures used { used self.new ≡ used self.old }
        ensures leaves { LeavesOtherEnds lane Tx (tray self.old) (tray self.new) }
        ensures lent { lender self.new ≡ lender self.old };

    /// Puts the packet at a place into an interlink, where there was room. On a stop nothing is said of the place.
    ///
    /// # Errors
    /// A stop, or want of memory.
    fn lane_put(&mut self, lane: u32, place: u32) -> Result<(), Halt>
        requires end { IsTrue ((tray self.old).log.constants.has_end lane Tx) }
        requires up { IsUp lane Tx (tray self.old) }
        requires known { 0 < known_at lane Tx (tray self.old) }
        requires place { IsSome (used self.old place) }
        requires worn { is_worn (packet_at (used self.old) place) ≡ false }
        ensures reads { OnTray (row_put lane (packet_at (used self.old) place)) (tray self.old) (tray self.new) result }
        ensures gone { OnOk result (used self.new ≡ put_at place None (used self.old)) }
        ensures others { (q : ℕ) → q ≢ place → used self.new q ≡ used self.old q }
        ensures known { OnOk result (AfterPut lane (packet_at (used self.old) place) (tray self.old) (tray self.new)) }
        ensures leaves { LeavesOtherEnds lane Tx (tray self.old) (tray self.new) }
        ensures lent { lender self.new ≡ lender self.old };

    /// Empties a file to its header.
    ///
    /// # Errors
    /// A stop, or want of memory.
    fn file_start(&mut self, file: u32) -> Result<(), Halt>
        requires { file < length (roster_of (tray self.old)).files }
        ensures reads { OnTray (row_file_start file) (tray self.old) (tray self.new) result }
        ensures started { OnOk result (IsTrue (is_started file (tray self.new))) }
        ensures used { used self.new ≡ used self.old }
        ensures leaves { LeavesAllButFiles (tray self.old) (tray self.new) }
        ensures lent { lender self.new ≡ lender self.old };

    /// Adds the record of the packet at a place to a file that was started. False, with the file unchanged, exactly where it
    /// would pass 33,554,432 bytes.
    ///
    /// # Errors
    /// A stop, or want of memory.
    fn file_append(&mut self, file: u32, place: u32) -> Result<bool, Halt>
        requires file { IsTrue (is_started file (tray self.old)) }
        requires place { IsSome (used self.old place) }
        ensures reads { OnTray (row_file_append file (packet_at (used self.old) place)) (tray self.old) (tray self.new) result }
        ensures started { IsTrue (is_started file (tray self.new)) }
        ensures used { used self.new ≡ used self.old }
        ensures leaves { LeavesAllButFiles (tray self.old) (tray self.new) }
        ensures lent { lender self.new ≡ lender self.old };

    /// Raises a count of the app at a row.
    fn count(&mut self, app: u32, counter: Counter, by: u64)
        requires { app < length (roster_of (tray self.old)).apps }
        ensures tray { tray self.new ≡ counted_on app counter by (tray self.old) }
        ensures used { used self.new ≡ used self.old }
        ensures lent { lender self.new ≡ lender self.old };

    /// Adds counts to those of the link at a row.
    fn keep_counts(&mut self, link: u32, counts: LinkCounts)
        requires { link < length (roster_of (tray self.old)).links }
        ensures tray { tray self.new ≡ kept_counts link counts (tray self.old) }
        ensures used { used self.new ≡ used self.old }
        ensures lent { lender self.new ≡ lender self.old };

    /// The row of an app's name.
    fn app_row(&self, name: &Name) -> u32
        requires { HasName (roster_of (tray self.now)).apps name.now }
        ensures { result ≡ row_of (roster_of (tray self.now)).apps name.now };

    /// The row of a link.
    fn link_row(&self, link: &LinkSpec) -> u32
        requires { HasLink (roster_of (tray self.now)).links link.now }
        ensures { result ≡ row_of_link (roster_of (tray self.now)).links link.now };

    /// The row of a capture's name.
    fn capture_of(&self, name: &FileName) -> u32
        requires { HasName (roster_of (tray self.now)).captures name.now }
        ensures { result ≡ row_of (roster_of (tray self.now)).captures name.now };

    /// The row of the name of a file that is written.
    fn file_of(&self, name: &FileName) -> u32
        requires { HasName (roster_of (tray self.now)).files name.now }
        ensures { result ≡ row_of (roster_of (tray self.now)).files name.now };

    /// The row of an interlink's name.
    fn lane_of(&self, name: &Name) -> u32
        requires { HasName (roster_of (tray self.now)).lanes name.now }
        ensures { result ≡ row_of (roster_of (tray self.now)).lanes name.now };
}
