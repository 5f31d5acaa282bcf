//! What a seat does by the rows of its roster: counters and files.
use crate::seat::Seat;
use sn_app::{Counter, Halt, file_row, link_spec_row, name_row};
use sn_link::LinkCounts;
use sn_names::{FileName, LinkSpec, Name};

impl Seat {
    ghost use Rattle.std.specs.Prelude.{◌≡◌, ◌<◌, IsSome, IsTrue, List, OnOk, length, ℕ};
    ghost use Rattle.sn_app.specs.Answers.{OnTray};
    ghost use Rattle.sn_app.specs.Calls.{HasLink, HasName, LeavesAllButFiles, row_of, row_of_link};
    ghost use Rattle.sn_app.specs.Desk.{counted_on, is_started, kept_counts};
    ghost use Rattle.sn_app.specs.Rows.{row_file_append, row_file_start};
    ghost use Rattle.sn_app.specs.World.{packet_at};
    ghost use Rattle.sn_seat.specs.Trays.{bond_of, no_captures, seat_tray, seat_used};

    /// Raises a count of the app at a row.
    pub(crate) fn count(&mut self, app: u32, counter: Counter, by: u64)
        requires { app < length self.old.roster.apps }
        ensures tray { (captures : List (List ℕ)) → seat_tray captures self.new
            ≡ counted_on app counter by (seat_tray captures self.old) }
        ensures used { seat_used self.new ≡ seat_used self.old }
        ensures kept { bond_of self.new ≡ bond_of self.old }
    {
        self.counters.raise(app, counter, by);
    }

    /// Adds counts to those of the link at a row.
    pub(crate) fn keep_counts(&mut self, link: u32, counts: LinkCounts)
        requires { link < length self.old.roster.links }
        ensures tray { (captures : List (List ℕ)) → seat_tray captures self.new
            ≡ kept_counts link counts (seat_tray captures self.old) }
        ensures used { seat_used self.new ≡ seat_used self.old }
        ensures kept { bond_of self.new ≡ bond_of self.old }
    {
        self.counters.keep(link, counts);
    }

    /// Empties a file to its header.
    pub(crate) fn file_start(&mut self, file: u32) -> Result<(), Halt>
        requires { file < length self.old.roster.files }
        ensures reads { (captures : List (List ℕ)) → OnTray (row_file_start file) (seat_tray captures self.old)
            (seat_tray captures self.new) result }
        ensures started { OnOk result (IsTrue (is_started file (seat_tray no_captures self.new))) }
        ensures used { seat_used self.new ≡ seat_used self.old }
        ensures leaves { (captures : List (List ℕ)) → LeavesAllButFiles (seat_tray captures self.old)
            (seat_tray captures self.new) }
        ensures kept { bond_of self.new ≡ bond_of self.old }
    {
        self.files[file as usize].start(self.alloc)?;
        Ok(())
    }

    /// Adds the record of the packet at a place to a file that was started.
    pub(crate) fn file_append(&mut self, file: u32, place: u32) -> Result<bool, Halt>
        requires file { IsTrue (is_started file (seat_tray no_captures self.old)) }
        requires place { IsSome (seat_used self.old place) }
        ensures reads { (captures : List (List ℕ)) → OnTray (row_file_append file (packet_at (seat_used self.old) place))
            (seat_tray captures self.old) (seat_tray captures self.new) result }
        ensures started { IsTrue (is_started file (seat_tray no_captures self.new)) }
        ensures used { seat_used self.new ≡ seat_used self.old }
        ensures leaves { (captures : List (List ℕ)) → LeavesAllButFiles (seat_tray captures self.old)
            (seat_tray captures self.new) }
        ensures kept { bond_of self.new ≡ bond_of self.old }
    {
        let ledger = &self.ledger;
        let payload = ledger.hold.packet(place).bytes();
        Ok(self.files[file as usize].append(payload)?)
    }

    /// The row of an app's name.
    pub(crate) fn app_row(&self, name: &Name) -> u32
        requires { HasName self.now.roster.apps name.now }
        ensures { result ≡ row_of self.now.roster.apps name.now }
    {
        name_row(&self.roster.apps, name)
    }

    /// The row of a link.
    pub(crate) fn link_row(&self, link: &LinkSpec) -> u32
        requires { HasLink self.now.roster.links link.now }
        ensures { result ≡ row_of_link self.now.roster.links link.now }
    {
        link_spec_row(&self.roster.links, link)
    }

    /// The row of a capture's name.
    pub(crate) fn capture_of(&self, name: &FileName) -> u32
        requires { HasName self.now.roster.captures name.now }
        ensures { result ≡ row_of self.now.roster.captures name.now }
    {
        file_row(&self.roster.captures, name)
    }

    /// The row of the name of a file that is written.
    pub(crate) fn file_of(&self, name: &FileName) -> u32
        requires { HasName self.now.roster.files name.now }
        ensures { result ≡ row_of self.now.roster.files name.now }
    {
        file_row(&self.roster.files, name)
    }

    /// The row of an interlink's name.
    pub(crate) fn lane_of(&self, name: &Name) -> u32
        requires { HasName self.now.roster.lanes name.now }
        ensures { result ≡ row_of self.now.roster.lanes name.now }
    {
        name_row(&self.roster.lanes, name)
    }
}
