//! The link of a row, by its key in the slab.
ghost use Rattle.std.specs.Prelude.{◌≡◌, ◌≤◌, IfSome, IfNone, IsSome, Some};
ghost use Rattle.sn_app.specs.Apps.{readable};
ghost use Rattle.sn_app.specs.Desk.{Tray};
ghost use Rattle.sn_app.specs.Ports.{line_at};
ghost use Rattle.sn_app.specs.World.{Used, desk_of, rows_in, world};
ghost use Rattle.sn_wiring.specs.Links.{slot_at};

use slab::Slab;
use sn_link::Link;

/// The key of the link of a row, which is there.
pub(crate) fn key_of_row(links: &Slab<Link>, row: u32) -> usize
    requires { 1 ≤ rows_in row links.now.slots }
    ensures there { IsSome (slot_at links.now.slots result) }
    ensures row { (line_at links.now.slots result).row ≡ row }
{
    for key in 0..links.capacity() {
        if let Some(link) = links.get(key) {
            if link.row() == row {
                return key;
            }
        }
    }
    unreachable!()
}

/// How many packets the link of a row has, 0 where no link has the row.
pub fn readable_at(links: &Slab<Link>, row: u32) -> u32
    ensures { (t : Tray) (u : Used) → result ≡ readable row (desk_of (world t u links.now.slots)) }
{
    for key in 0..links.capacity() {
        if let Some(link) = links.get(key) {
            if link.row() == row {
                return link.nreadable();
            }
        }
    }
    0
}
