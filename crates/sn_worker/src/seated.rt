//! What a slot's turns need of a context beside what a worker's need.
ghost use base.Stored.{Gv};
ghost use Rattle.std.specs.Prelude.{◌≡◌, ◌≤◌, All, IfOk, IsSome, OnErr, length, ℕ};
ghost use Rattle.sn_app.specs.Answers.{OnTray};
ghost use Rattle.sn_app.specs.Desk.{name_of};
ghost use Rattle.sn_app.specs.Rows.{row_give, row_hear};
ghost use Rattle.sn_app.specs.World.{packet_at};
ghost use Rattle.sn_seat.specs.GiveSteps.{given_answer, used_after};
ghost use Rattle.sn_seat.specs.Told.{of_channel};

use crate::Work;
use sn_app::Halt;
use sn_seat::Gave;

/// A context over a seat: it hears how many actions are due, and its free packets can be given back to the group.
pub trait Seated: Work {
    // How many actions were due already, by what was lent to the context: it never hears less.
    ghost floor: { Gv → ℕ };

    /// Hears how many actions are due.
    ///
    /// # Errors
    /// A stop, or want of memory.
    fn hear(&mut self) -> Result<u64, Halt>
        ensures reads { OnTray row_hear (Self.tray self.old) (Self.tray self.new) result }
        ensures met { IfOk result (λ n. floor (Self.lender self.old) ≤ n) }
        ensures rising { IfOk result (λ n. All (λ before. before ≤ n) (of_channel (Self.tray self.old).log.past)) }
        ensures used { Self.used self.new ≡ Self.used self.old }
        ensures lent { Self.lender self.new ≡ Self.lender self.old };

    /// Gives the packet at a place to the group. Where the group has no room, or the packet is worn, it stays held at the same
    /// place, and isn't free.
    ///
    /// # Errors
    /// A stop, or want of memory.
    fn give(&mut self, place: u32) -> Result<Gave, Halt>
        requires { IsSome (Self.used self.old place) }
        ensures reads { OnTray (row_give (name_of (packet_at (Self.used self.old) place))) (Self.tray self.old)
            (Self.tray self.new) (given_answer result) }
        ensures used { IfOk result (λ gave. Self.used self.new ≡ used_after place gave (Self.used self.old)) }
        ensures refused { OnErr result (Self.used self.new ≡ Self.used self.old) }
        ensures lent { Self.lender self.new ≡ Self.lender self.old };

    /// How many packets are free.
    fn frees(&self) -> u64
        ensures { result ≡ length (Self.tray self.now).free };
}
