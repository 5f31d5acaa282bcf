//! How a bench allocates: where no packet is free, its script says which ones come.
ghost use Rattle.std.specs.Prelude.{◌≡◌, ◌≢◌, ℕ, IfErr, IfOk, IfSome, None, Ok, OnOk, Some};
ghost use Rattle.sn_packet.specs.Hold.{used_of};
ghost use Rattle.sn_app.specs.Answers.{OnTray};
ghost use Rattle.sn_app.specs.Bench.{first_of, tray_of};
ghost use Rattle.sn_app.specs.Calls.{IsFresh, LeavesEnds, named};
ghost use Rattle.sn_app.specs.Claims.{Claims, ClaimsAll, ClaimsOne};
ghost use Rattle.sn_app.specs.Rows.{got_or_dry, refill, refill_one, refill_where, row_allocate, take_last};
ghost use Rattle.sn_app.specs.declared.halt.Halt.TheVariants.{OutOfMemory};

use crate::arrivals::lay_free;
use crate::tape::Tape;
use crate::{Bench, Halt};
use sn_journal::Entry;
use sn_packet::{MAX_PACKETS, MAX_TURN, Packet};

/// The most packets of one refill.
const MOST_REFILLED: u32 = 64;

/// What an entry says to a claim: a packet and its turn, or that none came. None where a claim may not read it.
fn claim_in(entry: &Entry) -> Option<Option<(u32, u64)>>
    ensures { result ≡ got_or_dry entry.now }
{
    match entry {
        Entry::Got(packet, turn) if *packet < MAX_PACKETS && *turn <= MAX_TURN => {
            Some(Some((*packet, *turn)))
        }
        Entry::Dry => Some(None),
        _ => None,
    }
}

/// What the script's next entry says to a claim.
fn next_claim(tape: &Tape) -> Option<Option<(u32, u64)>>
    ensures { result ≡ first_of got_or_dry tape.now.script }
{
    match tape.next() {
        None => None,
        Some(entry) => claim_in(entry),
    }
}

impl Bench {
    /// Takes the packet that the script's next entry says, at the turn it says. It becomes free.
    fn take_claimed(&mut self, number: u32, turn: u64) -> Result<bool, Halt>
        requires { first_of got_or_dry self.old.script ≡ Some (Some (number, turn)) }
        ensures reads { OnTray refill_one (tray_of self.old) (tray_of self.new) result }
        ensures used { used_of self.new.held ≡ used_of self.old.held }
        ensures leaves { LeavesEnds (tray_of self.old) (tray_of self.new) }
        ensures claims { IfOk result (ClaimsOne self.old self.new) }
        ensures memory { IfErr result (λ halt. halt ≡ OutOfMemory) }
    {
        let packet = Packet::new(self.alloc, number, turn)?;
        self.hold.reserve(1)?;
        self.tape.reserve()?;
        self.tape.advance();
        lay_free(&mut self.hold, packet);
        Ok(true)
    }

    /// Reads the script's next entry, which says that none came.
    fn read_dry(&mut self) -> Result<bool, Halt>
        requires { first_of got_or_dry self.old.script ≡ Some None }
        ensures reads { OnTray refill_one (tray_of self.old) (tray_of self.new) result }
        ensures used { used_of self.new.held ≡ used_of self.old.held }
        ensures leaves { LeavesEnds (tray_of self.old) (tray_of self.new) }
        ensures claims { IfOk result (ClaimsOne self.old self.new) }
        ensures memory { IfErr result (λ halt. halt ≡ OutOfMemory) }
    {
        self.tape.reserve()?;
        self.tape.advance();
        Ok(false)
    }

    /// Adds that none came, where the script's next entry says nothing of a claim.
    fn add_dry(&mut self) -> Result<bool, Halt>
        requires { first_of got_or_dry self.old.script ≡ None }
        ensures reads { OnTray refill_one (tray_of self.old) (tray_of self.new) result }
        ensures used { used_of self.new.held ≡ used_of self.old.held }
        ensures leaves { LeavesEnds (tray_of self.old) (tray_of self.new) }
        ensures claims { IfOk result (ClaimsOne self.old self.new) }
        ensures memory { IfErr result (λ halt. halt ≡ OutOfMemory) }
    {
        self.tape.reserve()?;
        self.tape.note(Entry::Dry);
        Ok(false)
    }

    /// Claims a packet. False where none came.
    fn claim(&mut self) -> Result<bool, Halt>
        ensures reads { OnTray refill_one (tray_of self.old) (tray_of self.new) result }
        ensures used { used_of self.new.held ≡ used_of self.old.held }
        ensures leaves { LeavesEnds (tray_of self.old) (tray_of self.new) }
        ensures claims { IfOk result (ClaimsOne self.old self.new) }
        ensures memory { IfErr result (λ halt. halt ≡ OutOfMemory) }
    {
        match next_claim(&self.tape) {
            Some(Some((number, turn))) => self.take_claimed(number, turn),
            Some(None) => self.read_dry(),
            None => self.add_dry(),
        }
    }

    /// Claims packets, until none came or as many did as one refill claims at most. Whether so many did.
    fn refill(&mut self) -> Result<bool, Halt>
        ensures reads { OnTray refill (tray_of self.old) (tray_of self.new) result }
        ensures used { used_of self.new.held ≡ used_of self.old.held }
        ensures leaves { LeavesEnds (tray_of self.old) (tray_of self.new) }
        ensures claims { OnOk result (ClaimsAll self.old self.new) }
        ensures memory { IfErr result (λ halt. halt ≡ OutOfMemory) }
    {
        for _turn in 0..MOST_REFILLED {
            if !self.claim()? {
                return Ok(false);
            }
        }
        Ok(true)
    }

    /// Refills where no packet is free.
    fn refill_where_empty(&mut self) -> Result<bool, Halt>
        ensures reads { OnTray (refill_where (tray_of self.old).free) (tray_of self.old) (tray_of self.new) result }
        ensures used { used_of self.new.held ≡ used_of self.old.held }
        ensures leaves { LeavesEnds (tray_of self.old) (tray_of self.new) }
        ensures claims { OnOk result (Claims self.old self.new) }
        ensures memory { IfErr result (λ halt. halt ≡ OutOfMemory) }
    {
        if self.hold.frees() > 0 {
            return Ok(true);
        }
        self.refill()
    }

    /// The place of the packet that was freed last, which is no longer free.
    fn take_last(&mut self) -> Option<u32>
        ensures reads { OnTray take_last (tray_of self.old) (tray_of self.new) (named (used_of self.new.held) (Ok result)) }
        ensures fresh { IfSome result (IsFresh (used_of self.old.held) (used_of self.new.held)) }
        ensures others { (q : ℕ) → result ≢ Some q → used_of self.new.held q ≡ used_of self.old.held q }
        ensures rest { self.new ≡ record self.old { held = self.new.held } }
    {
        self.hold.take_free()
    }

    /// A free packet, of any bytes, at its place. Where there is none, up to 64 are claimed first. None where none came.
    pub(crate) fn allocate_packet(&mut self) -> Result<Option<u32>, Halt>
        ensures reads { OnTray row_allocate (tray_of self.old) (tray_of self.new) (named (used_of self.new.held) result) }
        ensures fresh { IfOk result (λ place. IfSome place (IsFresh (used_of self.old.held) (used_of self.new.held))) }
        ensures others { (q : ℕ) → result ≢ Ok (Some q) → used_of self.new.held q ≡ used_of self.old.held q }
        ensures leaves { LeavesEnds (tray_of self.old) (tray_of self.new) }
        // What is read and added, and what is left of the script.
        ensures claims { OnOk result (Claims self.old self.new) }
        // It never stops: where the script has no claim to be read, no packet comes.
        ensures memory { IfErr result (λ halt. halt ≡ OutOfMemory) }
    {
        self.refill_where_empty()?;
        Ok(self.take_last())
    }
}
