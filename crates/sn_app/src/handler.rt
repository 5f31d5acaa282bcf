//! What an app does with each packet of an input.
ghost use Rattle.std.specs.Prelude.{◌≡◌, ◌<◌, ℕ, Bool, [], ◌∷◌, length};
ghost use Rattle.sn_packet.specs.Hold.{among};
ghost use Rattle.sn_packet.specs.Packet.{PacketState};
ghost use Rattle.sn_app.specs.Apps.{next_of};
ghost use Rattle.sn_app.specs.Loops.{Did, IsReady};
ghost use Rattle.sn_app.specs.Ports.{KeepsRows, SamePorts, in_row, ins_of, slots_of};
ghost use Rattle.sn_app.specs.Reader.{Meaning, times};
ghost use Rattle.sn_app.specs.Runs.{Runs};
ghost use Rattle.sn_app.specs.World.{IsSound, nowhere, packet_at, world};
ghost use Rattle.sn_app.specs.declared.ports.Ports.{Ports as PortsOf};

use crate::{Ctx, Halt, Ports, take};

/// What an app does with a packet that it took: it sends it, frees it, or gives it away, so that nothing stays in its hand.
pub trait Handler<C: Ctx> {
    // The app's row, where it counts.
    ghost app: { Self → ℕ };

    // What it needs of the ports.
    ghost fits: { Self → PortsOf → Type 0 };

    // What it does with a packet.
    ghost handles: { Self → PortsOf → PacketState → Meaning Bool };

    /// Handles the packet at a place. False where the app's call ends.
    ///
    /// # Errors
    /// A stop, or want of memory.
    fn handle(&self, ctx: &mut C, ports: &mut Ports<'_>, place: u32) -> Result<bool, Halt>
        requires ready { IsReady (app self.now) (C.tray ctx.old) (C.used ctx.old) ports.old }
        requires fits { fits self.now ports.old }
        requires sound { IsSound (world (C.tray ctx.old) (C.used ctx.old) (slots_of ports.old)) (among (place ∷ [])) }
        ensures runs { Runs (handles self.now ports.old (packet_at (C.used ctx.old) place))
            (world (C.tray ctx.old) (C.used ctx.old) (slots_of ports.old))
            (world (C.tray ctx.new) (C.used ctx.new) (slots_of ports.new)) (among (place ∷ [])) nowhere result }
        ensures same { SamePorts ports.old ports.new }
        ensures rows { KeepsRows (slots_of ports.old) (slots_of ports.new) }
        ensures lent { C.lender ctx.new ≡ C.lender ctx.old };

    // It does the same while the ports and the links' rows stay.
    ghost fits_later: { (handler : Self) (from to : PortsOf) → SamePorts from to → KeepsRows (slots_of from) (slots_of to)
        → fits handler from → fits handler to };

    ghost handles_later: { (handler : Self) (from to : PortsOf) → SamePorts from to → KeepsRows (slots_of from) (slots_of to)
        → handles handler to ≡ handles handler from };
}

/// Handles the next packet of an input. False where it has none, or the call ends.
///
/// # Errors
/// A stop, or want of memory.
pub fn handle_next<C: Ctx, H: Handler<C>>(
    handler: &H,
    ctx: &mut C,
    ports: &mut Ports<'_>,
    i: usize,
) -> Result<bool, Halt>
    requires ready { IsReady (H.app handler.now) (C.tray ctx.old) (C.used ctx.old) ports.old }
    requires fits { H.fits handler.now ports.old }
    requires i { i < length (ins_of ports.old) }
    ensures did { Did (next_of (in_row ports.old i) (H.handles handler.now ports.old))
        (C.tray ctx.old) (C.tray ctx.new) (C.used ctx.old) (C.used ctx.new) ports.old ports.new result }
    ensures lent { C.lender ctx.new ≡ C.lender ctx.old }
{
    match take(ctx, ports, i) {
        None => Ok(false),
        Some(place) => handler.handle(ctx, ports, place),
    }
}

/// Handles so many packets of an input. False where the call ends.
///
/// # Errors
/// A stop, or want of memory.
pub fn handle_some<C: Ctx, H: Handler<C>>(
    handler: &H,
    ctx: &mut C,
    ports: &mut Ports<'_>,
    i: usize,
    count: u32,
) -> Result<bool, Halt>
    requires ready { IsReady (H.app handler.now) (C.tray ctx.old) (C.used ctx.old) ports.old }
    requires fits { H.fits handler.now ports.old }
    requires i { i < length (ins_of ports.old) }
    ensures did { Did (times count (next_of (in_row ports.old i) (H.handles handler.now ports.old)))
        (C.tray ctx.old) (C.tray ctx.new) (C.used ctx.old) (C.used ctx.new) ports.old ports.new result }
    ensures lent { C.lender ctx.new ≡ C.lender ctx.old }
{
    for _turn in 0..count {
        if !handle_next(handler, ctx, ports, i)? {
            return Ok(false);
        }
    }
    Ok(true)
}
