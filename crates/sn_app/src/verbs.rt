//! What apps do with packets and links: send and take.
ghost use Rattle.std.specs.Prelude.{◌≡◌, ◌<◌, [], ◌∷◌, length, IfSome, IsSome, Ok};
ghost use Rattle.std.specs.Option.{option_map};
ghost use Rattle.sn_packet.specs.Hold.{among};
ghost use Rattle.sn_app.specs.Calls.{LeavesLanes};
ghost use Rattle.sn_app.specs.Ports.{HasInputs, HasOutputs, KeepsRows, SamePorts, in_row, ins_of, out_row, outs_of, slots_of};
ghost use Rattle.sn_app.specs.Rows.{sends, takes};
ghost use Rattle.sn_app.specs.Runs.{Runs};
ghost use Rattle.sn_app.specs.World.{IsSound, at_answer, nowhere, packet_at, world};

use crate::{Ctx, Ports};

/// Sends the packet at a place on an output. Where the link is full the packet is freed.
pub fn send<C: Ctx>(ctx: &mut C, ports: &mut Ports<'_>, o: usize, place: u32)
    requires o { o < length (outs_of ports.old) }
    requires links { HasOutputs ports.old }
    requires sound { IsSound (world (C.tray ctx.old) (C.used ctx.old) (slots_of ports.old)) (among (place ∷ [])) }
    ensures runs { Runs (sends (out_row ports.old o) (packet_at (C.used ctx.old) place))
        (world (C.tray ctx.old) (C.used ctx.old) (slots_of ports.old))
        (world (C.tray ctx.new) (C.used ctx.new) (slots_of ports.new)) (among (place ∷ [])) nowhere (Ok tt) }
    ensures same { SamePorts ports.old ports.new }
    ensures rows { KeepsRows (slots_of ports.old) (slots_of ports.new) }
    ensures leaves { LeavesLanes (C.tray ctx.old) (C.tray ctx.new) }
    ensures lent { C.lender ctx.new ≡ C.lender ctx.old }
{
    let len = ctx.size(place);
    match ports.transmit(o, place, len) {
        None => (),
        Some(back) => ctx.free(back),
    }
}

/// Takes the packet at the front of an input. None exactly where it has none.
pub fn take<C: Ctx>(ctx: &C, ports: &mut Ports<'_>, i: usize) -> Option<u32>
    requires i { i < length (ins_of ports.old) }
    requires links { HasInputs ports.old }
    requires sound { IsSound (world (C.tray ctx.now) (C.used ctx.now) (slots_of ports.old)) nowhere }
    ensures runs { Runs (takes (in_row ports.old i)) (world (C.tray ctx.now) (C.used ctx.now) (slots_of ports.old))
        (world (C.tray ctx.now) (C.used ctx.now) (slots_of ports.new)) nowhere (at_answer result)
        (Ok (option_map (packet_at (C.used ctx.now)) result)) }
    ensures in_use { IfSome result (λ place. IsSome (C.used ctx.now place)) }
    ensures same { SamePorts ports.old ports.new }
    ensures rows { KeepsRows (slots_of ports.old) (slots_of ports.new) }
{
    ports.receive(i)
}
