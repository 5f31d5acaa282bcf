//! How a slot gives free packets back to the group.
ghost use Rattle.std.specs.Prelude.{◌≡◌, ◌≢◌, ℕ, IsSome, None, OnOk, Some};
ghost use Rattle.sn_app.specs.Answers.{OnTray};
ghost use Rattle.sn_app.specs.Desk.{name_of};
ghost use Rattle.sn_app.specs.World.{packet_at};
ghost use Rattle.sn_packet.specs.Hold.{put_at};
ghost use Rattle.sn_worker.specs.Giving.{gives_after, gives_named, gives_one, gives_over};

use crate::Seated;
use sn_app::Halt;
use sn_seat::Gave;

/// Gives the packet at a place. Where it can't be given it is free again. Whether it was given.
fn give_or_free<C: Seated>(ctx: &mut C, place: u32) -> Result<bool, Halt>
    requires { IsSome (C.used ctx.old place) }
    ensures reads { OnTray (gives_named (Some (name_of (packet_at (C.used ctx.old) place)))) (C.tray ctx.old) (C.tray ctx.new)
        result }
    ensures gone { OnOk result (C.used ctx.new ≡ put_at place None (C.used ctx.old)) }
    ensures others { (q : ℕ) → q ≢ place → C.used ctx.new q ≡ C.used ctx.old q }
    ensures lent { C.lender ctx.new ≡ C.lender ctx.old }
{
    let gave = ctx.give(place)?;
    match gave {
        Gave::Done => Ok(true),
        Gave::Full => {
            ctx.free(place);
            Ok(false)
        }
        Gave::Worn => {
            ctx.free(place);
            Ok(false)
        }
    }
}

/// Where more packets are free than `keep`, gives the one that was freed last. Whether it was given.
fn give_one<C: Seated>(ctx: &mut C, keep: u64) -> Result<bool, Halt>
    ensures reads { OnTray (gives_one keep) (C.tray ctx.old) (C.tray ctx.new) result }
    ensures used { OnOk result ((q : ℕ) → C.used ctx.new q ≡ C.used ctx.old q) }
    ensures stay { (q : ℕ) → IsSome (C.used ctx.old q) → C.used ctx.new q ≡ C.used ctx.old q }
    ensures lent { C.lender ctx.new ≡ C.lender ctx.old }
{
    if ctx.frees() <= keep {
        return Ok(false);
    }
    let came = ctx.allocate()?;
    match came {
        None => Ok(false),
        Some(place) => give_or_free(ctx, place),
    }
}

/// Gives packets until no more are free than `keep`, or one couldn't be given.
fn give_over<C: Seated>(ctx: &mut C, keep: u64) -> Result<(), Halt>
    ensures reads { OnTray (gives_over keep) (C.tray ctx.old) (C.tray ctx.new) result }
    ensures used { OnOk result ((q : ℕ) → C.used ctx.new q ≡ C.used ctx.old q) }
    ensures stay { (q : ℕ) → IsSome (C.used ctx.old q) → C.used ctx.new q ≡ C.used ctx.old q }
    ensures lent { C.lender ctx.new ≡ C.lender ctx.old }
{
    for turn in 0..ctx.frees() {
        let gave = give_one(ctx, keep)?;
        if !gave {
            return Ok(());
        }
    }
    Ok(())
}

/// Gives packets back where a hundred breaths are full.
pub(crate) fn give_after<C: Seated>(ctx: &mut C, breathed: u32, keep: u64) -> Result<(), Halt>
    ensures reads { OnTray (gives_after keep breathed) (C.tray ctx.old) (C.tray ctx.new) result }
    ensures used { OnOk result ((q : ℕ) → C.used ctx.new q ≡ C.used ctx.old q) }
    ensures stay { (q : ℕ) → IsSome (C.used ctx.old q) → C.used ctx.new q ≡ C.used ctx.old q }
    ensures lent { C.lender ctx.new ≡ C.lender ctx.old }
{
    if breathed == 0 {
        return give_over(ctx, keep);
    }
    Ok(())
}
