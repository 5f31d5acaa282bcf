//! The class PcapWriter: writes the packets of its input to a file.
ghost use Rattle.std.specs.Prelude.{◌≡◌, ◌<◌, [], ◌∷◌, length, IfOk, IsSome, IsTrue, List, Option, refl, true};
ghost use Rattle.sn_app.specs.Apps.{name_in, next_of, pcap_writer, starts, write_packet, writer_push};
ghost use Rattle.sn_app.specs.Calls.{row_of};
ghost use Rattle.sn_app.specs.Desk.{is_started, roster_of};
ghost use Rattle.sn_app.specs.Loops.{Did, IsReady};
ghost use Rattle.sn_app.specs.Ports.{in_row, ins_of};
ghost use Rattle.sn_app.specs.Reader.{times};
ghost use Rattle.sn_app.specs.Runs.{Runs, stands_at};
ghost use Rattle.sn_app.specs.Starts.{ArgIsThere};
ghost use Rattle.sn_app.specs.World.{IsSound, nowhere, packet_at, world};
ghost use Rattle.sn_config.specs.ArgText.{IsArgOf};
ghost use Rattle.sn_edge.specs.Needs.{CanWrite, CanWrite-stays, HasRow};
ghost use Rattle.sn_edge.specs.Shown.{shown_as};
ghost use Rattle.sn_link.specs.Link.{Line};
ghost use Rattle.sn_names.specs.declared.class.Class.{Class};
ghost use Rattle.sn_packet.specs.Hold.{among};

use sn_app::{App, Counter, Ctx, Halt, Ports, linked_input, take};
use sn_names::{Arg, Class};

/// Adds the packet at a place to a file, frees it and counts it: as dropped where the file is at its limit.
fn append_one<C: Ctx>(row: u32, file: u32, ctx: &mut C, place: u32) -> Result<(), Halt>
    requires row { HasRow row (C.tray ctx.old) }
    requires file { IsTrue (is_started file (C.tray ctx.old)) }
    requires place { IsSome (C.used ctx.old place) }
    ensures runs { (slots : List (Option Line))
        → IsSound (world (C.tray ctx.old) (C.used ctx.old) slots) (among (place ∷ []))
        → Runs (write_packet row file (packet_at (C.used ctx.old) place))
        (world (C.tray ctx.old) (C.used ctx.old) slots) (world (C.tray ctx.new) (C.used ctx.new) slots)
        (among (place ∷ [])) nowhere (stands_at true result) }
    ensures lent { C.lender ctx.new ≡ C.lender ctx.old }
{
    let added = ctx.file_append(file, place)?;
    ctx.free(place);
    if !added {
        ctx.count(row, Counter::Dropped, 1);
        return Ok(());
    }
    ctx.count(row, Counter::Packets, 1);
    Ok(())
}

/// The next packet of an input. False where it has none.
fn append_next<C: Ctx>(
    row: u32,
    file: u32,
    ctx: &mut C,
    ports: &mut Ports<'_>,
    i: usize,
) -> Result<bool, Halt>
    requires ready { IsReady row (C.tray ctx.old) (C.used ctx.old) ports.old }
    requires file { IsTrue (is_started file (C.tray ctx.old)) }
    requires i { i < length (ins_of ports.old) }
    ensures did { Did (next_of (in_row ports.old i) (write_packet row file))
        (C.tray ctx.old) (C.tray ctx.new) (C.used ctx.old) (C.used ctx.new) ports.old ports.new result }
    ensures lent { C.lender ctx.new ≡ C.lender ctx.old }
{
    let Some(place) = take(ctx, ports, i) else {
        return Ok(false);
    };
    append_one(row, file, ctx, place)?;
    Ok(true)
}

/// So many packets of an input. False where it has fewer.
fn append_some<C: Ctx>(
    row: u32,
    file: u32,
    ctx: &mut C,
    ports: &mut Ports<'_>,
    i: usize,
    count: u32,
) -> Result<bool, Halt>
    requires ready { IsReady row (C.tray ctx.old) (C.used ctx.old) ports.old }
    requires file { IsTrue (is_started file (C.tray ctx.old)) }
    requires i { i < length (ins_of ports.old) }
    ensures did { Did (times count (next_of (in_row ports.old i) (write_packet row file)))
        (C.tray ctx.old) (C.tray ctx.new) (C.used ctx.old) (C.used ctx.new) ports.old ports.new result }
    ensures lent { C.lender ctx.new ≡ C.lender ctx.old }
{
    for _turn in 0..count {
        if !append_next(row, file, ctx, ports, i)? {
            return Ok(false);
        }
    }
    Ok(true)
}

/// All that an input has.
fn append_all<C: Ctx>(
    row: u32,
    file: u32,
    ctx: &mut C,
    ports: &mut Ports<'_>,
    i: usize,
) -> Result<bool, Halt>
    requires ready { IsReady row (C.tray ctx.old) (C.used ctx.old) ports.old }
    requires file { IsTrue (is_started file (C.tray ctx.old)) }
    requires i { i < length (ins_of ports.old) }
    ensures did { Did (writer_push row file (in_row ports.old i))
        (C.tray ctx.old) (C.tray ctx.new) (C.used ctx.old) (C.used ctx.new) ports.old ports.new result }
    ensures lent { C.lender ctx.new ≡ C.lender ctx.old }
{
    let count = ports.readable(i);
    append_some(row, file, ctx, ports, i, count)
}

/// Writes the packets of its input to a file, each as a record behind the others.
#[derive(Debug, Drop)]
pub struct PcapWriter {
    row: u32,
    file: u32,
}

/// The row of the file that an argument names.
fn file_in<C: Ctx>(ctx: &C, arg: &Arg) -> u32
    requires arg { IsArgOf Class.PcapWriter arg.now }
    requires there { ArgIsThere Class.PcapWriter arg.now (C.tray ctx.now) }
    ensures { result ≡ row_of (roster_of (C.tray ctx.now)).files (name_in arg.now) }
{
    match arg {
        Arg::File(name) => ctx.file_of(name),
        _ => unreachable!(),
    }
}

impl PcapWriter {
    /// A writer at a row of the roster. It empties the argument's file to its header.
    ///
    /// # Errors
    /// A stop, or want of memory.
    pub fn start<C: Ctx>(ctx: &mut C, row: u32, arg: &Arg) -> Result<PcapWriter, Halt>
        requires row { HasRow row (C.tray ctx.old) }
        requires arg { IsArgOf Class.PcapWriter arg.now }
        requires there { ArgIsThere Class.PcapWriter arg.now (C.tray ctx.old) }
        ensures runs { (slots : List (Option Line))
            → Runs (starts Class.PcapWriter arg.now row)
            (world (C.tray ctx.old) (C.used ctx.old) slots) (world (C.tray ctx.new) (C.used ctx.new) slots)
            nowhere nowhere (shown_as (λ app. pcap_writer app.row app.file) result) }
        ensures ready { IfOk result (λ app. CanWrite app.row app.file (C.tray ctx.new)) }
        ensures lent { C.lender ctx.new ≡ C.lender ctx.old }
    {
        let file = file_in(ctx, arg);
        ctx.file_start(file)?;
        Ok(PcapWriter { row, file })
    }
}

impl<C: Ctx> App<C> for PcapWriter {
    ghost class = { Class.PcapWriter };

    ghost can_run = { λ app t. CanWrite app.row app.file t };

    ghost places = { λ app place. 0 };

    ghost state = { λ app u t. pcap_writer app.row app.file };

    fn pull(&mut self, _ctx: &mut C, _ports: &mut Ports<'_>) -> Result<(), Halt> {
        Ok(())
    }

    fn push(&mut self, ctx: &mut C, ports: &mut Ports<'_>) -> Result<(), Halt> {
        let Some(i) = linked_input(ports) else {
            return Ok(());
        };
        append_all(self.row, self.file, ctx, ports, i)?;
        Ok(())
    }

    fn reconfig(&mut self, ctx: &mut C, arg: &Arg) -> Result<(), Halt> {
        let file = file_in(ctx, arg);
        ctx.file_start(file)?;
        self.file = file;
        Ok(())
    }

    fn stop(&mut self, _ctx: &mut C) -> Result<(), Halt> {
        Ok(())
    }

    ghost stays = { λ app t s stays h. CanWrite-stays app.row app.file t s stays h };

    ghost keeps = { λ app u v t s stays same. refl };
}
