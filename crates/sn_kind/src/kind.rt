//! An app of any class, and its calls.
ghost use Rattle.std.specs.Prelude.{◌≡◌, ℕ, ◌<◌, IfOk, List, OnOk, Option, length, true};
ghost use Rattle.sn_app.specs.Apps.{pulls, pushes, reconfigs, starts, stops};
ghost use Rattle.sn_app.specs.Desk.{roster_of};
ghost use Rattle.sn_app.specs.Ports.{HasInputs, HasOutputs, KeepsRows, SamePorts, in_ports, out_ports, slots_of};
ghost use Rattle.sn_app.specs.Runs.{Runs, stands_at};
ghost use Rattle.sn_app.specs.Starts.{AreKept, ArgIsThere};
ghost use Rattle.sn_app.specs.World.{IsSound, nowhere, world};
ghost use Rattle.sn_config.specs.ArgText.{IsArgOf};
ghost use Rattle.sn_edge.specs.Shown.{shown_as};
ghost use Rattle.sn_kind.specs.Kinds.{kind_can_run, kind_class, kind_places, kind_state};
ghost use Rattle.sn_kind.specs.Unread.{CanCount, kind_unread};
ghost use Rattle.sn_link.specs.Link.{Line};

use sn_app::{App, Ctx, Halt, Ports};
use sn_basic::{ByteFilter, Join, Repeater, Sample, Sink, Source, Split, Tee, Truncate};
use sn_edge::{PcapReader, PcapWriter, Receiver, Transmitter};
use sn_names::{Arg, Class};
use sn_pcap::Capture;
use std::alloc::Global;

/// An app, by its class.
///
/// Contracts see what the class's own app shows as `App`: what it needs of its context, the places whose packets it keeps, and
/// its state. After an error it is only dropped.
#[derive(Debug, Drop)]
pub enum AppKind {
    /// Makes packets and sends them on every output.
    Source(Source),
    /// Takes packets from every input and frees them.
    Sink(Sink),
    /// Copies each packet to every output.
    Tee(Tee),
    /// Sends what comes from every input on one output.
    Join(Join),
    /// Deals the packets of its inputs out to its outputs.
    Split(Split),
    /// Sends the packets that it has received again and again.
    Repeater(Repeater),
    /// Cuts packets to a length.
    Truncate(Truncate),
    /// Passes every nth packet.
    Sample(Sample),
    /// Passes the packets with a given byte at a given place.
    ByteFilter(ByteFilter),
    /// Sends the packets of a capture.
    PcapReader(PcapReader),
    /// Writes packets into a capture.
    PcapWriter(PcapWriter),
    /// Takes packets from an interlink.
    Receiver(Receiver),
    /// Puts packets into an interlink.
    Transmitter(Transmitter),
}

impl AppKind {
    /// An app of a class at a row of the roster.
    ///
    /// # Errors
    /// A stop, or want of memory.
    pub fn start<C: Ctx>(
        alloc: Global,
        ctx: &mut C,
        row: u32,
        class: Class,
        arg: &Arg,
    ) -> Result<AppKind, Halt>
        requires row { row < length (roster_of (C.tray ctx.old)).apps }
        requires arg { IsArgOf class arg.now }
        requires there { ArgIsThere class arg.now (C.tray ctx.old) }
        ensures runs { (slots : List (Option Line)) → Runs (starts class arg.now row)
            (world (C.tray ctx.old) (C.used ctx.old) slots) (world (C.tray ctx.new) (C.used ctx.new) slots)
            nowhere nowhere (shown_as (λ kind. kind_state kind (C.used ctx.new) (C.tray ctx.new)) result) }
        ensures ready { IfOk result (λ kind. kind_can_run kind (C.tray ctx.new)) }
        ensures class { IfOk result (λ kind. kind_class kind ≡ class) }
        ensures places { IfOk result (λ kind. (place : ℕ) → kind_places kind place ≡ 0) }
        ensures lent { C.lender ctx.new ≡ C.lender ctx.old }
    {
        match class {
            Class::Source => Ok(AppKind::Source(Source::start(ctx, row, arg)?)),
            Class::Sink => Ok(AppKind::Sink(Sink::start(ctx, row, arg)?)),
            Class::Tee => Ok(AppKind::Tee(Tee::start(alloc, ctx, row, arg)?)),
            Class::Join => Ok(AppKind::Join(Join::start(ctx, row, arg)?)),
            Class::Split => Ok(AppKind::Split(Split::start(ctx, row, arg)?)),
            Class::Repeater => Ok(AppKind::Repeater(Repeater::start(alloc, ctx, row, arg)?)),
            Class::Truncate => Ok(AppKind::Truncate(Truncate::start(ctx, row, arg)?)),
            Class::Sample => Ok(AppKind::Sample(Sample::start(ctx, row, arg)?)),
            Class::ByteFilter => Ok(AppKind::ByteFilter(ByteFilter::start(ctx, row, arg)?)),
            Class::PcapReader => Ok(AppKind::PcapReader(PcapReader::start(ctx, row, arg)?)),
            Class::PcapWriter => Ok(AppKind::PcapWriter(PcapWriter::start(ctx, row, arg)?)),
            Class::Receiver => Ok(AppKind::Receiver(Receiver::start(ctx, row, arg)?)),
            Class::Transmitter => Ok(AppKind::Transmitter(Transmitter::start(ctx, row, arg)?)),
        }
    }

    /// Brings packets in.
    ///
    /// # Errors
    /// A stop, or want of memory.
    pub fn pull<C: Ctx>(&mut self, ctx: &mut C, ports: &mut Ports<'_>) -> Result<(), Halt>
        requires ready { kind_can_run self.old (C.tray ctx.old) }
        requires ins { HasInputs ports.old }
        requires outs { HasOutputs ports.old }
        requires sound { IsSound (world (C.tray ctx.old) (C.used ctx.old) (slots_of ports.old)) (kind_places self.old) }
        ensures runs { Runs (pulls (kind_state self.old (C.used ctx.old) (C.tray ctx.old))
            (in_ports ports.old) (out_ports ports.old))
            (world (C.tray ctx.old) (C.used ctx.old) (slots_of ports.old))
            (world (C.tray ctx.new) (C.used ctx.new) (slots_of ports.new)) (kind_places self.old) (kind_places self.new)
            (stands_at (kind_state self.new (C.used ctx.new) (C.tray ctx.new)) result) }
        ensures ready { OnOk result (kind_can_run self.new (C.tray ctx.new)) }
        ensures class { kind_class self.new ≡ kind_class self.old }
        ensures same { SamePorts ports.old ports.new }
        ensures rows { KeepsRows (slots_of ports.old) (slots_of ports.new) }
        ensures lent { C.lender ctx.new ≡ C.lender ctx.old }
    {
        match self {
            AppKind::Source(app) => app.pull(ctx, ports),
            AppKind::Sink(app) => app.pull(ctx, ports),
            AppKind::Tee(app) => app.pull(ctx, ports),
            AppKind::Join(app) => app.pull(ctx, ports),
            AppKind::Split(app) => app.pull(ctx, ports),
            AppKind::Repeater(app) => app.pull(ctx, ports),
            AppKind::Truncate(app) => app.pull(ctx, ports),
            AppKind::Sample(app) => app.pull(ctx, ports),
            AppKind::ByteFilter(app) => app.pull(ctx, ports),
            AppKind::PcapReader(app) => app.pull(ctx, ports),
            AppKind::PcapWriter(app) => app.pull(ctx, ports),
            AppKind::Receiver(app) => app.pull(ctx, ports),
            AppKind::Transmitter(app) => app.pull(ctx, ports),
        }
    }

    /// Passes packets on.
    ///
    /// # Errors
    /// A stop, or want of memory.
    pub fn push<C: Ctx>(&mut self, ctx: &mut C, ports: &mut Ports<'_>) -> Result<(), Halt>
        requires ready { kind_can_run self.old (C.tray ctx.old) }
        requires ins { HasInputs ports.old }
        requires outs { HasOutputs ports.old }
        requires sound { IsSound (world (C.tray ctx.old) (C.used ctx.old) (slots_of ports.old)) (kind_places self.old) }
        ensures runs { Runs (pushes (kind_state self.old (C.used ctx.old) (C.tray ctx.old))
            (in_ports ports.old) (out_ports ports.old))
            (world (C.tray ctx.old) (C.used ctx.old) (slots_of ports.old))
            (world (C.tray ctx.new) (C.used ctx.new) (slots_of ports.new)) (kind_places self.old) (kind_places self.new)
            (stands_at (kind_state self.new (C.used ctx.new) (C.tray ctx.new)) result) }
        ensures ready { OnOk result (kind_can_run self.new (C.tray ctx.new)) }
        ensures class { kind_class self.new ≡ kind_class self.old }
        ensures same { SamePorts ports.old ports.new }
        ensures rows { KeepsRows (slots_of ports.old) (slots_of ports.new) }
        ensures lent { C.lender ctx.new ≡ C.lender ctx.old }
    {
        match self {
            AppKind::Source(app) => app.push(ctx, ports),
            AppKind::Sink(app) => app.push(ctx, ports),
            AppKind::Tee(app) => app.push(ctx, ports),
            AppKind::Join(app) => app.push(ctx, ports),
            AppKind::Split(app) => app.push(ctx, ports),
            AppKind::Repeater(app) => app.push(ctx, ports),
            AppKind::Truncate(app) => app.push(ctx, ports),
            AppKind::Sample(app) => app.push(ctx, ports),
            AppKind::ByteFilter(app) => app.push(ctx, ports),
            AppKind::PcapReader(app) => app.push(ctx, ports),
            AppKind::PcapWriter(app) => app.push(ctx, ports),
            AppKind::Receiver(app) => app.push(ctx, ports),
            AppKind::Transmitter(app) => app.push(ctx, ports),
        }
    }

    /// Takes a new argument.
    ///
    /// # Errors
    /// A stop, or want of memory.
    pub fn reconfig<C: Ctx>(&mut self, ctx: &mut C, arg: &Arg) -> Result<(), Halt>
        requires ready { kind_can_run self.old (C.tray ctx.old) }
        requires arg { IsArgOf (kind_class self.old) arg.now }
        requires there { ArgIsThere (kind_class self.old) arg.now (C.tray ctx.old) }
        ensures runs { (slots : List (Option Line))
            → IsSound (world (C.tray ctx.old) (C.used ctx.old) slots) (kind_places self.old)
            → Runs (reconfigs arg.now (kind_state self.old (C.used ctx.old) (C.tray ctx.old)))
            (world (C.tray ctx.old) (C.used ctx.old) slots) (world (C.tray ctx.new) (C.used ctx.new) slots)
            (kind_places self.old) (kind_places self.new)
            (stands_at (kind_state self.new (C.used ctx.new) (C.tray ctx.new)) result) }
        ensures ready { OnOk result (kind_can_run self.new (C.tray ctx.new)) }
        ensures class { kind_class self.new ≡ kind_class self.old }
        ensures lent { C.lender ctx.new ≡ C.lender ctx.old }
    {
        match self {
            AppKind::Source(app) => app.reconfig(ctx, arg),
            AppKind::Sink(app) => app.reconfig(ctx, arg),
            AppKind::Tee(app) => app.reconfig(ctx, arg),
            AppKind::Join(app) => app.reconfig(ctx, arg),
            AppKind::Split(app) => app.reconfig(ctx, arg),
            AppKind::Repeater(app) => app.reconfig(ctx, arg),
            AppKind::Truncate(app) => app.reconfig(ctx, arg),
            AppKind::Sample(app) => app.reconfig(ctx, arg),
            AppKind::ByteFilter(app) => app.reconfig(ctx, arg),
            AppKind::PcapReader(app) => app.reconfig(ctx, arg),
            AppKind::PcapWriter(app) => app.reconfig(ctx, arg),
            AppKind::Receiver(app) => app.reconfig(ctx, arg),
            AppKind::Transmitter(app) => app.reconfig(ctx, arg),
        }
    }

    /// Gives back what it keeps, and takes its end of an interlink down.
    ///
    /// # Errors
    /// A stop, or want of memory.
    pub fn stop<C: Ctx>(&mut self, ctx: &mut C) -> Result<(), Halt>
        requires ready { kind_can_run self.old (C.tray ctx.old) }
        requires kept { AreKept (C.used ctx.old) (kind_places self.old) }
        ensures runs { (slots : List (Option Line))
            → IsSound (world (C.tray ctx.old) (C.used ctx.old) slots) (kind_places self.old)
            → Runs (stops (kind_state self.old (C.used ctx.old) (C.tray ctx.old)))
            (world (C.tray ctx.old) (C.used ctx.old) slots) (world (C.tray ctx.new) (C.used ctx.new) slots)
            (kind_places self.old) nowhere (stands_at true result) }
        ensures lent { C.lender ctx.new ≡ C.lender ctx.old }
    {
        match self {
            AppKind::Source(app) => app.stop(ctx),
            AppKind::Sink(app) => app.stop(ctx),
            AppKind::Tee(app) => app.stop(ctx),
            AppKind::Join(app) => app.stop(ctx),
            AppKind::Split(app) => app.stop(ctx),
            AppKind::Repeater(app) => app.stop(ctx),
            AppKind::Truncate(app) => app.stop(ctx),
            AppKind::Sample(app) => app.stop(ctx),
            AppKind::ByteFilter(app) => app.stop(ctx),
            AppKind::PcapReader(app) => app.stop(ctx),
            AppKind::PcapWriter(app) => app.stop(ctx),
            AppKind::Receiver(app) => app.stop(ctx),
            AppKind::Transmitter(app) => app.stop(ctx),
        }
    }

    /// The class of the app.
    pub fn class(&self) -> Class
        ensures { result ≡ kind_class self.now }
    {
        match self {
            AppKind::Source(_) => Class::Source,
            AppKind::Sink(_) => Class::Sink,
            AppKind::Tee(_) => Class::Tee,
            AppKind::Join(_) => Class::Join,
            AppKind::Split(_) => Class::Split,
            AppKind::Repeater(_) => Class::Repeater,
            AppKind::Truncate(_) => Class::Truncate,
            AppKind::Sample(_) => Class::Sample,
            AppKind::ByteFilter(_) => Class::ByteFilter,
            AppKind::PcapReader(_) => Class::PcapReader,
            AppKind::PcapWriter(_) => Class::PcapWriter,
            AppKind::Receiver(_) => Class::Receiver,
            AppKind::Transmitter(_) => Class::Transmitter,
        }
    }

    /// How many records of its capture a reader hasn't passed, those that are too long among them; 0 of all other classes. The
    /// captures are the roster's, in its order.
    pub fn unread(&self, captures: &[Capture]) -> u64
        requires { CanCount self.now captures.now }
        ensures { result ≡ kind_unread self.now captures.now }
    {
        match self {
            AppKind::PcapReader(app) => app.unread(captures),
            _ => 0,
        }
    }
}
