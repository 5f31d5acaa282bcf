//! A call of a context where it may come, and what is known of the end and of a packet afterwards.
ghost use Rattle.std.specs.Prelude.{◌≡◌, OnOk};
ghost use Rattle.seat_rig.specs.Hands.{Holds};

use sn_app::{Ctx, Halt, Side};

/// A call on interlink 0, or on packets.
#[derive(Clone, Copy, Debug, PartialEq, Eq)]
pub enum Step {
    Attach,
    Detach,
    Look,
    Room,
    Take,
    Put,
    /// A free packet comes into the hand.
    Allocate,
    /// The packet in hand becomes so many zeros.
    Zeros(u32),
    /// The packet in hand becomes free.
    Free,
}

/// What a call answered.
#[derive(Clone, Copy, Debug, PartialEq, Eq)]
pub enum Answer {
    Done,
    /// The end didn't come up, or no packet came.
    Not,
    /// So many packets were seen, or there was room for so many.
    Many(u32),
    /// The call may not come now, and didn't.
    Unready,
}

/// What is known of a worker's end of interlink 0, and the packet in hand.
#[derive(Clone, Copy, Debug)]
pub struct Hand {
    pub(crate) side: Side,
    pub(crate) up: bool,
    // How many packets were seen, or how much room, and not used.
    pub(crate) known: u32,
    pub(crate) place: Option<u32>,
}

impl Hand {
    ghost use Rattle.std.specs.Prelude.{◌≡◌, IsTrue};
    ghost use Rattle.sn_app.specs.Desk.{Tray};
    ghost use Rattle.sn_app.specs.World.{Used};
    ghost use Rattle.seat_rig.specs.Hands.{Holds};

    /// Nothing is known of the end of this side, and no packet is in hand.
    pub fn new(side: Side) -> Hand
        ensures { (t : Tray) (used : Used) → IsTrue (t.log.constants.has_end 0 side) → Holds result t used }
    {
        Hand {
            side,
            up: false,
            known: 0,
            place: None,
        }
    }

    /// The place of the packet in hand.
    pub fn place(&self) -> Option<u32>
        ensures { result ≡ self.now.place }
    {
        self.place
    }
}

fn attach<C: Ctx>(ctx: &mut C, hand: &mut Hand) -> Result<Answer, Halt>
    requires { Holds hand.old (C.tray ctx.old) (C.used ctx.old) }
    ensures holds { OnOk result (Holds hand.new (C.tray ctx.new) (C.used ctx.new)) }
    ensures lent { C.lender ctx.new ≡ C.lender ctx.old }
{
    let up = ctx.lane_attach(0, hand.side)?;
    hand.up = up;
    hand.known = 0;
    if up {
        return Ok(Answer::Done);
    }
    Ok(Answer::Not)
}

fn detach<C: Ctx>(ctx: &mut C, hand: &mut Hand) -> Result<Answer, Halt>
    requires { Holds hand.old (C.tray ctx.old) (C.used ctx.old) }
    ensures holds { OnOk result (Holds hand.new (C.tray ctx.new) (C.used ctx.new)) }
    ensures lent { C.lender ctx.new ≡ C.lender ctx.old }
{
    ctx.lane_detach(0, hand.side)?;
    hand.up = false;
    hand.known = 0;
    Ok(Answer::Done)
}

fn look<C: Ctx>(ctx: &mut C, hand: &mut Hand) -> Result<Answer, Halt>
    requires { Holds hand.old (C.tray ctx.old) (C.used ctx.old) }
    ensures holds { OnOk result (Holds hand.new (C.tray ctx.new) (C.used ctx.new)) }
    ensures lent { C.lender ctx.new ≡ C.lender ctx.old }
{
    match (hand.side, hand.up) {
        (Side::Rx, true) => (),
        _ => return Ok(Answer::Unready),
    }
    let seen = ctx.lane_look(0)?;
    hand.known = seen;
    Ok(Answer::Many(seen))
}

fn room<C: Ctx>(ctx: &mut C, hand: &mut Hand) -> Result<Answer, Halt>
    requires { Holds hand.old (C.tray ctx.old) (C.used ctx.old) }
    ensures holds { OnOk result (Holds hand.new (C.tray ctx.new) (C.used ctx.new)) }
    ensures lent { C.lender ctx.new ≡ C.lender ctx.old }
{
    match (hand.side, hand.up) {
        (Side::Tx, true) => (),
        _ => return Ok(Answer::Unready),
    }
    let room = ctx.lane_room(0)?;
    hand.known = room;
    Ok(Answer::Many(room))
}

fn take<C: Ctx>(ctx: &mut C, hand: &mut Hand) -> Result<Answer, Halt>
    requires { Holds hand.old (C.tray ctx.old) (C.used ctx.old) }
    ensures holds { OnOk result (Holds hand.new (C.tray ctx.new) (C.used ctx.new)) }
    ensures lent { C.lender ctx.new ≡ C.lender ctx.old }
{
    match (hand.side, hand.up, hand.place) {
        (Side::Rx, true, None) => (),
        _ => return Ok(Answer::Unready),
    }
    if hand.known == 0 {
        return Ok(Answer::Unready);
    }
    let place = ctx.lane_take(0)?;
    hand.known -= 1;
    hand.place = Some(place);
    Ok(Answer::Done)
}

fn put<C: Ctx>(ctx: &mut C, hand: &mut Hand) -> Result<Answer, Halt>
    requires { Holds hand.old (C.tray ctx.old) (C.used ctx.old) }
    ensures holds { OnOk result (Holds hand.new (C.tray ctx.new) (C.used ctx.new)) }
    ensures lent { C.lender ctx.new ≡ C.lender ctx.old }
{
    let place = match (hand.side, hand.up, hand.place) {
        (Side::Tx, true, Some(place)) => place,
        _ => return Ok(Answer::Unready),
    };
    if hand.known == 0 || ctx.worn(place) {
        return Ok(Answer::Unready);
    }
    ctx.lane_put(0, place)?;
    hand.known -= 1;
    hand.place = None;
    Ok(Answer::Done)
}

fn allocate<C: Ctx>(ctx: &mut C, hand: &mut Hand) -> Result<Answer, Halt>
    requires { Holds hand.old (C.tray ctx.old) (C.used ctx.old) }
    ensures holds { OnOk result (Holds hand.new (C.tray ctx.new) (C.used ctx.new)) }
    ensures lent { C.lender ctx.new ≡ C.lender ctx.old }
{
    if hand.place.is_some() {
        return Ok(Answer::Unready);
    }
    let came = ctx.allocate()?;
    hand.place = came;
    match came {
        Some(_) => Ok(Answer::Done),
        None => Ok(Answer::Not),
    }
}

fn zeros<C: Ctx>(ctx: &mut C, hand: &Hand, len: u32) -> Answer
    requires { Holds hand.now (C.tray ctx.old) (C.used ctx.old) }
    ensures holds { Holds hand.now (C.tray ctx.new) (C.used ctx.new) }
    ensures lent { C.lender ctx.new ≡ C.lender ctx.old }
{
    match hand.place {
        None => Answer::Unready,
        Some(place) => {
            if len > 10_240 {
                return Answer::Unready;
            }
            ctx.zeros(place, len);
            Answer::Done
        }
    }
}

fn free<C: Ctx>(ctx: &mut C, hand: &mut Hand) -> Answer
    requires { Holds hand.old (C.tray ctx.old) (C.used ctx.old) }
    ensures holds { Holds hand.new (C.tray ctx.new) (C.used ctx.new) }
    ensures lent { C.lender ctx.new ≡ C.lender ctx.old }
{
    match hand.place {
        None => Answer::Unready,
        Some(place) => {
            ctx.free(place);
            hand.place = None;
            Answer::Done
        }
    }
}

/// A call of a context with an end of interlink 0, where it may come.
///
/// # Errors
/// A stop, or want of memory.
pub fn take_step<C: Ctx>(ctx: &mut C, hand: &mut Hand, step: Step) -> Result<Answer, Halt>
    requires { Holds hand.old (C.tray ctx.old) (C.used ctx.old) }
    ensures holds { OnOk result (Holds hand.new (C.tray ctx.new) (C.used ctx.new)) }
    ensures lent { C.lender ctx.new ≡ C.lender ctx.old }
{
    match step {
        Step::Attach => attach(ctx, hand),
        Step::Detach => detach(ctx, hand),
        Step::Look => look(ctx, hand),
        Step::Room => room(ctx, hand),
        Step::Take => take(ctx, hand),
        Step::Put => put(ctx, hand),
        Step::Allocate => allocate(ctx, hand),
        Step::Zeros(len) => Ok(zeros(ctx, hand, len)),
        Step::Free => Ok(free(ctx, hand)),
    }
}
