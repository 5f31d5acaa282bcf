//! What each step on an interlink's words tells, and how the ends are parted and joined.

use crate::view::View;
use atomic_table::{Join, Play, Split};
use sn_packet::Packet;

/// A load of the state word.
pub struct LooksAt;

impl Play<Option<Packet>, View> for LooksAt {
    ghost use Rattle.sn_interlink.specs.Plays.{LookPlay};

    ghost then = { LookPlay };
}

/// An exchange of the state word, by which the end comes up or finds another word.
pub struct ComesUp;

impl Play<Option<Packet>, View> for ComesUp {
    ghost use Rattle.sn_interlink.specs.Plays.{AttachPlay};

    ghost then = { AttachPlay };
}

/// An addition to the state word, by which the end goes.
pub struct Goes;

impl Play<Option<Packet>, View> for Goes {
    ghost use Rattle.sn_interlink.specs.Plays.{DetachPlay};

    ghost then = { DetachPlay };
}

/// A store of the state word by the closing end.
pub struct SetsFree;

impl Play<Option<Packet>, View> for SetsFree {
    ghost use Rattle.sn_interlink.specs.Plays.{ResetPlay};

    ghost then = { ResetPlay };
}

/// A load of `read` by the receiver that came up.
pub struct Syncs;

impl Play<Option<Packet>, View> for Syncs {
    ghost use Rattle.sn_interlink.specs.Plays.{SyncPlay};

    ghost then = { SyncPlay };
}

/// A load of `read` by the transmitter that is up.
pub struct SeesRoom;

impl Play<Option<Packet>, View> for SeesRoom {
    ghost use Rattle.sn_interlink.specs.Plays.{RoomPlay};

    ghost then = { RoomPlay };
}

/// A load of `read` by the closing transmitter.
pub struct SeesRest;

impl Play<Option<Packet>, View> for SeesRest {
    ghost use Rattle.sn_interlink.specs.Plays.{FarRoomPlay};

    ghost then = { FarRoomPlay };
}

/// A load of `write` by the receiver.
pub struct SeesPackets;

impl Play<Option<Packet>, View> for SeesPackets {
    ghost use Rattle.sn_interlink.specs.Plays.{SeePlay};

    ghost then = { SeePlay };
}

/// A store of `write`, which publishes what was laid.
pub struct Publishes;

impl Play<Option<Packet>, View> for Publishes {
    ghost use Rattle.sn_interlink.specs.Plays.{PutPlay};

    ghost then = { PutPlay };
}

/// A store of `read` by the receiver that is up.
pub struct Releases;

impl Play<Option<Packet>, View> for Releases {
    ghost use Rattle.sn_interlink.specs.Plays.{TakePlay};

    ghost then = { TakePlay };
}

/// A store of `read` by the closing end.
pub struct ReleasesDrained;

impl Play<Option<Packet>, View> for ReleasesDrained {
    ghost use Rattle.sn_interlink.specs.Plays.{DrainPlay};

    ghost then = { DrainPlay };
}

/// The two ends of a new interlink part.
pub struct Parting;

impl Split<View> for Parting {
    ghost use Rattle.sn_interlink.specs.Plays.{tx_part, rx_part};

    ghost left = { tx_part };

    ghost right = { rx_part };
}

/// The two ends join again.
pub struct Joining;

impl Join<View> for Joining {
    ghost use Rattle.sn_interlink.specs.Plays.{both_parts};
    ghost use Rattle.sn_interlink.specs.declared.view.View.TheVariants.{Spent};

    ghost both = { both_parts };

    ghost spent = { Spent };
}
