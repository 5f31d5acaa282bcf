//! What each step on a cell's word tells, and how views are dealt and gathered.

use crate::view::View;
use atomic_table::{Join, Play, Split};
use sn_packet::Packet;

/// A scan loads a cell's word.
pub struct Probes;

impl Play<Option<Packet>, View> for Probes {
    ghost use Rattle.sn_group.specs.Plays.{Probing};

    ghost then = { Probing };
}

/// A scan tries to claim a full cell.
pub struct TakeClaims;

impl Play<Option<Packet>, View> for TakeClaims {
    ghost use Rattle.sn_group.specs.Plays.{TakeClaiming};

    ghost then = { TakeClaiming };
}

/// A scan tries to claim an empty cell.
pub struct GiveClaims;

impl Play<Option<Packet>, View> for GiveClaims {
    ghost use Rattle.sn_group.specs.Plays.{GiveClaiming};

    ghost then = { GiveClaiming };
}

/// A claimed cell is empty.
pub struct TakeEnds;

impl Play<Option<Packet>, View> for TakeEnds {
    ghost use Rattle.sn_group.specs.Plays.{TakeEnding};

    ghost then = { TakeEnding };
}

/// A claimed cell is full.
pub struct GiveEnds;

impl Play<Option<Packet>, View> for GiveEnds {
    ghost use Rattle.sn_group.specs.Plays.{GiveEnding};

    ghost then = { GiveEnding };
}

/// A scan ends that found no full cell.
pub struct Dries;

impl Play<Option<Packet>, View> for Dries {
    ghost use Rattle.sn_group.specs.Plays.{Drying};

    ghost then = { Drying };
}

/// A scan ends that found no empty cell.
pub struct Fills;

impl Play<Option<Packet>, View> for Fills {
    ghost use Rattle.sn_group.specs.Plays.{Filling};

    ghost then = { Filling };
}

/// A seat keeps one part, and a new seat gets the others.
pub struct Deals;

impl Split<View> for Deals {
    ghost use Rattle.sn_group.specs.Views.{keeps_one, next_one};

    ghost left = { keeps_one };

    ghost right = { next_one };
}

/// A seat gets all that another had.
pub struct Gathers;

impl Join<View> for Gathers {
    ghost use Rattle.sn_group.specs.Views.{gathered, nobody};

    ghost both = { gathered };

    ghost spent = { nobody };
}
