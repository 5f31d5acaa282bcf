//! One seat: the packets that it holds, its pending transfer, and the numbers that it said and heard.

ghost use Rattle.std.specs.Prelude.{◌≡◌, ◌<◌, ◌≤◌, length, IfOk, Some, None, is_none, IsTrue, unwrap_or, option_map, option_to_list, [], ◌∷◌};
ghost use Rattle.sn_core.specs.Seat.{SeatState, highest_turn, idle_seat, turn_of, with_packet, without_packet, handed_over, with_pending, claims_of, has_claimed, can_take_out, taken_out, is_all_out, can_give_in, given_in, is_given_in, in_phase};
ghost use Rattle.sn_core.specs.Ownership.{seat_has};

use crate::parts::{Claim, Packet, Pending, Phase};
use std::alloc::{AllocError, Global};
use std::marker::Model;

/// A seat. Its packets stand in a table over the pool: for each number the turn, where the seat
/// holds that packet.
#[derive(Drop)]
pub struct Seat {
    held: Vec<Option<u64>>,
    pending: Option<Pending>,
    heard: u64,
    said: u64,
}

impl Model for Seat {
    ghost use Rattle.std.specs.Prelude.{option_map};
    ghost use Rattle.sn_core.specs.Seat.{SeatState, transfer_of};

    ghost Value = { SeatState };

    ghost view = { λ seat. record {
      held = seat.held.items;
      pending = option_map transfer_of seat.pending;
      heard = seat.heard;
      said = seat.said;
    } };
}

impl Seat {
    /// A seat that holds nothing, with room for each packet of the pool.
    pub fn new(alloc: Global, pool: u32) -> Result<Seat, AllocError>
        ensures { IfOk result (λ seat. seat ≡ idle_seat pool) }
    {
        Ok(Seat {
            held: vec![in alloc; None; pool as usize]?,
            pending: None,
            heard: 0,
            said: 0,
        })
    }

    /// The turn of the packet of this number, where the seat holds it.
    pub fn turn(&self, number: u32) -> Option<u64>
        ensures { result ≡ turn_of number self.now }
    {
        match self.held.get(number as usize) {
            Some(turn) => *turn,
            None => None,
        }
    }

    /// Whether the seat holds the packet of this number.
    pub fn has(&self, number: u32) -> bool
        ensures { result ≡ seat_has number self.now }
    {
        self.turn(number).is_some()
    }

    /// The packet of this number as the seat hands it over.
    pub fn handed_over(&self, number: u32) -> Packet
        requires { unwrap_or (turn_of number self.now) 0 < highest_turn }
        ensures { result ≡ handed_over self.now number }
    {
        Packet {
            number,
            turn: self.turn(number).unwrap_or(0) + 1,
        }
    }

    pub fn insert(&mut self, packet: Packet)
        requires { packet.number < length self.old.held }
        ensures { self.new ≡ with_packet packet self.old }
    {
        self.held[packet.number as usize] = Some(packet.turn);
    }

    pub fn remove(&mut self, number: u32)
        requires { number < length self.old.held }
        ensures { self.new ≡ without_packet number self.old }
    {
        self.held[number as usize] = None;
    }

    /// Whether no transfer is pending.
    pub fn is_idle(&self) -> bool
        ensures { result ≡ is_none self.now.pending }
    {
        self.pending.is_none()
    }

    /// The cell that the seat has claimed, with its packet.
    pub fn claim(&self) -> Option<Claim>
        ensures { option_to_list result ≡ claims_of self.now }
    {
        match self.pending {
            Some(pending) => Some(pending.claim),
            None => None,
        }
    }

    /// Whether the seat has claimed the packet of this number.
    pub fn has_claimed(&self, number: u32) -> bool
        ensures { result ≡ has_claimed number self.now }
    {
        match self.pending {
            Some(pending) => pending.claim.packet == number,
            None => false,
        }
    }

    /// A taking of this packet from this cell begins.
    pub fn begin_taking(&mut self, packet: Packet, cell: u32)
        requires { packet.number < length self.old.held }
        ensures { self.new ≡ with_pending
            (Some (record { phase = Phase.Taking 0; claims = record { cell = cell; packet = packet.number } ∷ [] }))
            (with_packet packet self.old) }
    {
        self.insert(packet);
        self.pending = Some(Pending {
            phase: Phase::Taking { out: 0 },
            claim: Claim {
                cell,
                packet: packet.number,
            },
        });
    }

    /// Whether one packet more of a taking comes out.
    pub fn can_take_out(&self) -> bool
        ensures { result ≡ can_take_out self.now }
    {
        match self.pending {
            Some(pending) => pending.phase.takes() && pending.phase.out() < 1,
            None => false,
        }
    }

    pub fn take_out(&mut self)
        requires { IsTrue (can_take_out self.old) }
        ensures { self.new ≡ taken_out self.old }
    {
        if let Some(pending) = self.pending {
            self.set_phase(Phase::Taking {
                out: pending.phase.out() + 1,
            });
        }
    }

    /// Whether all packets of a taking are out.
    pub fn is_all_out(&self) -> bool
        ensures { result ≡ is_all_out self.now }
    {
        match self.pending {
            Some(pending) => pending.phase.takes() && pending.phase.out() == 1,
            None => false,
        }
    }

    /// A giving of this packet to this cell begins.
    pub fn begin_giving(&mut self, packet: u32, cell: u32)
        ensures { self.new ≡ with_pending
            (Some (record { phase = Phase.Giving; claims = record { cell = cell; packet = packet } ∷ [] })) self.old }
    {
        self.pending = Some(Pending {
            phase: Phase::Giving,
            claim: Claim { cell, packet },
        });
    }

    pub fn can_give_in(&self) -> bool
        ensures { result ≡ can_give_in self.now }
    {
        match self.pending {
            Some(pending) => pending.phase == Phase::Giving,
            None => false,
        }
    }

    pub fn give_in(&mut self)
        ensures { self.new ≡ given_in self.old }
    {
        self.set_phase(Phase::GivenIn);
    }

    /// Whether the packet of a giving is in its cell.
    pub fn is_given_in(&self) -> bool
        ensures { result ≡ is_given_in self.now }
    {
        match self.pending {
            Some(pending) => pending.phase == Phase::GivenIn,
            None => false,
        }
    }

    fn set_phase(&mut self, phase: Phase)
        ensures { self.new ≡ with_pending (option_map (in_phase phase) self.old.pending) self.old }
    {
        if let Some(pending) = self.pending {
            self.pending = Some(Pending { phase, ..pending });
        }
    }

    /// The giving of the packet of this number is done.
    pub fn end_giving(&mut self, number: u32)
        requires { number < length self.old.held }
        ensures { self.new ≡ with_pending None (without_packet number self.old) }
    {
        self.remove(number);
        self.pending = None;
    }

    /// The taking is done.
    pub fn end_taking(&mut self)
        ensures { self.new ≡ with_pending None self.old }
    {
        self.pending = None;
    }

    /// The number that was said last.
    pub fn said(&self) -> u64
        ensures { result ≡ self.now.said }
    {
        self.said
    }

    pub fn say(&mut self, n: u64)
        ensures { self.new ≡ record self.old { said = n } }
    {
        self.said = n;
    }

    pub fn hear(&mut self)
        ensures { self.new ≡ record self.old { heard = self.old.said } }
    {
        self.heard = self.said;
    }
}
