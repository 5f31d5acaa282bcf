//! What holds of one lane at every moment, for those who read a lane off a real ring: laws as
//! contracts of functions that do nothing.

ghost use Rattle.std.specs.Prelude.{◌≡◌, ◌≤◌, ◌+◌, ◌^◌, ℕ, suc, IsTrue, IsSome, Option, List, All, length, drop, slice_get, ◌++◌};
ghost use Rattle.sn_core.specs.declared.events.Side.{Side};
ghost use Rattle.sn_core.specs.declared.parts.Packet.{Packet};
ghost use Rattle.sn_core.specs.Lane.{LaneState, free_lane, can_attach, attached, can_detach, detached, can_reset, was_reset, can_take, taken, can_release, released, can_drain, can_drain_release, can_lay, with_laid, has_laid, published, taken_back, unreleased, first_filled, next_emptied, emptied_by};
ghost use Rattle.sn_core.specs.Seat.{joined};
ghost use Rattle.sn_core.specs.Sound.{LaneIsSound, KeepsLane, FollowsLaid};

/// Each event on a lane keeps it sound, and a free lane is sound.
pub fn lanes_stay_sound()
    ensures free { (tx rx : ℕ) → LaneIsSound (free_lane tx rx) }
    ensures attach { (side : Side) → KeepsLane (can_attach side) (attached side) }
    ensures detach { (side : Side) → KeepsLane (can_detach side) (detached side) }
    ensures reset { (side : Side) → KeepsLane (can_reset side) was_reset }
    ensures take { KeepsLane can_take taken }
    ensures release { KeepsLane can_release released }
    ensures lay { (number : ℕ) → KeepsLane can_lay (with_laid number) }
    ensures publish { (packets : List Packet) (lane : LaneState) → FollowsLaid packets lane
        → IsTrue (has_laid lane) → LaneIsSound lane → LaneIsSound (published packets lane) }
    ensures take_back { KeepsLane has_laid taken_back }
    ensures drain { (side : Side) → KeepsLane (can_drain side) taken }
    ensures drain_release { (side : Side) → KeepsLane (can_drain_release side) released }
{}

/// What a queue of filled places is once some in front are emptied.
pub fn emptied_queues()
    ensures count { (n : ℕ) (queue : List (Option Packet)) → All (λ place. IsSome place) queue
        → n ≤ length queue → unreleased (emptied_by n queue) ≡ n }
    ensures first { (n : ℕ) (queue : List (Option Packet)) → All (λ place. IsSome place) queue
        → first_filled (emptied_by n queue) ≡ joined (slice_get queue n) }
    ensures next { (n : ℕ) (queue : List (Option Packet)) → All (λ place. IsSome place) queue
        → next_emptied (emptied_by n queue) ≡ emptied_by (suc n) queue }
    ensures rest { (n : ℕ) (queue : List (Option Packet)) → drop n (emptied_by n queue) ≡ drop n queue }
    ensures more { (n : ℕ) (queue more : List (Option Packet)) → n ≤ length queue
        → emptied_by n (queue ++ more) ≡ emptied_by n queue ++ more }
{}
