//! What each step on a group is in the core: laws as contracts of a function that does nothing.

ghost use Rattle.std.specs.Prelude.{ℕ, List};
ghost use Rattle.sn_core.specs.declared.parts.Packet.{Packet};
ghost use Rattle.sn_group.specs.StepLaws.{LookLaw, TakeClaimLaw, TakeOutLaw, TakeDoneLaw, GiveClaimLaw, GiveInLaw, GiveDoneLaw, SoundLaw};

/// Each step of a seat keeps the rule of the group's table, and is the core's event, on the cells and the transfer as
/// they are read off the table. What is read is sound, as far as the core's soundness speaks of cells alone.
pub fn steps_are_events()
    ensures look { (opened : List Packet) (seats groups : ℕ) → LookLaw opened seats groups }
    ensures take_claim { (opened : List Packet) (seats groups : ℕ) → TakeClaimLaw opened seats groups }
    ensures take_out { (opened : List Packet) (seats groups : ℕ) → TakeOutLaw opened seats groups }
    ensures take_done { (opened : List Packet) (seats groups : ℕ) → TakeDoneLaw opened seats groups }
    ensures give_claim { (opened : List Packet) (seats groups : ℕ) → GiveClaimLaw opened seats groups }
    ensures give_in { (opened : List Packet) (seats groups : ℕ) → GiveInLaw opened seats groups }
    ensures give_done { (opened : List Packet) (seats groups : ℕ) → GiveDoneLaw opened seats groups }
    ensures sound { (opened : List Packet) (seats groups : ℕ) → SoundLaw opened seats groups }
{}
