//! Each step on an interlink is the core's event: a law for each step, as the contract of a function that does nothing.

ghost use Rattle.sn_interlink.specs.StepLaws.{LookLaw, AttachLaw, MissLaw, DetachLaw, ResetLaw, SyncLaw, RoomLaw};
ghost use Rattle.sn_interlink.specs.StepLaws.{FarRoomLaw, SeeLaw, TakeLaw, ReleaseLaw, LayLaw, TakeBackLaw};
ghost use Rattle.sn_interlink.specs.StepLaws.{PublishLaw, DrainTakeLaw, DrainReleaseLaw, SoundLaw};

/// Each step is its event on the lane that is read off words, slots and views, and what is read
/// there is sound.
pub fn steps_are_events()
    ensures look { LookLaw }
    ensures attach { AttachLaw }
    ensures miss { MissLaw }
    ensures detach { DetachLaw }
    ensures reset { ResetLaw }
    ensures sync { SyncLaw }
    ensures room { RoomLaw }
    ensures far_room { FarRoomLaw }
    ensures see { SeeLaw }
    ensures take { TakeLaw }
    ensures release { ReleaseLaw }
    ensures lay { LayLaw }
    ensures take_back { TakeBackLaw }
    ensures publish { PublishLaw }
    ensures drain_take { DrainTakeLaw }
    ensures drain_release { DrainReleaseLaw }
    ensures sound { SoundLaw }
{}
