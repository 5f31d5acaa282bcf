// The end that hears the word, and meets the speaker.
ghost use Rattle.std.specs.Prelude.{◌≡◌, ◌≤◌, [], ◌∷◌, ◌++◌, All};
ghost use Rattle.sn_channel.specs.Ends.{listener_log, last_said, IsRising, IsSaid};

use crate::channel::Channel;
use crate::plays::{Hears, Learns, Looks, Note};
use crate::speaker::Speaker;
use crate::view::WordSeat;
use std::marker::Model;

/// The end that hears numbers, which never fall. It has no bytes.
/// A contract sees its channel, all that it heard, and what the speaker had said last when the two last met.
#[derive(Drop)]
pub struct Listener {
    pub(crate) seat: WordSeat,
}

impl Model for Listener {
    ghost use Rattle.std.specs.Prelude.{◌≡◌, []};
    ghost use Rattle.sn_channel.specs.Ends.{ListenerLog, listener_log};
    ghost use Rattle.sn_channel.specs.Rule.{listener};

    ghost Value = { ListenerLog };

    ghost view = { λ end. listener_log end.seat.table_id end.seat.me.0.heard end.seat.me.0.reached };

    ghost invariant = { λ end. end.seat.me ≡ (listener end.seat.me.0.heard end.seat.me.0.reached, []) };
}

impl Listener {
    /// The word, as one load finds it. That it is 0 or was said is told by the next meeting.
    pub fn hear(&mut self, channel: &Channel) -> u64
        requires channel { self.old.channel ≡ channel.now }
        ensures heard { self.new.heard ≡ self.old.heard ++ result ∷ [] }
        ensures rising { All (λ n. n ≤ result) self.old.heard }
        ensures met { self.old.met ≤ result }
        ensures meeting { self.new.met ≡ self.old.met }
        ensures channel { self.new.channel ≡ self.old.channel }
    {
        channel.table.shared.load::<Hears>(&mut self.seat, 0)
    }

    /// The two ends meet in one thread. From now on the listener hears at least what the speaker
    /// has said last. What it has heard so far is 0 or was said, and never fell.
    pub fn meet(&mut self, channel: &Channel, speaker: &mut Speaker)
        requires listener { self.old.channel ≡ channel.now }
        requires speaker { speaker.old.channel ≡ channel.now }
        ensures met { self.new.met ≡ last_said speaker.old.said }
        ensures among { All (IsSaid speaker.old.said) self.old.heard }
        ensures most { All (λ n. n ≤ last_said speaker.old.said) self.old.heard }
        ensures rises { IsRising self.old.heard }
        ensures heard { self.new.heard ≡ self.old.heard }
        ensures channel { self.new.channel ≡ self.old.channel }
        ensures speaker { speaker.new ≡ speaker.old }
    {
        self.learn(channel, speaker);
        speaker.compare(channel, self);
    }

    // Takes a note of the speaker, and then loads the word, which adds nothing to the note.
    fn learn(&mut self, channel: &Channel, speaker: &mut Speaker)
        requires listener { self.old.channel ≡ channel.now }
        requires speaker { speaker.old.channel ≡ channel.now }
        ensures listener { self.new ≡ listener_log self.old.channel self.old.heard (last_said speaker.old.said) }
        ensures speaker { speaker.new ≡ speaker.old }
    {
        let shared = &channel.table.shared;
        let note = shared.split_seat::<Note>(&mut speaker.seat);
        shared.join_seat::<Learns>(&mut self.seat, note);
        shared.load::<Looks>(&mut self.seat, 0);
    }
}
