// The end that says numbers.
ghost use Rattle.std.specs.Prelude.{◌≡◌, ◌≤◌, [], ◌∷◌, ◌++◌, All};
ghost use Rattle.sn_channel.specs.Ends.{last_said, IsRising, IsSaid};

use crate::channel::Channel;
use crate::listener::Listener;
use crate::plays::{Collects, Compares, Note, Says};
use crate::view::WordSeat;
use std::marker::Model;

/// The end that says numbers, which never fall. It has no bytes.
/// A contract sees its channel and all that it said.
#[derive(Drop)]
pub struct Speaker {
    pub(crate) seat: WordSeat,
}

impl Model for Speaker {
    ghost use Rattle.std.specs.Prelude.{◌≡◌, []};
    ghost use Rattle.sn_channel.specs.Ends.{SpeakerLog, speaker_log};
    ghost use Rattle.sn_channel.specs.Rule.{speaker};

    ghost Value = { SpeakerLog };

    ghost view = { λ end. speaker_log end.seat.table_id end.seat.me.0.said };

    ghost invariant = { λ end. end.seat.me ≡ (speaker end.seat.me.0.said, []) };
}

impl Speaker {
    /// Raises the word to `n`.
    pub fn say(&mut self, channel: &Channel, n: u64)
        requires channel { self.old.channel ≡ channel.now }
        requires rising { last_said self.old.said ≤ n }
        ensures said { self.new.said ≡ self.old.said ++ n ∷ [] }
        ensures last { last_said self.new.said ≡ n }
        ensures channel { self.new.channel ≡ self.old.channel }
    {
        channel.table.shared.fetch_max::<Says>(&mut self.seat, 0, n);
    }

    // Takes a note of the listener, and then loads the word: all of the note was said.
    pub(crate) fn compare(&mut self, channel: &Channel, listener: &mut Listener)
        requires speaker { self.old.channel ≡ channel.now }
        requires listener { listener.old.channel ≡ channel.now }
        ensures among { All (IsSaid self.old.said) listener.old.heard }
        ensures most { All (λ n. n ≤ last_said self.old.said) listener.old.heard }
        ensures rises { IsRising listener.old.heard }
        ensures speaker { self.new ≡ self.old }
        ensures listener { listener.new ≡ listener.old }
    {
        let shared = &channel.table.shared;
        let note = shared.split_seat::<Note>(&mut listener.seat);
        shared.join_seat::<Collects>(&mut self.seat, note);
        shared.load::<Compares>(&mut self.seat, 0);
    }
}
