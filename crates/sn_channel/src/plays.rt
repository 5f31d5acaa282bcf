// What each step on the word tells, and how views are noted and joined.
use crate::view::View;
use atomic_table::{Join, Play, Split};

/// The speaker raises the word.
pub struct Says;

impl Play<u64, View> for Says {
    ghost use Rattle.sn_channel.specs.Rule.{Saying};

    ghost then = { Saying };
}

/// The listener loads the word.
pub struct Hears;

impl Play<u64, View> for Hears {
    ghost use Rattle.sn_channel.specs.Rule.{Hearing};

    ghost then = { Hearing };
}

/// The speaker loads the word, and compares what was heard with what it said.
pub struct Compares;

impl Play<u64, View> for Compares {
    ghost use Rattle.sn_channel.specs.Rule.{Comparing};

    ghost then = { Comparing };
}

/// The listener loads the word and learns nothing.
pub struct Looks;

impl Play<u64, View> for Looks {
    ghost use Rattle.sn_channel.specs.Rule.{Looking};

    ghost then = { Looking };
}

/// A note of what a seat heard, and of the number that the word has reached.
pub struct Note;

impl Split<View> for Note {
    ghost use Rattle.sn_channel.specs.Rule.{note};

    ghost left = { λ v. v };

    ghost right = { note };
}

/// The listener takes the speaker's note.
pub struct Learns;

impl Join<View> for Learns {
    ghost use Rattle.sn_channel.specs.Rule.{learned, nobody};

    ghost both = { learned };

    ghost spent = { nobody };
}

/// The speaker takes the listener's note.
pub struct Collects;

impl Join<View> for Collects {
    ghost use Rattle.sn_channel.specs.Rule.{collected, nobody};

    ghost both = { collected };

    ghost spent = { nobody };
}
