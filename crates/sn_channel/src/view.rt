// What the seats of a channel's table know, and the rule over the word and all views.
use atomic_table::{Seat, Table, TableRule};
use std::alloc::Global;
use std::collections::LinkedList;

/// What one seat knows. No value of it is made.
pub struct View {
    /// Whether it is the speaker's seat.
    pub speaks: bool,
    /// All that was said, where it speaks.
    pub said: LinkedList<u64>,
    /// Words that were loaded.
    pub heard: LinkedList<u64>,
    /// A number that the word has reached.
    pub reached: u64,
}

/// The word is the number said last.
pub struct WordFollows;

impl TableRule<u64, View, ()> for WordFollows {
    ghost use Rattle.std.specs.Prelude.{[]};
    ghost use Rattle.sn_channel.specs.Rule.{Follows, speaker};

    ghost holds = { λ _. Follows };

    ghost first = { λ _. speaker [] };
}

/// One word, and no slot.
pub type WordTable = Table<u64, View, (), WordFollows, Global>;

/// The right to step on the word. It has no bytes.
pub type WordSeat = Seat<u64, View>;
