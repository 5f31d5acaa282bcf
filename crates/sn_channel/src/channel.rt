// The channel, and how it is opened.
ghost use Rattle.std.specs.Prelude.{◌≡◌, [], IfOk};
ghost use Rattle.sn_channel.specs.Ends.{speaker_log, listener_log};

use crate::listener::Listener;
use crate::plays::Note;
use crate::speaker::Speaker;
use crate::view::WordTable;
use crossbeam_utils::CachePadded;
use std::alloc::{AllocError, Global};
use std::marker::Model;

/// One word, which is the number that the speaker said last, and 0 before. Threads share it.
/// A contract sees which channel it is.
#[derive(Drop)]
pub struct Channel {
    pub(crate) table: CachePadded<WordTable>,
}

impl Model for Channel {
    ghost use Rattle.std.specs.Prelude.{◌≡◌};
    ghost use Rattle.crossbeam_utils.specs.Padded.{padded_value};
    ghost use Rattle.sn_channel.specs.Ends.{ChannelId};

    ghost Value = { ChannelId };

    ghost view = { λ channel. (padded_value channel.table).shared.table_id };

    ghost invariant = { λ channel. (padded_value channel.table).shared.table_id.words ≡ 1 };
}

impl Channel {
    /// A channel on which nothing was said, with its two ends.
    pub fn open(alloc: Global) -> Result<(Channel, Speaker, Listener), AllocError>
        ensures speaker { IfOk result (λ made. made.1 ≡ speaker_log made.0 []) }
        ensures listener { IfOk result (λ made. made.2 ≡ listener_log made.0 [] 0) }
    {
        let (table, mut seat) = WordTable::of_words(alloc, &[0], &())?;
        let other = table.shared.split_seat::<Note>(&mut seat);
        let channel = Channel {
            table: CachePadded::new(table),
        };
        Ok((channel, Speaker { seat }, Listener { seat: other }))
    }
}
