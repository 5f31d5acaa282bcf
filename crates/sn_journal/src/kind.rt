//! The words that the lines of a journal's text begin with.
ghost use Rattle.sn_journal.specs.JournalText.{kind_word};
ghost use Rattle.sn_journal.specs.KindWords.{kind_of};
ghost use Rattle.std.specs.Prelude.{IfSome, IsTrue, ◌≡◌};
ghost use Rattle.std.specs.Str.{bytes_eq};

/// What a line of a journal's text says. There is one word for each.
#[derive(Clone, Copy, Debug, PartialEq, Eq)]
pub(crate) enum Kind {
    /// A running slot begins a round.
    Round,
    /// The worker heard how many actions are due.
    Hear,
    /// A breath begins.
    Breath,
    /// An end attached.
    Attach,
    /// An end couldn't attach.
    Unattached,
    /// An end detached.
    Detach,
    /// The closing end set the interlink free.
    Reset,
    /// The receiver saw packets.
    Seen,
    /// The transmitter saw room.
    Room,
    /// A packet was published.
    Put,
    /// A packet was taken.
    Take,
    /// A closing end took a packet out.
    Drain,
    /// A packet was claimed from the group.
    Got,
    /// The group had no packet.
    Dry,
    /// A packet was given to the group.
    Gave,
    /// The group had no room for a packet.
    Full,
    /// A packet is at the highest turn.
    Worn,
    /// The journal's cost is at its limit.
    Spent,
    /// A stop was injected.
    Stop,
    /// A running slot is closed.
    Close,
    /// A reclamation ended.
    Reclaimed,
    /// A new life begins.
    Restart,
}

impl Kind {
    /// All of them.
    const ALL: [Kind; 22] = [
        Kind::Round,
        Kind::Hear,
        Kind::Breath,
        Kind::Attach,
        Kind::Unattached,
        Kind::Detach,
        Kind::Reset,
        Kind::Seen,
        Kind::Room,
        Kind::Put,
        Kind::Take,
        Kind::Drain,
        Kind::Got,
        Kind::Dry,
        Kind::Gave,
        Kind::Full,
        Kind::Worn,
        Kind::Spent,
        Kind::Stop,
        Kind::Close,
        Kind::Reclaimed,
        Kind::Restart,
    ];

    /// The kind of this word, if there is one.
    #[tactic(auto, using(crate::proofs::KindPlaces::kind_places))]
    pub(crate) fn of(text: &[u8]) -> Option<Kind>
        ensures exact { result ≡ kind_of text.now }
        ensures word { IfSome result (λ kind. text.now ≡ kind_word kind) }
    {
        for kind in Kind::ALL {
            if kind.is_word(text) {
                return Some(kind);
            }
        }
        None
    }

    /// Whether the text is this kind's word.
    fn is_word(self, text: &[u8]) -> bool
        ensures exact { result ≡ bytes_eq text.now (kind_word self) }
        ensures word { IsTrue result → text.now ≡ kind_word self }
    {
        text == self.word().as_bytes()
    }

    /// The word that a line of this kind begins with.
    pub(crate) fn word(self) -> &'static str
        ensures { result.now ≡ kind_word self }
    {
        match self {
            Kind::Round => "round",
            Kind::Hear => "hear",
            Kind::Breath => "breath",
            Kind::Attach => "attach",
            Kind::Unattached => "unattached",
            Kind::Detach => "detach",
            Kind::Reset => "reset",
            Kind::Seen => "seen",
            Kind::Room => "room",
            Kind::Put => "put",
            Kind::Take => "take",
            Kind::Drain => "drain",
            Kind::Got => "got",
            Kind::Dry => "dry",
            Kind::Gave => "gave",
            Kind::Full => "full",
            Kind::Worn => "worn",
            Kind::Spent => "spent",
            Kind::Stop => "stop",
            Kind::Close => "close",
            Kind::Reclaimed => "reclaimed",
            Kind::Restart => "restart",
        }
    }
}
