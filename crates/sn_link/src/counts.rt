//! The counts of a link.

ghost use Rattle.std.specs.Prelude.{◌≡◌};
ghost use Rattle.sn_link.specs.Counts.{no_counts, with_sent, with_dropped, with_received};

/// What a link has counted, as Snabb's links do. Each count stops at its greatest value.
#[derive(Clone, Copy, Debug, PartialEq, Eq)]
pub struct LinkCounts {
    /// The packets that were received from the link.
    pub rxpackets: u64,
    /// Their bytes.
    pub rxbytes: u64,
    /// The packets that were sent on the link, without those that were dropped.
    pub txpackets: u64,
    /// Their bytes.
    pub txbytes: u64,
    /// The packets that were dropped because the link was full.
    pub txdrop: u64,
}

impl LinkCounts {
    /// All counts are 0.
    pub fn new() -> LinkCounts
        ensures { result ≡ no_counts }
    {
        LinkCounts {
            rxpackets: 0,
            rxbytes: 0,
            txpackets: 0,
            txbytes: 0,
            txdrop: 0,
        }
    }

    /// One packet of this length was sent.
    pub(crate) fn sent(&mut self, len: u32)
        ensures { self.new ≡ with_sent len self.old }
    {
        self.txpackets = self.txpackets.saturating_add(1);
        self.txbytes = self.txbytes.saturating_add(u64::from(len));
    }

    /// One packet was dropped.
    pub(crate) fn dropped(&mut self)
        ensures { self.new ≡ with_dropped self.old }
    {
        self.txdrop = self.txdrop.saturating_add(1);
    }

    /// One packet of this length was received.
    pub(crate) fn received(&mut self, len: u32)
        ensures { self.new ≡ with_received len self.old }
    {
        self.rxpackets = self.rxpackets.saturating_add(1);
        self.rxbytes = self.rxbytes.saturating_add(u64::from(len));
    }
}
