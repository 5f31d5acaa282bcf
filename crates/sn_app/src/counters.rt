//! What apps and links have counted.
ghost use Rattle.std.specs.Prelude.{◌≡◌, ◌<◌, IfOk, length, replicate};
ghost use Rattle.sn_link.specs.Counts.{no_counts};
ghost use Rattle.sn_app.specs.Counts.{app_counts, count_of, link_counts, no_app_counts, rows_kept, rows_raised};
ghost use Rattle.sn_app.specs.Counts.{with_added, with_raised};

use sn_link::LinkCounts;
use std::alloc::{AllocError, Global};
use std::marker::Model;

/// What an app counts.
#[derive(Clone, Copy, Debug, PartialEq, Eq)]
pub enum Counter {
    /// Packets that it sent, put, took or wrote, as its class says.
    Packets,
    /// Packets that it dropped.
    Dropped,
    /// Records that are longer than a packet, which it passed over.
    Oversize,
    /// Calls that ended because there was no free packet.
    Dry,
}

/// What one app has counted. Each count stops at its greatest value.
#[derive(Clone, Copy, Debug, PartialEq, Eq)]
pub struct AppCounts {
    pub packets: u64,
    pub dropped: u64,
    pub oversize: u64,
    pub dry: u64,
}

impl AppCounts {
    /// All counts are 0.
    pub fn new() -> AppCounts
        ensures { result ≡ no_app_counts }
    {
        AppCounts {
            packets: 0,
            dropped: 0,
            oversize: 0,
            dry: 0,
        }
    }

    /// One of the counts.
    pub fn of(&self, counter: Counter) -> u64
        ensures { result ≡ count_of counter self.now }
    {
        match counter {
            Counter::Packets => self.packets,
            Counter::Dropped => self.dropped,
            Counter::Oversize => self.oversize,
            Counter::Dry => self.dry,
        }
    }

    /// Raises one of the counts.
    pub fn raise(&mut self, counter: Counter, by: u64)
        ensures { self.new ≡ with_raised counter by self.old }
    {
        match counter {
            Counter::Packets => self.packets = self.packets.saturating_add(by),
            Counter::Dropped => self.dropped = self.dropped.saturating_add(by),
            Counter::Oversize => self.oversize = self.oversize.saturating_add(by),
            Counter::Dry => self.dry = self.dry.saturating_add(by),
        }
    }
}

/// Counts of a link with those of another added.
fn added(counts: LinkCounts, more: LinkCounts) -> LinkCounts
    ensures { result ≡ with_added more counts }
{
    LinkCounts {
        rxpackets: counts.rxpackets.saturating_add(more.rxpackets),
        rxbytes: counts.rxbytes.saturating_add(more.rxbytes),
        txpackets: counts.txpackets.saturating_add(more.txpackets),
        txbytes: counts.txbytes.saturating_add(more.txbytes),
        txdrop: counts.txdrop.saturating_add(more.txdrop),
    }
}

/// What the apps and links of a roster have counted, by their rows.
#[derive(Debug, Drop)]
pub struct Counters {
    apps: Vec<AppCounts>,
    links: Vec<LinkCounts>,
}

impl Model for Counters {
    ghost use Rattle.sn_app.specs.Counts.{CounterRows};

    ghost Value = { CounterRows };

    ghost view = { λ c. record { apps = c.apps.items; links = c.links.items } };
}

impl Counters {
    /// So many rows of apps and of links, with all counts 0.
    ///
    /// # Errors
    /// Want of memory.
    pub fn new(alloc: Global, apps: u32, links: u32) -> Result<Counters, AllocError>
        ensures apps { IfOk result (λ counters. counters.apps ≡ replicate apps no_app_counts) }
        ensures links { IfOk result (λ counters. counters.links ≡ replicate links no_counts) }
    {
        let mut of_apps = Vec::with_capacity(alloc, apps as usize)?;
        of_apps.resize(apps as usize, AppCounts::new())?;
        let mut of_links = Vec::with_capacity(alloc, links as usize)?;
        of_links.resize(links as usize, LinkCounts::new())?;
        Ok(Counters {
            apps: of_apps,
            links: of_links,
        })
    }

    /// What the apps have counted, by their rows.
    pub fn apps(&self) -> &[AppCounts]
        ensures { result.now ≡ self.now.apps }
    {
        &self.apps
    }

    /// What the links have counted that were freed or lost, by their rows.
    pub fn links(&self) -> &[LinkCounts]
        ensures { result.now ≡ self.now.links }
    {
        &self.links
    }

    /// A count of the app at a row.
    pub fn app(&self, row: u32, counter: Counter) -> u64
        requires { row < length self.now.apps }
        ensures { result ≡ count_of counter (app_counts row self.now) }
    {
        self.apps[row as usize].of(counter)
    }

    /// The counts of the link at a row.
    pub fn link(&self, row: u32) -> LinkCounts
        requires { row < length self.now.links }
        ensures { result ≡ link_counts row self.now }
    {
        self.links[row as usize]
    }

    /// Raises a count of the app at a row.
    pub fn raise(&mut self, row: u32, counter: Counter, by: u64)
        requires { row < length self.old.apps }
        ensures { self.new ≡ rows_raised row counter by self.old }
    {
        self.apps[row as usize].raise(counter, by);
    }

    /// Adds counts to those of the link at a row.
    pub fn keep(&mut self, row: u32, counts: LinkCounts)
        requires { row < length self.old.links }
        ensures { self.new ≡ rows_kept row counts self.old }
    {
        let sum = added(self.links[row as usize], counts);
        self.links[row as usize] = sum;
    }
}
