//! What all workers of a run share.

use sn_channel::Channel;
use sn_group::Group;
use sn_interlink::Interlink;
use sn_pcap::Capture;

/// What all workers of a run share: interlinks by their numbers, the group of free packets, a channel for each worker by the
/// worker's number, and the captures that are read.
#[derive(Drop)]
pub struct Shared {
    pub lanes: Vec<Interlink>,
    pub group: Group,
    pub channels: Vec<Channel>,
    pub captures: Vec<Capture>,
}
