//! Why bytes are no capture.

use thiserror::Error;

/// What is wrong with the bytes: the first of these, in this order.
#[derive(Clone, Copy, Debug, PartialEq, Eq, Error)]
pub enum PcapFault {
    /// They are fewer than the 24 of a header.
    #[error("short-header")]
    ShortHeader,
    /// The first four are neither a1b2c3d4 nor a1b23c4d, in either byte order.
    #[error("bad-magic")]
    BadMagic,
    /// The two numbers of 16 bits behind the magic aren't 2 and 4.
    #[error("bad-version")]
    BadVersion,
    /// The record of this number, counted from 1, is the first whose header of 16 bytes or whose captured bytes aren't
    /// whole.
    #[error("cut-record {nth}")]
    CutRecord { nth: u64 },
}
