//! The limits of what the program reads and carries, each named once.

/// The most bytes of a packet's payload: Snabb's packets hold 10 KiB, so that a jumbo frame fits.
pub const MAX_PAYLOAD: u32 = 10_240;

/// The most packets that an app moves in one call: Snabb's `engine.pull_npackets`, a tenth of a
/// link's 1,024 places.
pub const MAX_PULL: u32 = 102;

/// The most bytes of a file's name in a scenario: what file systems allow for one name.
pub const MAX_FILE_NAME: usize = 255;

/// The most bytes of a scenario: 1 MiB, so that a text that was named by mistake is told before it
/// fills the memory.
pub const MAX_SCENARIO: u64 = 1_048_576;

/// The most bytes of a capture: 16 MiB, since captures are held in memory whole.
pub const MAX_CAPTURE: u64 = 16_777_216;
