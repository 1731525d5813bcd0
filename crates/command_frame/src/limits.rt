//! The limits on the lines of an input, which all commands on lines share.

/// The most lines of an input.
pub const MOST_LINES: u32 = 1_000_000;

/// The most octets of a line, its line feed not counted.
pub const MOST_OCTETS: u32 = 9_000_000;
