//! The two checks of bundle blocks: CRC-16 X-25 and CRC-32C.
//!
//! What they are is said bit by bit: the bits of a text go through a register one after another.
//! The code takes sixteen octets at a time by tables. Each call takes no memory, and the zeroed
//! forms copy nothing; a text that lies in parts goes part by part through `Register16` or
//! `Register32`.
#![tactic(auto)]

mod castagnoli;
mod tables;
mod x25;

pub use castagnoli::{Register32, crc32c, crc32c_zeroed};
pub use x25::{Register16, crc16, crc16_zeroed};
