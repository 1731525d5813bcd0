//! Whole bundles.

use crate::block::{Block7, Blocks7};
use crate::primary::Primary7;

/// A bundle.
#[derive(Debug, Drop)]
pub struct Bundle7 {
    /// The primary block.
    pub primary: Primary7,
    /// The extension blocks, in their order, at most 64.
    pub exts: Blocks7,
    /// The payload block, which is the last.
    pub payload: Block7,
}
