//! A whole bundle.

use crate::block::Blocks6;
use crate::primary::Primary6;

/// A bundle.
#[derive(Debug, Drop)]
pub struct Bundle6 {
    /// The primary block.
    pub primary: Primary6,
    /// The other blocks, in their order, the payload among them.
    pub blocks: Blocks6,
}
