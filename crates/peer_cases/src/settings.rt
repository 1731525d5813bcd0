//! How a gateway among other implementations is set up.

use block_types::BlockTypes;

/// What a gateway does with bundles for the sake of other implementations.
#[derive(Clone, Copy, Debug)]
pub struct PeerSettings {
    /// The types of residues and wraps on the wires.
    pub types: BlockTypes,
    /// Whether what only version 6 says is left out of what goes on at the new face.
    pub bare: bool,
    /// Whether the age of a bundle is raised by the time for which it waits.
    pub raises: bool,
}
