//! The datagrams that are to be sent.

use endpoint::{Listed, Octets};

/// Datagrams that are to be sent, in their order.
pub type Outs = Listed<Octets>;
