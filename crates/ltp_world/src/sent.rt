//! What was ever sent on a link.

ghost use Rattle.std.specs.Prelude.{◌≡◌, ◌++◌, OnOk};
ghost use Rattle.ltp_world.specs.Values.{sent_from};

use crate::ends::End;
use endpoint::Octets;
use std::alloc::{AllocError, Global};

/// A datagram, and the end that sent it.
#[derive(Debug, Drop)]
pub struct Sent {
    /// The end that sent it.
    pub from: End,
    /// Its octets.
    pub datagram: Octets,
}

/// Copies of what an end sent are put at the end of the list.
pub(crate) fn keep(
    alloc: Global,
    sent: &mut Vec<Sent>,
    from: End,
    datagrams: &[Octets],
) -> Result<(), AllocError>
    ensures { OnOk result (sent.new.items ≡ sent.old.items ++ sent_from from datagrams.now) }
{
    'datagrams: for datagram in datagrams {
        let copied = datagram.copy(alloc)?;
        sent.push(Sent {
            from,
            datagram: copied,
        })?;
    }
    Ok(())
}
