//! What one version says of a bundle and the other doesn't.

ghost use Rattle.std.specs.Prelude.{◌≡◌};
ghost use Rattle.bundle_meaning.specs.Defaults.{default6_of, default7_of};

use crate::shared::Shared;
use endpoint::Endpoint;

/// What only version 6 says.
#[derive(Debug, Drop, PartialEq, Eq)]
pub struct Extra6 {
    /// The bundle's flags that version 7 hasn't: all but bits 0, 1, 2, 5, 14, 16, 17 and 18. Bit 3,
    /// custody, is clear.
    pub flags: u64,
    /// Who has the bundle's custody.
    pub custodian: Endpoint,
    /// The payload block's flags that version 7 hasn't: all but bits 0, 1, 2 and 4. Bits 3 and 6 are
    /// clear.
    pub payload_flags: u64,
    /// How many of the extension blocks stand after the payload.
    pub after: u64,
}

/// What only version 7 says.
#[derive(Clone, Copy, Debug, PartialEq, Eq)]
pub struct Extra7 {
    /// The bundle's flags that version 6 hasn't: all but bits 0, 1, 2, 5, 14, 16, 17 and 18.
    pub flags: u64,
    /// The check of the primary block: 0 none, 1 CRC-16 X-25, 2 CRC-32C.
    pub crc: u8,
    /// The check of the payload block.
    pub payload_crc: u8,
    /// The payload block's flags that version 6 hasn't: all but bits 0, 1, 2 and 4.
    pub payload_flags: u64,
}

/// Priority normal: bit 7 of a version 6 bundle's flags.
const NORMAL: u64 = 0x80;
/// The destination is one receiver: bit 4 of a version 6 bundle's flags.
const SINGLETON: u64 = 0x10;

/// What version 6 says of a bundle where nothing else is known. Own rule: priority normal, no
/// custodian, and the payload as the last block.
pub fn default6(shared: &Shared) -> Extra6
    ensures { result ≡ default6_of shared.now }
{
    let singleton = if shared.destination.is_singleton() {
        SINGLETON
    } else {
        0
    };
    Extra6 {
        flags: NORMAL + singleton,
        custodian: Endpoint::Null,
        payload_flags: 0,
        after: 0,
    }
}

/// What version 7 says of a bundle where nothing else is known. Own rule: CRC-16 on the primary
/// block, no check on the payload block.
pub fn default7(_shared: &Shared) -> Extra7
    ensures { result ≡ default7_of }
{
    Extra7 {
        flags: 0,
        crc: 1,
        payload_crc: 0,
        payload_flags: 0,
    }
}
