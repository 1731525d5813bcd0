//! The gateway's private blocks among the others.

ghost use Rattle.std.specs.Prelude.{◌≡◌};
ghost use Rattle.endpoint.specs.Endpoints.{begins};
ghost use Rattle.wire_fields.specs.Reading.{IsOctets};
ghost use Rattle.bundle_meaning.specs.Blocks.{mark, is_marked};
ghost use Rattle.translate.specs.Private.{is_residue, is_wrap};

/// The octets with which a private body begins.
const MARK: [u8; 4] = [0x42, 0x36, 0x37, 0x47];
/// The type of a residue, in both versions.
pub(crate) const RESIDUE: u64 = 192;
/// The type of a wrap, in both versions.
pub(crate) const WRAP: u64 = 193;

/// Says that what a body holds are octets.
pub(crate) fn holds_octets(body: &[u8])
    ensures { IsOctets body.now }
{}

/// Whether a body begins with the mark.
fn begins(body: &[u8]) -> bool
    ensures { result ≡ begins mark body.now }
{
    body.starts_with(MARK.as_slice())
}

/// Whether a block of this type and body is a residue.
pub(crate) fn is_residue(kind: u64, body: &[u8]) -> bool
    ensures { result ≡ is_residue kind body.now }
{
    kind == RESIDUE && begins(body)
}

/// Whether a block of this type and body is a wrap.
pub(crate) fn is_wrap(kind: u64, body: &[u8]) -> bool
    ensures exact { result ≡ is_wrap kind body.now }
    ensures octets { IsOctets body.now }
{
    kind == WRAP && begins(body)
}

/// Whether a block of this type and body is one of the gateway's own.
pub(crate) fn is_marked(kind: u64, body: &[u8]) -> bool
    ensures { result ≡ is_marked kind body.now }
{
    (kind == RESIDUE || kind == WRAP) && begins(body)
}
