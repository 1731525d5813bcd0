//! Records without what a version 7 bundle has no field for.

ghost use Rattle.std.specs.Prelude.{◌≡◌};
ghost use Rattle.std.specs.List.{filter};
ghost use Rattle.translate.specs.Sound.{IsSound};
ghost use Rattle.block_types.specs.Bare.{is_seven, bare_content, bare_shared, bare_of};

use bundle_meaning::{Content, Ext, Exts, Full, Report, Shared, default6};

/// The record without what only version 6 says: its extension blocks, and flags, custodian and the place of
/// its blocks other than the default; and without the parts below one millisecond of a report's times. Its
/// version 7 bundle has no block of the gateway's own. It takes no memory.
#[tactic(auto, unfolding(crate::specs::Bare::bare_of))]
pub fn bare(full: Full) -> Full
    ensures exact { result ≡ bare_of full }
    ensures sound { IsSound full → IsSound result }
{
    let Full {
        shared,
        extra7,
        exts,
        ..
    } = full;
    Full {
        extra6: default6(&shared),
        shared: bare_shared(shared),
        extra7,
        exts: bare_exts(exts),
    }
}

/// What both versions say, with whole milliseconds in a report.
fn bare_shared(shared: Shared) -> Shared
    ensures { result ≡ bare_shared shared }
{
    let mut shared = shared;
    shared.content = bare_content(shared.content);
    shared
}

/// The payload, with whole milliseconds in a report.
fn bare_content(content: Content) -> Content
    ensures { result ≡ bare_content content }
{
    match content {
        Content::Bytes(octets) => Content::Bytes(octets),
        Content::Report(report) => Content::Report(Report {
            rests: [0; 4],
            ..report
        }),
    }
}

/// The extension blocks of version 7.
fn bare_exts(exts: Exts) -> Exts
    ensures { result ≡ filter is_seven exts }
{
    let mut items = exts.into_vec();
    items.retain(|ext| is_seven(ext));
    Exts::from_vec(items)
}

/// Whether it is a block of version 7.
fn is_seven(ext: &Ext) -> bool
    ensures { result ≡ is_seven ext.now }
{
    match ext {
        Ext::Six(_) => false,
        Ext::Seven(_) => true,
    }
}
