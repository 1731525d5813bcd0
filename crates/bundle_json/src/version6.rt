//! Bundles of version 6.
ghost use Rattle.std.specs.Prelude.{◌≡◌, ◌++◌, OnOk, IfOk};
ghost use Rattle.std.specs.String.{string_bytes};
ghost use Rattle.serde_json.specs.Written.{compact_text};
ghost use Rattle.bundle6.specs.Legal.{IsLegal, IsLegalPrimary, IsLegalBlock};
ghost use Rattle.bundle_json.specs.Json.{block6, bundle6};
ghost use Rattle.bundle_json.specs.Frames.{empty, head6_shown, head6};

use crate::cut::{BLOCKS, BODY, REFS_END, write_between, write_octets};
use crate::list::{Shown, write_items};
use crate::name::{name_of, write_names};
use crate::shown::{Frame6, Head6, Rest, Two};
use bundle6::{Block6, Bundle6, Primary6};
use std::alloc::{AllocError, Global};

/// Appends the JSON text of a bundle of version 6. Where memory runs out, a part of it may stand there.
pub fn write6(text: &mut String, bundle: &Bundle6) -> Result<(), AllocError>
    requires { IsLegal bundle.now }
    ensures { OnOk result (string_bytes text.new ≡ string_bytes text.old ++ compact_text (bundle6 bundle.now)) }
{
    let head_text = head(*text.allocator(), &bundle.primary)?;
    text.push_str(BLOCKS)?;
    write_items(text, bundle.blocks.as_slice())?;
    write_between(text, head_text.as_str(), BLOCKS, "")
}

/// The text without the blocks.
fn head(alloc: Global, primary: &Primary6) -> Result<String, AllocError>
    requires { IsLegalPrimary primary.now }
    ensures { IfOk result (λ text. string_bytes text ≡ compact_text (head6 empty primary.now)) }
{
    let head = Head6 {
        last: None,
        creation: Two(primary.seconds, primary.sequence),
        custodian: name_of(alloc, &primary.custodian)?,
        rest: Rest {
            destination: name_of(alloc, &primary.destination)?,
            flags: primary.flags,
            fragment: primary.fragment,
            lifetime: primary.lifetime,
            report_to: name_of(alloc, &primary.report_to)?,
            source: name_of(alloc, &primary.source)?,
            version: 6,
        },
    };
    head.text(alloc)
}

impl Shown for Block6 {
    ghost json = { block6 };

    ghost HasText = { IsLegalBlock };

    fn show(&self, text: &mut String) -> Result<(), AllocError> {
        let frame = Frame6 {
            flags: self.flags,
            kind: self.kind,
        };
        let frame_text = frame.text(*text.allocator())?;
        text.push_str(BODY)?;
        write_octets(text, self.body.as_slice())?;
        write_between(text, frame_text.as_str(), BODY, REFS_END)?;
        write_names(text, &self.refs)?;
        text.push_str(REFS_END)
    }
}
