//! Bundles of version 7.
ghost use Rattle.std.specs.Prelude.{◌≡◌, ◌++◌, OnOk, IfOk};
ghost use Rattle.std.specs.String.{string_bytes};
ghost use Rattle.serde_json.specs.Written.{compact_text};
ghost use Rattle.bundle7.specs.Legal.{IsLegal7, IsLegalPrimary};
ghost use Rattle.bundle_json.specs.Json.{block7, bundle7};
ghost use Rattle.bundle_json.specs.Frames.{head7};

use crate::cut::{BLOCKS, BODY, LAST, write_between, write_octets};
use crate::list::{Shown, write_items};
use crate::name::name_of;
use crate::shown::{Frame7, Head7, Rest, Two};
use bundle7::{Block7, Bundle7};
use std::alloc::{AllocError, Global};

/// Appends the JSON text of a bundle of version 7. Where memory runs out, a part of it may stand there.
pub fn write7(text: &mut String, bundle: &Bundle7) -> Result<(), AllocError>
    requires { IsLegal7 bundle.now }
    ensures { OnOk result (string_bytes text.new ≡ string_bytes text.old ++ compact_text (bundle7 bundle.now)) }
{
    let head_text = head(*text.allocator(), bundle)?;
    text.push_str(BLOCKS)?;
    let comma = write_items(text, bundle.exts.as_slice())?;
    text.push_str(comma)?;
    text.push_str(BODY)?;
    write_octets(text, bundle.payload.body.as_slice())?;
    write_between(text, head_text.as_str(), LAST, "")
}

/// The text with the payload alone, without its octets.
fn head(alloc: Global, bundle: &Bundle7) -> Result<String, AllocError>
    requires { IsLegalPrimary bundle.now.primary }
    ensures { IfOk result (λ text. string_bytes text ≡ compact_text (head7 bundle.now)) }
{
    let primary = &bundle.primary;
    let payload = &bundle.payload;
    let head = Head7 {
        last: Frame7 {
            crc: payload.crc,
            flags: payload.flags,
            kind: payload.kind,
            number: payload.number,
        },
        crc: primary.crc,
        creation: Two(primary.millis, primary.sequence),
        rest: Rest {
            destination: name_of(alloc, &primary.destination)?,
            flags: primary.flags,
            fragment: primary.fragment,
            lifetime: primary.lifetime,
            report_to: name_of(alloc, &primary.report_to)?,
            source: name_of(alloc, &primary.source)?,
            version: 7,
        },
    };
    head.text(alloc)
}

impl Shown for Block7 {
    ghost json = { block7 };

    ghost HasText = { λ _. Unit {0} };

    fn show(&self, text: &mut String) -> Result<(), AllocError> {
        let frame = Frame7 {
            crc: self.crc,
            flags: self.flags,
            kind: self.kind,
            number: self.number,
        };
        let frame_text = frame.text(*text.allocator())?;
        text.push_str(BODY)?;
        write_octets(text, self.body.as_slice())?;
        write_between(text, frame_text.as_str(), BODY, "")
    }
}
