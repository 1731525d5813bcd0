//! The record.

ghost use Rattle.std.specs.Prelude.{◌≡◌, IfOk};

use crate::blocks::Exts;
use crate::extra::{Extra6, Extra7};
use crate::report::Report;
use crate::shared::{Content, Shared};
use std::alloc::{AllocError, Global};

/// All that is known of a bundle: enough to write it in either version and to have it back.
#[derive(Debug, Drop)]
pub struct Full {
    /// What both versions say.
    pub shared: Shared,
    /// What only version 6 says.
    pub extra6: Extra6,
    /// What only version 7 says.
    pub extra7: Extra7,
    /// The extension blocks, in their order.
    pub exts: Exts,
}

/// An equal record.
pub fn copy(alloc: Global, full: &Full) -> Result<Full, AllocError>
    ensures { IfOk result (λ copied. copied ≡ full.now) }
{
    Ok(Full {
        shared: full.shared.copy(alloc)?,
        extra6: full.extra6.copy(alloc)?,
        extra7: full.extra7,
        exts: full.exts.copy(alloc)?,
    })
}

impl Shared {
    /// An equal value.
    pub fn copy(&self, alloc: Global) -> Result<Shared, AllocError>
        ensures { IfOk result (λ copied. copied ≡ self.now) }
    {
        Ok(Shared {
            destination: self.destination.copy(alloc)?,
            source: self.source.copy(alloc)?,
            report_to: self.report_to.copy(alloc)?,
            millis: self.millis,
            sequence: self.sequence,
            expiry: self.expiry,
            flags: self.flags,
            fragment: self.fragment,
            payload_flags: self.payload_flags,
            content: self.content.copy(alloc)?,
        })
    }
}

impl Content {
    /// An equal value.
    pub fn copy(&self, alloc: Global) -> Result<Content, AllocError>
        ensures { IfOk result (λ copied. copied ≡ self.now) }
    {
        Ok(match self {
            Content::Bytes(octets) => Content::Bytes(octets.copy(alloc)?),
            Content::Report(report) => Content::Report(report.copy(alloc)?),
        })
    }
}

impl Report {
    /// An equal value.
    pub fn copy(&self, alloc: Global) -> Result<Report, AllocError>
        ensures { IfOk result (λ copied. copied ≡ self.now) }
    {
        Ok(Report {
            stamps: self.stamps,
            rests: self.rests,
            reason: self.reason,
            source: self.source.copy(alloc)?,
            millis: self.millis,
            sequence: self.sequence,
            fragment: self.fragment,
        })
    }
}

impl Extra6 {
    /// An equal value.
    pub fn copy(&self, alloc: Global) -> Result<Extra6, AllocError>
        ensures { IfOk result (λ copied. copied ≡ self.now) }
    {
        Ok(Extra6 {
            flags: self.flags,
            custodian: self.custodian.copy(alloc)?,
            payload_flags: self.payload_flags,
            after: self.after,
        })
    }
}
