//! The bundle that has begun.
ghost use Rattle.std.specs.Prelude.{◌+◌, ◌≤◌, length, IfOk};
ghost use Rattle.bundle_runs.specs.Given.{IsRead};
ghost use Rattle.bundle_runs.specs.Taking.{kept_of, IsReady, BeginsWith, Takes, IsCutAt};

use crate::front::{Bundle, Cause};
use crate::given::{Given, SEVEN, SIX};
use bundle6::{Fail6, Fed6, Reader6};
use bundle7::{Fail7, Fed7, Reader7};
use std::alloc::{AllocError, Global};

/// The reader of the bundle that has begun.
#[derive(Drop)]
pub enum Unfinished {
    /// Of version 6.
    Six(Reader6),
    /// Of version 7.
    Seven(Reader7),
}

impl Unfinished {
    /// The reader of a bundle that begins with this octet. It has taken nothing.
    pub fn of(alloc: Global, mark: u8) -> Option<Unfinished>
        ensures { BeginsWith mark result }
    {
        match mark {
            SIX => Some(Unfinished::Six(Reader6::new(alloc))),
            SEVEN => Some(Unfinished::Seven(Reader7::new(alloc))),
            _ => None,
        }
    }

    /// Takes a piece, up to the end of the bundle where it has that.
    pub fn feed(&mut self, piece: &[u8]) -> Result<Given<Bundle>, AllocError>
        requires ready { IsReady self.old }
        requires few { length (kept_of self.old) + length piece.now ≤ 67108864 }
        ensures { IfOk result (Takes IsRead self.old piece.now self.new) }
    {
        match self {
            Unfinished::Six(reader) => feed6(reader, piece),
            Unfinished::Seven(reader) => feed7(reader, piece),
        }
    }

    /// The place of the field in which the octets end, where there are any.
    pub fn finish(&mut self) -> Option<usize>
        requires { IsReady self.old }
        ensures { IsCutAt self.old result }
    {
        match self {
            Unfinished::Six(reader) => match reader.finish() {
                Err(Fail6::Refused { at, .. }) => Some(at),
                _ => None,
            },
            Unfinished::Seven(reader) => match reader.finish() {
                Err(Fail7::Refused { at, .. }) => Some(at),
                _ => None,
            },
        }
    }
}

fn feed6(reader: &mut Reader6, piece: &[u8]) -> Result<Given<Bundle>, AllocError>
    requires ready { IsReady (Unfinished.Six reader.old) }
    requires few { length (kept_of (Unfinished.Six reader.old)) + length piece.now ≤ 67108864 }
    ensures { IfOk result (Takes IsRead (Unfinished.Six reader.old) piece.now (Unfinished.Six reader.new)) }
{
    match reader.feed(piece) {
        Ok(
            Fed6 {
                used,
                bundle: Some(bundle),
            },
        ) => Ok(Given::Whole(Bundle::Six(bundle), used)),
        Ok(Fed6 { bundle: None, .. }) => Ok(Given::Part),
        Err(Fail6::Refused { at, cause }) => Ok(Given::Refused(at, Cause::Six(cause))),
        Err(Fail6::Memory) => Err(AllocError),
    }
}

/// Takes a piece of a bundle of version 7, up to its end where it has that.
pub fn feed7(reader: &mut Reader7, piece: &[u8]) -> Result<Given<Bundle>, AllocError>
    requires ready { IsReady (Unfinished.Seven reader.old) }
    requires few { length (kept_of (Unfinished.Seven reader.old)) + length piece.now ≤ 67108864 }
    ensures { IfOk result (Takes IsRead (Unfinished.Seven reader.old) piece.now (Unfinished.Seven reader.new)) }
{
    match reader.feed(piece) {
        Ok(
            Fed7 {
                used,
                bundle: Some(bundle),
            },
        ) => Ok(Given::Whole(Bundle::Seven(bundle), used)),
        Ok(Fed7 { bundle: None, .. }) => Ok(Given::Part),
        Err(Fail7::Refused { at, cause }) => Ok(Given::Refused(at, Cause::Seven(cause))),
        Err(Fail7::Memory) => Err(AllocError),
    }
}
