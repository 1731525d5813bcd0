//! What stands at a place of a block.

ghost use Rattle.std.specs.Prelude.{◌≡◌, ◌≤◌, length};
ghost use Rattle.gate_cases.specs.declared.face.Face.TheVariants as faces;

use bundle6::judge6;
use bundle7::judge7;
use gate_cases::{BadCause, Face};

/// The end of a row that doesn't end with its block.
#[derive(Clone, Copy, Debug, PartialEq, Eq)]
pub struct End {
    /// The place of the first field that isn't there as it should be, from the block's start.
    pub at: usize,
    /// What is wrong there.
    pub cause: BadCause,
}

/// What stands at a place of a block.
#[derive(Clone, Copy, Debug, PartialEq, Eq)]
pub enum Next {
    /// No octets are left.
    Nothing,
    /// A bundle, from there to before this place.
    Bundle {
        /// Where it ends.
        to: usize,
    },
    /// No bundle: the row ends.
    End {
        /// The place of the first field that isn't there as it should be, from the block's start.
        at: usize,
        /// What is wrong there.
        cause: BadCause,
    },
}

ghost use Rattle.bundle_rows.specs.Rows.{front_of, next_of, IsInBlock};
ghost use Rattle.bundle_rows.specs.Found.{front_found, IsInFront};

/// What stands at a place of a block that was handed up at a face. It takes no memory.
#[tactic(auto, unfolding(crate::specs::Rows::next_of))]
pub fn next_at(face: Face, block: &[u8], at: usize) -> Next
    requires { at ≤ length block.now }
    ensures exact { result ≡ next_of face block.now at }
    ensures within { IsInBlock (length block.now) at result }
{
    if at == block.len() {
        return Next::Nothing;
    }
    match front_of(face, &block[at..]) {
        Ok(size) => Next::Bundle { to: at + size },
        Err(end) => Next::End {
            at: at + end.at,
            cause: end.cause,
        },
    }
}

/// How many octets the bundle at the front of some octets has; or where no bundle goes on, and why.
fn front_of(face: Face, octets: &[u8]) -> Result<usize, End>
    ensures exact { front_found result ≡ front_of face octets.now }
    ensures within { IsInFront (length octets.now) result }
{
    match face {
        Face::Old => front6(octets),
        Face::New => front7(octets),
    }
}

/// The same at the old face.
fn front6(octets: &[u8]) -> Result<usize, End>
    ensures exact { front_found result ≡ front_of faces.Old octets.now }
    ensures within { IsInFront (length octets.now) result }
{
    match judge6(octets) {
        Ok(size) => Ok(size),
        Err(refused) => Err(End {
            at: refused.at,
            cause: BadCause::Six {
                cause: refused.cause,
            },
        }),
    }
}

/// The same at the new face.
fn front7(octets: &[u8]) -> Result<usize, End>
    ensures exact { front_found result ≡ front_of faces.New octets.now }
    ensures within { IsInFront (length octets.now) result }
{
    match judge7(octets) {
        Ok(size) => Ok(size),
        Err(refused) => Err(End {
            at: refused.at,
            cause: BadCause::Seven {
                cause: refused.cause,
            },
        }),
    }
}
