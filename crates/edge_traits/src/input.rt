//! Reading once, and reading the whole input.
ghost use Rattle.std.specs.Prelude.{◌≡◌, ℕ, List, ◌+◌, ◌<◌, ◌≤◌, ◌^◌, take, length, IfOk, IfErr, IfSome, OnOk, OnErr};
ghost use Rattle.std.specs.Io.{ReadsAtMost};
ghost use Rattle.std.specs.Io.KnownBytes.{Consumes, Keeps, IsAtEnd};
ghost use Rattle.edge_traits.specs.Faults.{Went, calls_of};
ghost use Rattle.edge_traits.specs.Content.{Took, read_front};
ghost use Rattle.edge_traits.specs.Outcome.{WentTo};
ghost use Rattle.edge_traits.specs.declared.input.ReadRefused.TheVariants as refused;

use crate::failing::Failed;
use crate::source::Source;
use std::alloc::{AllocError, Global};

/// Why an input wasn't read.
#[derive(Clone, Copy, Debug, PartialEq, Eq, Drop)]
pub enum ReadRefused {
    /// A read failed.
    Fault,
    /// Memory ran out.
    NoMemory,
}

/// The most octets of an input that a command looks at: 64 MiB.
pub const MOST_INPUT: usize = 67_108_864;

/// How many octets a read asks for.
const BUFFER: usize = 8192;

/// Reads once into the buffer, and answers how many octets came; they stand at its front. 0 is the
/// end of the input.
pub fn read_once<S: Source>(source: &mut S, buffer: &mut [u8]) -> Result<usize, Failed>
    requires { 0 < length buffer.old }
    ensures bound { ReadsAtMost result buffer.new }
    ensures took { IfOk result (λ n. Took (S.left source.old) (S.left source.new) (take n buffer.new)) }
    ensures kept { OnErr result (Keeps (S.left source.old) (S.left source.new)) }
    ensures calls { Went result (calls_of S.faults S.failing source.old) (calls_of S.faults S.failing source.new) }
{
    source.read(buffer)
}

#[tactic(auto, unfolding(crate::specs::Content::read_front))]
/// Reads the input to its end, or `most` + 1 octets of it where it is longer than `most`. No read
/// follows one that failed, and memory is wanted only for octets that came.
pub fn read_all<S: Source>(
    alloc: Global,
    source: &mut S,
    most: usize,
) -> Result<Vec<u8>, ReadRefused>
    requires { most < 2 ^ 62 }
    ensures input { IfOk result (λ input. IfSome (S.left source.old) (λ left. input.items ≡ read_front most left)) }
    ensures ended { IfOk result (λ input. length input.items ≤ most → IsAtEnd (S.left source.new)) }
    ensures came { (taken : List ℕ) × Consumes (S.left source.old) (S.left source.new) taken }
    ensures memory { IfErr result (λ e. e ≡ refused.NoMemory → IfSome (S.left source.old) (λ left. 0 < length left)) }
    ensures calls { WentTo result (calls_of S.faults S.failing source.old) (calls_of S.faults S.failing source.new) }
{
    let mut input = Vec::new(alloc);
    let mut buffer = [0u8; BUFFER];
    'reading: while input.len() <= most {
        let want = BUFFER.min(most + 1 - input.len());
        match read_once(source, &mut buffer[..want]) {
            Ok(0) => return Ok(input),
            Ok(n) => match input.extend_from_slice(&buffer[..n]) {
                Ok(()) => {}
                Err(AllocError) => return Err(ReadRefused::NoMemory),
            },
            Err(Failed) => return Err(ReadRefused::Fault),
        }
    }
    Ok(input)
}
