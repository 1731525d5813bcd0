//! The words of the program's call.
ghost use Rattle.std.specs.Prelude.{◌≡◌, ◌⊎◌, map, IfOk, IfErr};
ghost use Rattle.std.specs.String.{string_bytes};

use edge_traits::Status;
use gateway_run::Word;
use std::alloc::{AllocError, Global};
use std::env;
use std::io::ErrorKind;
use std::rt::Env;

/// The words of the program's call, without its name. An argument that isn't UTF-8 is wrong usage.
/// The standard library tells nothing of the arguments themselves, so that these are all of them is
/// only tested.
pub fn words_of<R: Env + AllocGlobal>(rt: &R) -> Result<Vec<Word>, Status>
    ensures refused { IfErr result (λ status. (status ≡ Status.Usage) ⊎ (status ≡ Status.Memory)) }
{
    let arguments = match env::args(rt) {
        Ok(arguments) => arguments,
        Err(e) if e.kind() == ErrorKind::OutOfMemory => return Err(Status::Memory),
        Err(_) => return Err(Status::Usage),
    };
    match arguments.skip(1).collect(rt.alloc()) {
        Ok(texts) => words_in(rt.alloc(), texts).map_err(|_| Status::Memory),
        Err(_) => Err(Status::Memory),
    }
}

/// The words that these texts are.
fn words_in(alloc: Global, texts: Vec<String>) -> Result<Vec<Word>, AllocError>
    ensures { IfOk result (λ words. words.items ≡ map string_bytes texts.items) }
{
    let mut words = Vec::new(alloc);
    for text in texts {
        words.push(Word::new(text))?;
    }
    Ok(words)
}
