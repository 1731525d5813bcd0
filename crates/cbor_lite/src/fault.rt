//! Why octets are no item.
ghost use Rattle.std.specs.Prelude.{◌≡◌};
ghost use Rattle.cbor_lite.specs.Fault.{word_of};

use thiserror::Error;

/// Why octets don't begin with the item that was asked for. The variants stand in the order in
/// which they are tested; of a string, its content is tested last, and is then `Short`.
#[derive(Clone, Copy, Debug, PartialEq, Eq, Drop, Error)]
pub enum CborFault {
    /// The first octet is of another kind, or its additional information is 28 to 31.
    #[error("Kind")]
    Kind,
    /// The octets end inside the item.
    #[error("Short")]
    Short,
    /// The head is whole, and a shorter one says the same number.
    #[error("NotShortest")]
    NotShortest,
}

impl CborFault {
    /// The name of the fault.
    pub fn word(&self) -> &'static str
        ensures { result.now ≡ word_of self.now }
    {
        match self {
            CborFault::Kind => "Kind",
            CborFault::Short => "Short",
            CborFault::NotShortest => "NotShortest",
        }
    }
}
