//! What a command reads, by its word.
ghost use Rattle.std.specs.Prelude.{◌≡◌};
ghost use Rattle.console.specs.Hints.{reads_of, is_lines, is_on_bundles, is_on_events};

/// What a command reads.
#[derive(Clone, Copy, Debug, PartialEq, Eq, Drop)]
pub enum Reads {
    /// `receive`: a datagram in hex a line.
    Datagrams,
    /// `check`, `show`, `convert`, `cut` and `join`: octets of bundles.
    Bundles,
    /// `node` and `record`: lines of what happens at one end of a link.
    Events,
    /// `audit`: a recorded exchange.
    Exchange,
    /// `world`: a script.
    Script,
    /// `link`: a script on a link that may have windows.
    Windows,
}

impl Reads {
    /// What the command of this word reads, where it reads anything.
    pub fn of(word: &[u8]) -> Option<Reads>
        ensures { result ≡ reads_of word.now }
    {
        if word == b"receive".as_slice() {
            Some(Reads::Datagrams)
        } else if is_on_events(word) {
            Some(Reads::Events)
        } else if word == b"audit".as_slice() {
            Some(Reads::Exchange)
        } else if word == b"world".as_slice() {
            Some(Reads::Script)
        } else if word == b"link".as_slice() {
            Some(Reads::Windows)
        } else if is_on_bundles(word) {
            Some(Reads::Bundles)
        } else {
            None
        }
    }

    /// Whether that is lines.
    pub fn is_lines(self) -> bool
        ensures { result ≡ is_lines self }
    {
        match self {
            Reads::Bundles => false,
            Reads::Datagrams | Reads::Events | Reads::Exchange | Reads::Script | Reads::Windows =>
                true,
        }
    }
}

/// Whether the word is that of a command on bundles.
fn is_on_bundles(word: &[u8]) -> bool
    ensures { result ≡ is_on_bundles word.now }
{
    word == b"check".as_slice()
        || word == b"show".as_slice()
        || word == b"convert".as_slice()
        || word == b"cut".as_slice()
        || word == b"join".as_slice()
}

/// Whether the word is that of a command on events.
fn is_on_events(word: &[u8]) -> bool
    ensures { result ≡ is_on_events word.now }
{
    word == b"node".as_slice() || word == b"record".as_slice()
}
