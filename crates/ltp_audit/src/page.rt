//! A page of a red part: places one after another, each with its octet or with none.

ghost use Rattle.std.specs.Prelude.{◌≡◌, ℕ, ◌+◌, ◌<◌, ◌≤◌, length, replicate, None};
ghost use Rattle.ltp_session.specs.Cells.{cell, octet_in};
ghost use Rattle.ltp_session.specs.RedPart.{or_else};
ghost use Rattle.ltp_audit.specs.Recorded.{agrees, has_no_other};

/// How many places a page has.
pub(crate) const PAGE: u64 = 64;

/// The octets of a page.
#[derive(Clone, Copy, Debug)]
pub(crate) struct Page {
    cells: [Option<u8>; 64],
    ghost size: { length cells ≡ 64 },
}

impl Page {
    /// No octets.
    pub fn empty() -> Page
        ensures { (k : ℕ) → cell result.cells k ≡ None }
    {
        Page { cells: [None; 64] }
    }

    /// Whether no place has another octet than these have, from one on.
    pub fn agrees(&self, from: usize, body: &[u8]) -> bool
        requires { from + length body.now ≤ PAGE }
        ensures { result ≡ agrees (cell self.now.cells) from body.now }
    {
        let mut at = from;
        'comparing: for octet in body {
            if !has_no_other(self.cells[at], *octet) {
                return false;
            }
            at += 1;
        }
        true
    }

    /// The page, with these octets from a place on, where there are none yet.
    pub fn with(self, from: usize, body: &[u8]) -> Page
        requires { from + length body.now ≤ PAGE }
        ensures { (k : ℕ) → cell result.cells k
            ≡ or_else (cell self.cells k) (octet_in from body.now k) }
    {
        let mut cells = self.cells;
        let mut at = from;
        'laying: for octet in body {
            cells[at] = first_of(cells[at], *octet);
            at += 1;
        }
        Page { cells }
    }
}

/// Whether a place has no other octet than this.
fn has_no_other(held: Option<u8>, octet: u8) -> bool
    ensures { result ≡ has_no_other held octet }
{
    match held {
        None => true,
        Some(held) => held == octet,
    }
}

/// The octet that a place has, or else this one.
fn first_of(held: Option<u8>, octet: u8) -> Option<u8>
    ensures { result ≡ or_else held (Some octet) }
{
    match held {
        None => Some(octet),
        Some(first) => Some(first),
    }
}
