//! `receive --keep-going`: the lines after one that is refused are read too.
ghost use Rattle.std.specs.Prelude.{◌≡◌};
ghost use Rattle.receive_run.specs.Receive.{the_limits};
ghost use Rattle.receive_run.specs.KeepReceiving.{Receiving, keep_receiving_rules, nothing_received};

use crate::receive::Receive;
use command_frame::LineStep;
use edge_traits::Status;
use std::alloc::{AllocError, Global};

/// What `receive --keep-going` keeps from line to line.
#[derive(Drop)]
pub struct KeepReceiving {
    receive: Receive,
    refused: bool,
}

impl KeepReceiving {
    /// No line came yet.
    pub fn new(alloc: Global) -> KeepReceiving
        ensures { ⟦<KeepReceiving as LineStep>⟧.Shows result nothing_received }
    {
        KeepReceiving {
            receive: Receive::new(alloc),
            refused: false,
        }
    }
}

impl LineStep for KeepReceiving {
    ghost State = { Receiving };

    ghost Shows = { λ r state. (⟦<Receive as LineStep>⟧.Shows r.receive state.kept) × (r.refused ≡ state.refused) };

    ghost rules = { keep_receiving_rules the_limits };

    ghost Began = { λ r. ⊥ };

    fn most_lines(&self) -> u32 {
        self.receive.most_lines()
    }

    fn most_octets(&self) -> u32 {
        self.receive.most_octets()
    }

    fn line(
        &mut self,
        number: u64,
        line: &[u8],
        text: &mut String,
    ) -> Result<Option<Status>, AllocError> {
        match self.receive.answer(number, line, text)? {
            Some(Status::Refused) => {
                self.refused = true;
                Ok(None)
            }
            ends => Ok(ends),
        }
    }

    fn finish(&mut self, _text: &mut String) -> Result<Status, AllocError> {
        Ok(match self.refused {
            true => Status::Refused,
            false => Status::Done,
        })
    }
}
