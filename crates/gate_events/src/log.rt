//! The lines of a half, and the counters.

ghost use Rattle.std.specs.Prelude.{◌≡◌, [], OnOk};
ghost use Rattle.gate_log.specs.Lines.{IsNamed};
ghost use Rattle.gate_metrics.specs.Counting.{none_counted, counted_at};
ghost use Rattle.gate_events.specs.Counts.{event_counted};
ghost use Rattle.gate_events.specs.Log.{after_saying, started_at, with_counted};

use crate::counts::count_event;
use gate_cases::Face;
use gate_log::{Event, write_line};
use gate_metrics::{Counted, Counters};
use std::alloc::{AllocError, Global};
use std::marker::Model;

/// The lines of events of one moment, until they are written, and what was counted so far.
///
/// The text is taken once and used again for each moment.
#[derive(Debug, Drop)]
pub struct Log {
    at: u64,
    text: String,
    counters: Counters,
}

impl Model for Log {
    ghost use Rattle.std.specs.String.{string_bytes};
    ghost use Rattle.gate_events.specs.Log.{LogValue};

    ghost Value = { LogValue };

    ghost view = { λ log. record {
      at = log.at;
      text = string_bytes log.text;
      counters = log.counters;
    } };
}

impl Log {
    /// No line, and nothing counted yet. It takes no memory.
    pub fn new(alloc: Global) -> Log
        ensures { result ≡ record { at = 0; text = []; counters = none_counted } }
    {
        Log {
            at: 0,
            text: String::new(alloc),
            counters: Counters::new(),
        }
    }

    /// The lines were written, and those to come are of this moment, in milliseconds since the start
    /// of the year 2000. It takes no memory.
    pub fn start(&mut self, at: u64)
        ensures { self.new ≡ started_at at self.old }
    {
        self.at = at;
        self.text.clear();
    }

    /// Says an event, and counts it. Where memory runs out, a part of its line may stand there.
    pub fn say(&mut self, event: &Event) -> Result<(), AllocError>
        requires { IsNamed event.now }
        ensures { OnOk result (self.new ≡ after_saying event.now self.old) }
    {
        write_line(&mut self.text, self.at, event)?;
        count_event(&mut self.counters, event);
        Ok(())
    }

    /// Counts what no line tells. It takes no memory.
    pub fn count(&mut self, face: Face, what: Counted)
        ensures { self.new ≡ with_counted face what self.old }
    {
        self.counters.count(face, what);
    }

    /// The lines that are to be written.
    pub fn text(&self) -> &str
        ensures { result.now ≡ (self.now).text }
    {
        self.text.as_str()
    }

    /// What was counted.
    pub fn counters(&self) -> &Counters
        ensures { result.now ≡ (self.now).counters }
    {
        &self.counters
    }
}
