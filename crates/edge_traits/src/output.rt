//! Writing a whole text, and a whole answer.
ghost use Rattle.std.specs.Prelude.{◌≡◌, length, OnOk, OnErr};
ghost use Rattle.edge_traits.specs.AnswerView.{answered};
ghost use Rattle.edge_traits.specs.Faults.{Went, calls_of};
ghost use Rattle.edge_traits.specs.Content.{Gains, GainsFront};
ghost use Rattle.edge_traits.specs.Outcome.{IsAnswer, WroteAnswer, WentWriting};

use crate::answer::Answer;
use crate::failing::Failed;
use crate::sink::Sink;
use crate::status::Status;

/// Writes the text to its end. Where a write fails, a front of the text was written, and no write
/// follows it.
pub fn write_all<K: Sink>(sink: &mut K, text: &[u8]) -> Result<(), Failed>
    ensures ok { OnOk result (Gains (K.held sink.old) (K.held sink.new) text.now) }
    ensures err { OnErr result (GainsFront (K.held sink.old) (K.held sink.new) text.now) }
    ensures calls { Went result (calls_of K.faults K.failing sink.old) (calls_of K.faults K.failing sink.new) }
{
    let mut rest = text;
    'writing: while !rest.is_empty() {
        match sink.write(rest) {
            Ok(n) => rest = &rest[n..],
            Err(failed) => return Err(failed),
        }
    }
    Ok(())
}

/// Writes an answer: its status, or `WriteFault` where a write failed.
pub fn write_answer<K: Sink>(sink: &mut K, answer: &Answer) -> Status
    requires { IsAnswer answer.now.status }
    ensures wrote { WroteAnswer (answered answer.now) result (K.held sink.old) (K.held sink.new) }
    ensures calls { WentWriting result (calls_of K.faults K.failing sink.old) (calls_of K.faults K.failing sink.new) }
{
    match write_all(sink, answer.text.as_bytes()) {
        Ok(()) => answer.status,
        Err(_) => Status::WriteFault,
    }
}
