//! The versions in memory with calls that fail or find no room, the adapters over std's reader
//! and writer, and the loops over them.

use crate::runs::{WHOLE, run_over};
use edge_traits::{
    Answer, Clock, Failed, LONGEST_DATAGRAM, Link, MOST_AGAIN, MemClock, MemLink, MemSink,
    MemSource, ReadRefused, Reading, Sink, Source, Status, SureSink, SureSource, Writing, read_all,
    write_answer,
};
use std::alloc::{AllocError, Global};
use std::io::{self, ErrorKind, Read, Write};
use std::test::Fail;

/// A reader and writer of std whose every call is an error.
#[derive(Drop)]
struct Broken;

impl Read for Broken {
    fn read(&mut self, _: &mut [u8]) -> io::Result<usize> {
        Err(ErrorKind::TimedOut.into())
    }
}

impl Write for Broken {
    fn write(&mut self, _: &[u8]) -> io::Result<usize> {
        Err(ErrorKind::TimedOut.into())
    }

    fn flush(&mut self) -> io::Result<()> {
        Ok(())
    }
}

/// A reader of std whose first calls are errors, and which gives its octets from then on.
#[derive(Drop)]
struct Stumbling<'a> {
    kind: ErrorKind,
    times: u32,
    octets: &'a [u8],
}

impl Read for Stumbling<'_> {
    fn read(&mut self, buf: &mut [u8]) -> io::Result<usize> {
        if self.times == 0 {
            return self.octets.read(buf);
        }
        self.times -= 1;
        Err(self.kind.into())
    }
}

/// A writer of std whose first calls are errors, and which takes what it is given from then on.
#[derive(Drop)]
struct Halting {
    kind: ErrorKind,
    times: u32,
}

impl Write for Halting {
    fn write(&mut self, piece: &[u8]) -> io::Result<usize> {
        if self.times == 0 {
            return Ok(piece.len());
        }
        self.times -= 1;
        Err(self.kind.into())
    }

    fn flush(&mut self) -> io::Result<()> {
        Ok(())
    }
}

/// Whether four reads into three octets answer so.
fn four_reads<S: Source>(source: &mut S, wanted: [Result<usize, Failed>; 4]) -> bool {
    let mut buffer = [0; 3];
    for answer in wanted {
        if source.read(&mut buffer) != answer {
            return false;
        }
    }
    true
}

#[test]
fn reads_give_the_octets_in_order(rt: HostRuntime) -> Result<(), Fail> {
    let whole = [Ok(3), Ok(2), Ok(0), Ok(0)];
    let mut failing = MemSource::new(rt.alloc(), b"abcde", &[false, true])?;
    assert!(rt; four_reads(&mut failing, [Ok(3), Err(Failed), Ok(2), Ok(0)]));
    assert!(rt; four_reads(&mut SureSource::new(rt.alloc(), b"abcde")?, whole));
    assert!(rt; four_reads(&mut Reading::new(b"abcde".as_slice()), whole));
    assert!(rt; four_reads(&mut Reading::new(Broken), [Err(Failed); 4]));
    Ok(())
}

/// A reader of these octets that stumbles so often first.
fn stumbles_first(kind: ErrorKind, times: u32, octets: &[u8]) -> Stumbling<'_> {
    Stumbling {
        kind,
        times,
        octets,
    }
}

/// Errors of a reader, how often they come first, and the first of its reads: one that was only
/// interrupted is made again, but not without end.
const STUMBLES: &[(ErrorKind, u32, Result<usize, Failed>)] = &[
    (ErrorKind::TimedOut, 1, Err(Failed)),
    (ErrorKind::Interrupted, 1, Ok(3)),
    (ErrorKind::Interrupted, MOST_AGAIN - 1, Ok(3)),
    (ErrorKind::Interrupted, MOST_AGAIN, Err(Failed)),
];

#[test]
fn an_interrupted_read_is_made_again(rt: HostRuntime) {
    for &(kind, times, first) in STUMBLES {
        let mut source = Reading::new(stumbles_first(kind, times, b"abcde"));
        let mut buffer = [0; 3];
        assert!(rt; source.read(&mut buffer) == first, "{kind:?} {times}");
        assert!(rt; source.read(&mut buffer).is_ok(), "{kind:?} {times}");
    }
}

#[test]
fn an_interrupted_write_is_made_again(rt: HostRuntime) {
    for &(kind, times, first) in STUMBLES {
        let mut sink = Writing::new(Halting { kind, times });
        assert!(rt; sink.write(b"abc") == first, "{kind:?} {times}");
        assert!(rt; sink.write(b"abc") == Ok(3), "{kind:?} {times}");
    }
}

/// How a run over a reader that stumbles ends, which writes nothing where a read fails.
fn run_stumbles(alloc: Global, kind: ErrorKind, times: u32) -> Result<Status, AllocError> {
    let mut source = Reading::new(stumbles_first(kind, times, WHOLE.as_bytes()));
    let mut sink = SureSink::new(alloc, 100)?;
    let status = run_over(alloc, &["receive"], &mut source, &mut sink)?;
    if status == Status::ReadFault && !sink.octets().is_empty() {
        return Ok(Status::Refused);
    }
    Ok(status)
}

#[test]
fn a_run_ends_with_a_failed_read_and_not_with_an_interrupted_one(
    rt: HostRuntime,
) -> Result<(), Fail> {
    assert!(rt; run_stumbles(rt.alloc(), ErrorKind::TimedOut, 1)? == Status::ReadFault);
    assert!(rt; run_stumbles(rt.alloc(), ErrorKind::Interrupted, 1)? == Status::Done);
    Ok(())
}

/// What is read of `abcdef`, where these reads fail.
fn read_of(alloc: Global, failing: &[bool], most: u8) -> Result<Vec<u8>, ReadRefused> {
    let Ok(mut source) = MemSource::new(alloc, b"abcdef", failing) else {
        return Err(ReadRefused::NoMemory);
    };
    read_all(alloc, &mut source, usize::from(most))
}

#[test]
fn an_input_is_read_whole_or_to_one_past_the_most(rt: HostRuntime) -> Result<(), Fail> {
    for (most, wanted) in [(6, "abcdef"), (5, "abcdef"), (4, "abcde"), (0, "a")] {
        assert!(rt;
            read_of(rt.alloc(), &[], most)?.as_slice() == wanted.as_bytes(),
            "{most}"
        );
    }
    for failing in [[true].as_slice(), &[false, true]] {
        assert!(rt; read_of(rt.alloc(), failing, 6).err() == Some(ReadRefused::Fault));
    }
    Ok(())
}

/// Whether the writes of `abc`, of `de` and of nothing answer so.
fn three_writes<K: Sink>(sink: &mut K, wanted: [Result<usize, Failed>; 3]) -> bool {
    let first = sink.write(b"abc") == wanted[0];
    let second = sink.write(b"de") == wanted[1];
    first && second && sink.write(b"") == wanted[2]
}

#[test]
fn writes_take_what_they_answer(rt: HostRuntime) -> Result<(), Fail> {
    let whole = [Ok(3), Ok(2), Ok(0)];
    let mut sink = MemSink::new(rt.alloc(), 5, &[false, true])?;
    assert!(rt; three_writes(&mut sink, [Ok(3), Err(Failed), Ok(0)]));
    assert!(rt; sink.octets() == b"abc".as_slice());
    let mut sure = SureSink::new(rt.alloc(), 5)?;
    assert!(rt; three_writes(&mut sure, whole) && sure.octets() == b"abcde".as_slice());
    assert!(rt; three_writes(&mut MemSink::new(rt.alloc(), 4, &[])?, whole));
    assert!(rt; three_writes(&mut Writing::new(Broken), [Err(Failed); 3]));
    Ok(())
}

/// How much room a buffer has, what it holds after the writes, and what they answer.
const ROOMS: [(usize, [u8; 5], [Result<usize, Failed>; 3]); 3] = [
    (5, *b"abcde", [Ok(3), Ok(2), Ok(0)]),
    (4, *b"abcd.", [Ok(3), Ok(1), Ok(0)]),
    (3, *b"abc..", [Ok(3), Err(Failed), Ok(0)]),
];

#[test]
fn a_writer_that_takes_nothing_fails(rt: HostRuntime) {
    for (room, octets, wanted) in ROOMS {
        let mut buffer = *b".....";
        let front = room.min(buffer.len());
        assert!(rt;
            three_writes(&mut Writing::new(&mut buffer[..front]), wanted),
            "{room}"
        );
        assert!(rt; buffer == octets, "{room}");
    }
}

/// Whether the writing of a refusal `abcde` ends so, and leaves this in the sink.
fn writes_so(alloc: Global, failing: bool, ends: Status, held: &str) -> Result<bool, AllocError> {
    let mut sink = MemSink::new(alloc, 5, &[failing])?;
    let answer = Answer {
        text: String::from_str(alloc, "abcde")?,
        status: Status::Refused,
    };
    let status = write_answer(&mut sink, &answer);
    Ok(status == ends && sink.octets() == held.as_bytes())
}

#[test]
fn an_answer_is_written_whole_or_ends_with_the_fault(rt: HostRuntime) -> Result<(), Fail> {
    assert!(rt; writes_so(rt.alloc(), false, Status::Refused, "abcde")?);
    assert!(rt; writes_so(rt.alloc(), true, Status::WriteFault, "")?);
    Ok(())
}

/// Whether a poll answers so, with this datagram in front.
fn polls(
    alloc: Global,
    link: &mut MemLink,
    wanted: Result<Option<usize>, Failed>,
    datagram: &[u8],
) -> Result<bool, AllocError> {
    let mut buffer = vec![in alloc; 0u8; LONGEST_DATAGRAM]?;
    let answer = link.poll(&mut buffer);
    Ok(answer == wanted && buffer.starts_with(datagram))
}

#[test]
fn a_link_answers_in_order(rt: HostRuntime) -> Result<(), Fail> {
    let alloc = rt.alloc();
    let mut link = MemLink::new(alloc, 3, &[false, true, true])?;
    link.put(b"ab")?;
    link.put(b"c")?;
    assert!(rt; polls(alloc, &mut link, Ok(Some(2)), b"ab")?);
    assert!(rt; polls(alloc, &mut link, Err(Failed), b"")?);
    assert!(rt; link.send(b"de") == Err(Failed) && link.send(b"de").is_ok());
    assert!(rt; polls(alloc, &mut link, Ok(Some(1)), b"c")?);
    assert!(rt; polls(alloc, &mut link, Ok(None), b"")? && link.send(b"fg").is_ok());
    Ok(())
}

#[test]
fn a_clock_repeats_its_last_reading(rt: HostRuntime) -> Result<(), Fail> {
    let mut clock = MemClock::new(rt.alloc(), &[5, 9])?;
    for wanted in [5, 9, 9] {
        assert!(rt; clock.now() == wanted, "{wanted}");
    }
    Ok(())
}

#[test]
fn each_status_has_its_code(rt: HostRuntime) {
    for (status, code) in [
        (Status::Done, 0),
        (Status::Refused, 1),
        (Status::Usage, 2),
        (Status::ReadFault, 3),
        (Status::WriteFault, 4),
        (Status::Limit, 6),
        (Status::Memory, 7),
    ] {
        assert!(rt; status.code() == code, "{code}");
    }
}
