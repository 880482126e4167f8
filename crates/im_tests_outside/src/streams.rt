use im_edge::clock::{Clock, FixedClock, TickingClock};
use im_edge::gate::{Gate, OpenGate, Point};
use im_edge::sink::{Given, Sink, WriteFault, Writing, write_all};
use im_edge::source::{Reading, Source, SourceError, Taken, read_all};
use std::alloc::Global;
use std::io;
use std::io::{ErrorKind, Read, Write};

// Gives one octet a read: 'a', 'b', then fails once, then 'c', and then nothing more.
#[derive(Drop)]
struct FailsOnce {
    reads: u8,
}

impl Read for FailsOnce {
    fn read(&mut self, buf: &mut [u8]) -> io::Result<usize> {
        let octet = match self.reads {
            0 => b'a',
            1 => b'b',
            2 => {
                self.reads = 3;
                return Err(io::Error::from(ErrorKind::Other));
            }
            3 => b'c',
            _ => return Ok(0),
        };
        match buf.first_mut() {
            None => Ok(0),
            Some(first) => {
                *first = octet;
                self.reads += 1;
                Ok(1)
            }
        }
    }
}

// Takes one octet a write, and fails once its room is used up.
#[derive(Drop)]
struct OneByOne {
    octets: Vec<u8>,
    room: usize,
}

impl Write for OneByOne {
    fn write(&mut self, buf: &[u8]) -> io::Result<usize> {
        match buf.first() {
            None => Ok(0),
            Some(_) if self.octets.len() >= self.room => Err(io::Error::from(ErrorKind::Other)),
            Some(octet) => {
                self.octets.push(*octet)?;
                Ok(1)
            }
        }
    }

    fn flush(&mut self) -> io::Result<()> {
        Ok(())
    }
}

// Whether a source was read to its end, and gave this.
fn gave(read: Result<Vec<u8>, SourceError>, text: &[u8]) -> bool {
    match read {
        Ok(octets) => octets.as_slice() == text,
        Err(_) => false,
    }
}

// What stood before the failure was taken, and what stands behind it is read by the next call.
fn fails_in_mid_stream(alloc: Global) -> bool {
    let mut source = Reading::new(FailsOnce { reads: 0 });
    read_all(alloc, &mut source, 10).err() == Some(SourceError::Failed)
        && source.failures == 1
        && gave(read_all(alloc, &mut source, 10), b"c")
        && source.failures == 1
}

fn is_read_to_its_end(alloc: Global) -> bool {
    let mut source = Reading::new(b"abc".as_slice());
    let mut buffer = [0u8; 2];
    source.take(&mut buffer) == Taken::Took(2)
        && buffer == *b"ab"
        && gave(read_all(alloc, &mut source, 1), b"c")
        && source.take(&mut buffer) == Taken::End
        && source.failures == 0
}

#[test]
fn sources(rt: HostRuntime) {
    assert!(rt; fails_in_mid_stream(rt.alloc()));
    assert!(rt; is_read_to_its_end(rt.alloc()));
    let long = read_all(rt.alloc(), &mut Reading::new(b"abc".as_slice()), 2);
    assert!(rt; long.err() == Some(SourceError::Long));
}

fn fails_when_full(alloc: Global) -> bool {
    let octets = Vec::new(alloc);
    let mut sink = Writing::new(OneByOne { octets, room: 5 });
    write_all(&mut sink, b"abc") == Ok(())
        && sink.failures == 0
        && write_all(&mut sink, b"def") == Err(WriteFault)
        && sink.failures == 1
        && sink.inner.octets.as_slice() == b"abcde".as_slice()
}

fn takes_all(alloc: Global) -> bool {
    let mut sink = Writing::new(Vec::new(alloc));
    sink.give(b"ab") == Given::Gave(2)
        && write_all(&mut sink, b"cd") == Ok(())
        && sink.inner.as_slice() == b"abcd".as_slice()
}

#[test]
fn sinks(rt: HostRuntime) {
    assert!(rt; fails_when_full(rt.alloc()));
    assert!(rt; takes_all(rt.alloc()));
}

fn ticks() -> bool {
    let mut fixed = FixedClock { time: -1 };
    let mut ticking = TickingClock { asked: 0 };
    let mut full = TickingClock { asked: u32::MAX };
    fixed.now() == -1
        && ticking.now() == 1
        && ticking.now() == 2
        && full.now() == 4_294_967_295
        && full.asked == u32::MAX
}

#[test]
fn clocks_and_a_gate(rt: HostRuntime) {
    assert!(rt; ticks());
    OpenGate.pause(Point::Before {
        session: 0,
        line: 1,
    });
}
