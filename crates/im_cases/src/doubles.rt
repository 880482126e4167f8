//! Doubles of what the top call stands on: a source, a sink and a clock as a case asks for them.

use im_edge::clock::Clock;
use im_edge::sink::{Given, Sink};
use im_edge::source::{Source, Taken};

// How many octets a block has.
const BLOCK: u64 = 4096;

/// A clock that gives a time, and each time behind it by a step later.
#[derive(Clone, Copy)]
pub struct Pace {
    /// The time that it gives next.
    pub next: i64,
    /// By how much the one behind it is later.
    pub step: i64,
}

impl Clock for Pace {
    ghost use Rattle.std.specs.Prelude.{None};

    ghost constant = { λ _. None };

    ghost given = { λ _. None };

    fn now(&mut self) -> i64 {
        let time = self.next;
        self.next = time.saturating_add(self.step);
        time
    }
}

/// A source of some octets and of blocks of `#` behind them, which ends then or fails.
#[derive(Drop)]
pub struct Feed<'a> {
    octets: &'a [u8],
    marks: u64,
    fails: bool,
    failures: u64,
}

impl<'a> Feed<'a> {
    /// A source of these octets and so many blocks.
    pub fn new(octets: &'a [u8], blocks: u64, fails: bool) -> Self {
        Feed {
            octets,
            marks: blocks.saturating_mul(BLOCK),
            fails,
            failures: 0,
        }
    }

    /// How many blocks are left whole.
    pub fn blocks_left(&self) -> u64 {
        self.marks / BLOCK
    }
}

impl Source for Feed<'_> {
    ghost use Rattle.std.specs.Prelude.{None};

    ghost left = { λ _. None };

    ghost faults = { λ feed. feed.failures };

    fn take(&mut self, buffer: &mut [u8]) -> Taken {
        if buffer.is_empty() {
            return Taken::End;
        }
        if !self.octets.is_empty() {
            let n = self.octets.len().min(buffer.len());
            let (front, behind) = self.octets.split_at(n);
            buffer[..n].copy_from_slice(front);
            self.octets = behind;
            return Taken::Took(n);
        }
        if self.marks > 0 {
            let n = self.marks.min(buffer.len() as u64);
            buffer[..n as usize].fill(b'#');
            self.marks -= n;
            return Taken::Took(n as usize);
        }
        if self.fails {
            self.failures = self.failures.saturating_add(1);
            return Taken::Failed;
        }
        Taken::End
    }
}

/// A sink that keeps what it takes. Where its room is told, it takes one octet a call, and fails when it has none left.
#[derive(Drop)]
pub struct Narrow {
    /// What was written.
    pub written: Vec<u8>,
    // Whether it takes one octet a call.
    slow: bool,
    // How many calls it still serves.
    room: u64,
    failures: u64,
}

impl Narrow {
    /// A sink with so much room, and with all where none is told.
    pub fn new(written: Vec<u8>, room: Option<u64>) -> Self {
        Narrow {
            written,
            slow: room.is_some(),
            room: room.unwrap_or(u64::MAX),
            failures: 0,
        }
    }
}

impl Sink for Narrow {
    ghost use Rattle.std.specs.Prelude.{None};

    ghost written = { λ _. None };

    ghost faults = { λ sink. sink.failures };

    fn give(&mut self, piece: &[u8]) -> Given {
        if piece.is_empty() {
            return Given::Gave(0);
        }
        let n = if self.slow { 1 } else { piece.len() };
        if self.room > 0 && self.written.extend_from_slice(&piece[..n]).is_ok() {
            self.room -= 1;
            return Given::Gave(n);
        }
        self.failures = self.failures.saturating_add(1);
        Given::Failed
    }
}
