ghost use Rattle.std.specs.Prelude.{◌≡◌, ◌≤◌, ◌<◌, ◌+◌, ℕ, List, [], length, IfOk, OnOk, IfSome, IsErrOf, Option};
ghost use Rattle.im_counts.specs.Counts.{Rose};
ghost use Rattle.im_edge.specs.Sources.{Takes, TakesAtMost, TakeCause, SameUnlessFailed};

use std::alloc::{AllocError, Global};
use std::io::Read;

// How many octets one take of `read_all` asks for.
const ROOM: usize = 4096;

/// What a take answers.
#[derive(Clone, Copy, Debug, PartialEq, Eq)]
pub enum Taken {
    /// So many octets, at least one, stand at the front of the buffer.
    Took(usize),
    /// Nothing is left, or the buffer has no room.
    End,
    /// The source failed, and was counted.
    Failed,
}

/// A source of octets, which are taken from the front.
///
/// # Thread safety
///
/// None is claimed. Each call takes the source by `&mut`, so one caller at a time holds it.
///
/// # Invariants
///
/// Where what is left is told (`left`), a call only takes octets from its front. The count of failures
/// (`faults`) never falls.
pub trait Source {
    /// The octets that are left, where the source tells them.
    ghost left: { Self → Option (List ℕ) };

    /// How often it has failed.
    ghost faults: { Self → ℕ };

    /// Takes octets from the front of what is left into the front of `buffer`, at most as many as
    /// it has room for. `End` comes at the end of what is left, and at a buffer with no room.
    /// `Failed` takes nothing.
    fn take(&mut self, buffer: &mut [u8]) -> Taken
        ensures octets { Takes result buffer.new (left self.old) (left self.new) }
        ensures cause { TakeCause result (faults self.old) (faults self.new) };
}

/// Why a source wasn't read to its end.
#[derive(Clone, Copy, Debug, PartialEq, Eq)]
pub enum SourceError {
    /// Memory ran out.
    Memory,
    /// The source failed.
    Failed,
    /// The source has more octets than were asked for.
    Long,
}

impl From<AllocError> for SourceError {
    ghost use Rattle.im_edge.specs.declared.source.SourceError.TheVariants.{Memory};

    ghost from_gives = { λ _ error. error ≡ Memory };

    fn from(_: AllocError) -> Self {
        SourceError::Memory
    }
}

/// Reads a source to its end, unless it has more than `most` octets. After an error a front part of
/// what was left is taken. It asks for 4096 octets a take, and takes at most `most` and 4096 more.
pub fn read_all<S: Source>(
    alloc: Global,
    source: &mut S,
    most: usize,
) -> Result<Vec<u8>, SourceError>
    ensures whole { IfOk result (λ octets. IfSome (S.left source.old) (λ xs. octets.items ≡ xs)) }
    ensures emptied { OnOk result (IfSome (S.left source.old) (λ _. S.left source.new ≡ Some [])) }
    ensures within { IfOk result (λ octets. length octets.items ≤ most) }
    ensures long { IsErrOf result SourceError.Long → IfSome (S.left source.old) (λ xs. most < length xs) }
    ensures part { TakesAtMost (most + 4096) (S.left source.old) (S.left source.new) }

    ensures failed { IsErrOf result SourceError.Failed → Rose (S.faults source.old) (S.faults source.new) }
    ensures once { S.faults source.new ≤ S.faults source.old + 1 }
    ensures later { S.faults source.old ≤ S.faults source.new }
    ensures same { SameUnlessFailed result (S.faults source.old) (S.faults source.new) }
{
    let mut octets = Vec::new(alloc);
    let mut buffer = [0u8; ROOM];
    while octets.len() <= most {
        match source.take(&mut buffer) {
            Taken::Took(n) => octets.extend_from_slice(&buffer[..n])?,
            Taken::End => return Ok(octets),
            Taken::Failed => return Err(SourceError::Failed),
        }
    }
    Err(SourceError::Long)
}

/// A reader of std as a source. Each error of the reader is a failure, an interrupted read too.
#[derive(Drop)]
pub struct Reading<R> {
    /// The reader.
    pub inner: R,
    /// How often it has failed, at most `u64::MAX`.
    pub failures: u64,
}

impl<R: Read> Reading<R> {
    ghost use Rattle.std.specs.Prelude.{◌≡◌};

    /// A reader that hasn't failed yet.
    pub fn new(inner: R) -> Self
        ensures inner { result.inner ≡ inner }
        ensures failures { result.failures ≡ 0 }
    {
        Reading { inner, failures: 0 }
    }
}

impl<R: Read> Source for Reading<R> {
    ghost left = { λ source. R.remaining source.inner };

    ghost faults = { λ source. source.failures };

    fn take(&mut self, buffer: &mut [u8]) -> Taken {
        match self.inner.read(buffer) {
            Ok(0) => Taken::End,
            Ok(n) => Taken::Took(n),
            Err(_) => {
                self.failures = self.failures.saturating_add(1);
                Taken::Failed
            }
        }
    }
}
