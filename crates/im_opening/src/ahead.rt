ghost use Rattle.std.specs.Prelude.{◌≡◌, ◌<◌, ◌≤◌, ◌+◌, length, true, false, All, IfSome};
ghost use Rattle.im_disk.specs.Causes.{HasCause};
ghost use Rattle.im_disk.specs.Disk.{Files, LiesWithin, seen};
ghost use Rattle.im_format.specs.Spans.{octets_at};
ghost use Rattle.im_opening.specs.Ahead.{IsPiece};

use im_disk::disk::{Disk, DiskError};
use im_format::files::{FIRST_VALUE_LOG, LAST_VALUE_LOG};
use std::alloc::Global;
use std::marker::Model;

// So many octets are read at once, where a file has them.
const PIECE: usize = 65536;

/// Octets of a file from a place on, as a read gave them.
#[derive(Drop)]
pub(crate) struct Piece {
    file: u8,
    at: u64,
    octets: Vec<u8>,
}

/// A disk that reads value logs ahead: a read of a value gives octets of a piece of its log that was read at once,
/// where they lie in it. It passes every other call on to the disk within, and forgets its pieces before each call that
/// changes that one. It takes memory for a piece of each of four files, of 65,536 octets at most. A clause sees the disk
/// within.
///
/// # Invariants
///
/// A piece has what reads of the disk within give.
#[derive(Drop)]
pub(crate) struct Ahead<D: Disk> {
    alloc: Global,
    disk: D,
    pieces: [Piece; 4],
}

impl<D: Disk> Model for Ahead<D> {
    ghost use Rattle.std.specs.Prelude.{All, IfSome};
    ghost use Rattle.im_disk.specs.Disk.{seen};
    ghost use Rattle.im_opening.specs.Ahead.{IsPiece};

    ghost Value = { D };

    ghost view = { λ s. s.disk };

    ghost invariant = { λ s. IfSome (D.told s.disk) (λ t. All (IsPiece (seen t)) s.pieces) };
}

impl<D: Disk> Ahead<D> {
    ghost use Rattle.std.specs.Prelude.{◌≡◌, ◌<◌, ◌≤◌, ◌+◌, length, true, false, All, IfSome};
    ghost use Rattle.im_disk.specs.Causes.{HasCause};
    ghost use Rattle.im_disk.specs.Disk.{LiesWithin, seen};
    ghost use Rattle.im_format.specs.Spans.{octets_at};
    ghost use Rattle.im_opening.specs.Ahead.{IsPiece};

    /// A disk over this one, which has read nothing yet. It takes no memory.
    pub(crate) fn new(alloc: Global, disk: D) -> Self
        ensures { result ≡ disk }
    {
        let pieces = no_pieces(alloc);
        Ahead {
            alloc,
            disk,
            pieces,
        }
    }

    /// The disk within.
    pub(crate) fn into_disk(self) -> D
        ensures { result ≡ self }
    {
        let Ahead { disk, pieces, .. } = self;
        drop(pieces);
        disk
    }

    // Fills the buffer where the file's piece has all that is asked, and tells whether it has.
    fn give(&self, file: u8, at: u64, buffer: &mut [u8]) -> bool
        requires { file < 16 }
        ensures given { result ≡ true → IfSome (D.told self.now) (λ t. buffer.new ≡ octets_at (seen t file) at (length buffer.old)) }
        ensures size { length buffer.new ≡ length buffer.old }
    {
        match part_of(&self.pieces[piece_of(file)], file, at, buffer.len()) {
            Some(part) => {
                buffer.copy_from_slice(part);
                true
            }
            None => false,
        }
    }

    // Reads a piece from a place on, which is at most the file's length, in place of the file's piece before.
    fn fetch(&mut self, file: u8, at: u64) -> Result<(), DiskError>
        requires file { file < 16 }
        requires within { LiesWithin (D.told self.old) file at 0 }
        ensures told { D.told self.new ≡ D.told self.old }
        ensures cause { HasCause (D.faults self.old) (D.faults self.new) result }
    {
        let len = self.disk.len(file)?;
        let size = len.saturating_sub(at).min(PIECE as u64) as usize;
        let mut octets = vec![in self.alloc; 0u8; size]?;
        self.disk.read(file, at, &mut octets)?;
        self.pieces[piece_of(file)] = Piece { file, at, octets };
        Ok(())
    }
}

// The number of the piece that a file has, from 0; other files than the value logs have one with them.
fn piece_of(file: u8) -> usize
    ensures { result < 4 }
{
    (file % 4) as usize
}

// Pieces of no octets.
fn no_pieces(alloc: Global) -> [Piece; 4]
    ensures { (image : Files) → All (IsPiece image) result }
{
    [
        no_piece(alloc),
        no_piece(alloc),
        no_piece(alloc),
        no_piece(alloc),
    ]
}

// A piece of no octets.
fn no_piece(alloc: Global) -> Piece
    ensures { (image : Files) → IsPiece image result }
{
    Piece {
        file: 0,
        at: 0,
        octets: Vec::new(alloc),
    }
}

// The octets of a file from a place on, so many of them, where they lie in this piece.
fn part_of(piece: &Piece, file: u8, at: u64, n: usize) -> Option<&[u8]>
    ensures size { IfSome result (λ part. length part.now ≡ n) }
    ensures octets { (image : Files) → IsPiece image piece.now → IfSome result (λ part. part.now ≡ octets_at (image file) at n) }
{
    if piece.file != file || at < piece.at {
        return None;
    }
    let octets = piece.octets.as_slice();
    let start = (at - piece.at) as usize;
    if octets.len() < start || octets.len() - start < n {
        return None;
    }
    let (_, rest) = octets.split_at(start);
    let (part, _) = rest.split_at(n);
    Some(part)
}

// Whether reads of a file are given from pieces: it is a value log.
fn is_read_ahead(file: u8) -> bool {
    FIRST_VALUE_LOG <= file && file <= FIRST_VALUE_LOG + LAST_VALUE_LOG
}

impl<D: Disk> Disk for Ahead<D> {
    ghost told = { λ disk. D.told disk };

    ghost faults = { λ disk. D.faults disk };

    fn len(&mut self, file: u8) -> Result<u64, DiskError> {
        self.disk.len(file)
    }

    fn read(&mut self, file: u8, at: u64, buffer: &mut [u8]) -> Result<(), DiskError> {
        if is_read_ahead(file) && buffer.len() <= PIECE {
            if self.give(file, at, buffer) {
                return Ok(());
            }
            self.fetch(file, at)?;
            if self.give(file, at, buffer) {
                return Ok(());
            }
        }
        self.disk.read(file, at, buffer)
    }

    fn write_at(&mut self, file: u8, at: u64, piece: &[u8]) -> Result<(), DiskError> {
        self.pieces = no_pieces(self.alloc);
        self.disk.write_at(file, at, piece)
    }

    fn sync(&mut self) -> Result<(), DiskError> {
        self.pieces = no_pieces(self.alloc);
        self.disk.sync()
    }
}
