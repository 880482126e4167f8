ghost use Rattle.std.specs.Prelude.{◌≡◌, ◌≤◌, [], length, IfOk, OnOk, OnErr};
ghost use Rattle.im_disk.specs.Disk.{written};

use std::alloc::{AllocError, Global};
use std::marker::Model;

/// What one file of a disk in memory holds. A clause sees the list of its octets.
#[derive(Drop)]
pub struct Content {
    octets: Vec<u8>,
}

impl Model for Content {
    ghost use Rattle.std.specs.Prelude.{ℕ, List};

    ghost Value = { List ℕ };

    ghost view = { λ content. content.octets.items };
}

impl Content {
    /// An empty file. It takes no memory.
    pub fn new(alloc: Global) -> Self
        ensures { result ≡ [] }
    {
        Content {
            octets: Vec::new(alloc),
        }
    }

    /// A file with a copy of these octets.
    pub fn from_slice(alloc: Global, octets: &[u8]) -> Result<Self, AllocError>
        ensures { IfOk result (λ content. content ≡ octets.now) }
    {
        Ok(Content {
            octets: Vec::from_slice(alloc, octets)?,
        })
    }

    /// Lends the octets.
    pub fn as_slice(&self) -> &[u8]
        ensures { result.now ≡ self.now }
    {
        self.octets.as_slice()
    }

    /// Writes a piece over the file from the place `at` on, and past its end. It moves the piece's
    /// octets alone, unless the file has to move to grow. An error leaves the file as it was.
    pub fn write_at(&mut self, at: usize, piece: &[u8]) -> Result<(), AllocError>
        requires { at ≤ length self.old }
        ensures ok { OnOk result (self.new ≡ written self.old at piece.now) }
        ensures err { OnErr result (self.new ≡ self.old) }
    {
        let inside = piece.len().min(self.octets.len() - at);
        let (over, behind) = piece.split_at(inside);
        self.octets.extend_from_slice(behind)?;
        self.octets[at..at + inside].copy_from_slice(over);
        Ok(())
    }
}
