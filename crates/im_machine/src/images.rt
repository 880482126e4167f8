ghost use Rattle.std.specs.Prelude.{◌≡◌, IfOk};

use im_octet::octets::Octets;
use std::alloc::{AllocError, Global};
use std::marker::Model;

/// What a crash leaves of a disk: the octets of each of its files, in order; sixteen of them where a disk has left it. A clause
/// sees the list of the lists of their octets.
#[derive(Drop)]
pub struct Image {
    files: Vec<Octets>,
}

impl Model for Image {
    ghost use Rattle.std.specs.Prelude.{ℕ, List};

    ghost Value = { List (List ℕ) };

    ghost view = { λ image. image.files.items };
}

impl Image {
    ghost use Rattle.std.specs.Prelude.{◌≡◌, IfOk};

    /// An image of these files, of which the first is file 0. They aren't copied.
    pub fn from_vec(files: Vec<Octets>) -> Self
        ensures { result ≡ files.items }
    {
        Image { files }
    }

    /// Lends the files.
    pub fn as_slice(&self) -> &[Octets]
        ensures { result.now ≡ self.now }
    {
        self.files.as_slice()
    }

    /// A copy of this image, of each file. Its only error is want of memory.
    pub fn try_clone(&self, alloc: Global) -> Result<Self, AllocError>
        ensures { IfOk result (λ image. image ≡ self.now) }
    {
        let files = copies_of(alloc, self.as_slice())?;
        Ok(Image::from_vec(files))
    }

    /// Gives the files back. It takes no memory.
    pub fn into_vec(self) -> Vec<Octets>
        ensures { result.items ≡ self }
    {
        let Image { files } = self;
        files
    }
}

// A copy of each of these.
fn copies_of(alloc: Global, files: &[Octets]) -> Result<Vec<Octets>, AllocError>
    ensures { IfOk result (λ copies. copies.items ≡ files.now) }
{
    let mut copies = Vec::with_capacity(alloc, files.len())?;
    for file in files {
        copies.push(Octets::from_slice(alloc, file.as_slice())?)?;
    }
    Ok(copies)
}
