ghost use Rattle.std.specs.Prelude.{◌≡◌, slice_index_or};
ghost use Rattle.im_index.specs.Fronts.{IsFront};

use im_versions::versions::Version;
use std::alloc::{AllocError, Global};
use std::cmp::Ordering;
use std::marker::Model;
use std::sync::Arc;

// A version that all runs which hold it share, so that a merge copies neither its key nor its value. A clause
// sees the version.
//
// The first version of a key in a run also tells how many the key has there. That is a hint: no clause knows of it,
// so that who reads it looks whether it is so.
//
// # Invariants
//
// The front is that of the version's key, which is of octets.
#[derive(Drop)]
pub(crate) struct Shared {
    version: Arc<Version>,
    // The first eight octets of the key, as one number: keys that differ in them are told apart without a look at memory elsewhere.
    front: u64,
    count: usize,
}

impl Model for Shared {
    ghost use Rattle.std.specs.Arc.{arc_value};
    ghost use Rattle.im_index.specs.Fronts.{IsFront};
    ghost use Rattle.im_versions.specs.declared.versions.Version.{Version};

    ghost Value = { Version };

    ghost view = { λ s. arc_value s.version };

    ghost invariant = { λ s. IsFront s.front (arc_value s.version).key };
}

impl Shared {
    ghost use Rattle.std.specs.Prelude.{◌≡◌, IfOk};
    ghost use Rattle.std.specs.Cmp.Lexicographic.{slice_cmp};
    ghost use Rattle.std.specs.Ordering.{nat_cmp};

    // A version that can be shared. Its only error is want of memory.
    pub(crate) fn new(alloc: Global, version: Version) -> Result<Self, AllocError>
        ensures { IfOk result (λ shared. shared ≡ version) }
    {
        let front = front_of(version.key.as_slice());
        Ok(Shared {
            version: Arc::new(alloc, version)?,
            front,
            count: 0,
        })
    }

    // The same version for one more run, in which its key may have more versions. It takes no memory, and fails only
    // where a version has more owners than a count can hold.
    pub(crate) fn share(&self) -> Result<Self, AllocError>
        ensures { IfOk result (λ shared. shared ≡ self.now) }
    {
        Ok(Shared {
            version: Arc::try_clone(&self.version)?,
            front: self.front,
            count: 0,
        })
    }

    // How many versions from this one on are said to be of its key: 0 where nothing was said.
    pub(crate) fn hinted(&self) -> usize {
        self.count
    }

    // Says how many versions from this one on are of its key.
    pub(crate) fn hint(&mut self, count: usize)
        ensures { self.new ≡ self.old }
    {
        self.count = count;
    }

    // Lends the version.
    pub(crate) fn version(&self) -> &Version
        ensures { result.now ≡ self.now }
    {
        &self.version
    }

    // The order of this version and another one by their keys.
    pub(crate) fn cmp_key(&self, other: &Shared) -> Ordering
        ensures { result ≡ slice_cmp nat_cmp self.now.key other.now.key }
    {
        match self.front.cmp(&other.front) {
            Ordering::Equal => self
                .version
                .key
                .as_slice()
                .cmp(other.version.key.as_slice()),
            order => order,
        }
    }
}

// The first eight octets of a key as one number, the highest first, with zeros behind the last of fewer.
fn front_of(key: &[u8]) -> u64
    ensures { IsFront result key.now }
{
    let mut front = 0u64;
    for i in 0..8 {
        front = front * 256 + u64::from(octet_at(key, i));
    }
    front
}

// The octet at a place of a key, and zero behind its end.
fn octet_at(key: &[u8], place: usize) -> u8
    ensures { result ≡ slice_index_or key.now place 0 }
{
    if place < key.len() { key[place] } else { 0 }
}
