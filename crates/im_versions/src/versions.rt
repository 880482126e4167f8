use im_octet::octets::Octets;
use std::alloc::{AllocError, Global};
use std::marker::Model;

/// A version of a key: what a transaction wrote for it, or that it deleted it.
#[derive(Drop)]
pub struct Version {
    /// The number of the transaction, from 1.
    pub tx: u64,
    /// The key was deleted.
    pub deleted: bool,
    /// The key.
    pub key: Octets,
    /// What was written. A deletion that a script asks for writes nothing.
    pub value: Octets,
}

impl Version {
    ghost use Rattle.std.specs.Prelude.{◌≡◌, IfOk};

    /// A copy of this version, of its key and its value too. Its only error is want of memory.
    pub fn try_clone(&self, alloc: Global) -> Result<Self, AllocError>
        ensures { IfOk result (λ version. version ≡ self.now) }
    {
        Ok(Version {
            tx: self.tx,
            deleted: self.deleted,
            key: Octets::from_slice(alloc, self.key.as_slice())?,
            value: Octets::from_slice(alloc, self.value.as_slice())?,
        })
    }
}

/// Versions, in the order that a contract tells. A clause sees the list of them.
#[derive(Drop)]
pub struct Versions {
    versions: Vec<Version>,
}

impl Model for Versions {
    ghost use Rattle.std.specs.Prelude.{List};
    ghost use Rattle.im_versions.specs.declared.versions.Version.{Version};

    ghost Value = { List Version };

    ghost view = { λ s. s.versions.items };
}

impl Versions {
    ghost use Rattle.std.specs.Prelude.{◌≡◌};

    /// The versions of a vector, which is not copied.
    pub fn from_vec(versions: Vec<Version>) -> Self
        ensures { result ≡ versions.items }
    {
        Versions { versions }
    }

    /// Gives the vector back. It takes no memory.
    pub fn into_vec(self) -> Vec<Version>
        ensures { result.items ≡ self }
    {
        let Versions { versions } = self;
        versions
    }

    /// Lends the versions.
    pub fn as_slice(&self) -> &[Version]
        ensures { result.now ≡ self.now }
    {
        self.versions.as_slice()
    }
}
