use crate::shared::Shared;
use std::alloc::{AllocError, Global};
use std::marker::Model;
use std::sync::Arc;

// A run: versions sorted by key, those of one key in the order of their transactions. It is never changed, and an
// index shares it with its snapshots. A clause sees the versions.
#[derive(Drop)]
pub(crate) struct Run {
    versions: Arc<Vec<Shared>>,
}

impl Model for Run {
    ghost use Rattle.std.specs.Prelude.{List};
    ghost use Rattle.std.specs.Arc.{arc_value};
    ghost use Rattle.im_versions.specs.declared.versions.Version.{Version};

    ghost Value = { List Version };

    ghost view = { λ s. (arc_value s.versions).items };
}

impl Run {
    ghost use Rattle.std.specs.Prelude.{◌≡◌, length, IfOk};

    // A run of the versions of a vector, which isn't copied. Its only error is want of memory.
    pub(crate) fn of(alloc: Global, versions: Vec<Shared>) -> Result<Self, AllocError>
        ensures { IfOk result (λ run. run ≡ versions.items) }
    {
        Ok(Run {
            versions: Arc::new(alloc, versions)?,
        })
    }

    // The same run for one more owner. It takes no memory, and fails only where a run has more owners than a
    // count can hold.
    pub(crate) fn share(&self) -> Result<Self, AllocError>
        ensures { IfOk result (λ run. run ≡ self.now) }
    {
        Ok(Run {
            versions: Arc::try_clone(&self.versions)?,
        })
    }

    // Lends the versions.
    pub(crate) fn as_slice(&self) -> &[Shared]
        ensures { result.now ≡ self.now }
    {
        self.versions.as_slice()
    }

    // The number of versions.
    pub(crate) fn len(&self) -> usize
        ensures { result ≡ length self.now }
    {
        self.versions.len()
    }
}
