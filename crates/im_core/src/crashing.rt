// A crash.
ghost use Rattle.std.specs.Prelude.{◌≡◌, ◌↔◌, length, IfOk, IsTrue};
ghost use Rattle.im_core.specs.Cores.{Follows, IsCore, MayCrash};
ghost use Rattle.im_digest.specs.Digests.{Hash};
ghost use Rattle.im_disk.specs.Disk.{Images};
ghost use Rattle.im_disk.specs.Recorded.{told_by};
ghost use Rattle.im_disk.specs.Records.{files_of};
ghost use Rattle.im_machine.specs.Machines.{Machine};
ghost use Rattle.im_machine.specs.declared.events.Event.TheVariants as on;

use crate::cores::Core;
use im_disk::memory::MemDisk;
use im_image::images::may_leave;
use im_machine::images::Image;
use im_machine::outputs::Output;
use im_octet::octets::Octets;
use std::alloc::{AllocError, Global};
use std::mem;

/// The machine stops, and these files are left, where they are an image that a crash may leave now. The image is copied.
pub(crate) fn crash(core: &mut Core, alloc: Global, image: &Image) -> Result<Output, AllocError>
    requires { (hash : Hash) × (m : Machine) × IsCore hash core.old m }
    ensures { (hash : Hash) (m : Machine) → IsCore hash core.old m → IfOk result (λ output. Follows hash m (on.Crash image.now) output core.new) }
{
    if !may_crash(core, image.as_slice()) {
        return Ok(Output::NotAllowed);
    }
    let image = image.try_clone(alloc)?;
    let before = mem::replace(core, Core::Down { image });
    drop(before);
    Ok(Output::Done)
}

// Whether the store is open, and a crash may leave these files of its disk now.
fn may_crash(core: &Core, image: &[Octets]) -> bool
    ensures { IsTrue result ↔ MayCrash core.now image.now }
{
    match core {
        Core::Up { store } => leaves(store.journal.disk(), image),
        Core::Down { .. } => false,
    }
}

// Whether a crash may leave these sixteen files of a disk now.
fn leaves(disk: &MemDisk, image: &[Octets]) -> bool
    ensures { IsTrue result ↔ ((length image.now ≡ 16) × Images (told_by disk.now) (files_of image.now)) }
{
    let count = image.len();
    if count != 16 {
        return false;
    }
    may_leave(disk.first(), disk.calls(), image)
}
