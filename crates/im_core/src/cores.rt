ghost use Rattle.std.specs.Prelude.{◌≡◌, [], IfOk};
ghost use Rattle.im_core.specs.Cores.{Follows, IsCore, IsCrash};
ghost use Rattle.im_machine.specs.Machines.{start, Machine};

use crate::crashing::crash;
use crate::opening::reopen;
use crate::store::OpenStore;
use im_digest::Hash32;
use im_machine::events::Event;
use im_machine::images::Image;
use im_machine::outputs::Output;
use std::alloc::{AllocError, Global};

/// What is had of the machine.
///
/// # Invariants
///
/// `IsCore`, for one hash: the parts are those of the machine as the events so far have left it, or the files are those of its
/// disk. `begin` begins with it, and `step` keeps it where it succeeds.
#[derive(Drop)]
pub(crate) enum Core {
    /// The store is open.
    Up {
        /// Its parts.
        store: OpenStore,
    },
    /// It isn't, and these are its files.
    Down {
        /// The files.
        image: Image,
    },
}

/// The machine as every run begins: empty files, opened.
pub(crate) fn begin<H: Hash32>(alloc: Global, hash: &H) -> Result<Core, AllocError>
    ensures { IfOk result (λ core. IsCore (H.digest hash.now) core start) }
{
    let image = no_files(alloc);
    let mut core = Core::Down { image };
    match reopen(&mut core, alloc, hash) {
        Ok(output) => {
            drop(output);
            Ok(core)
        }
        Err(error) => {
            drop(core);
            Err(error)
        }
    }
}

// No files.
fn no_files(alloc: Global) -> Image
    ensures { result ≡ [] }
{
    Image::from_vec(Vec::new(alloc))
}

/// One event.
pub(crate) fn step<H: Hash32>(
    core: &mut Core,
    alloc: Global,
    hash: &H,
    event: &Event,
) -> Result<Output, AllocError>
    requires { (m : Machine) × IsCore (H.digest hash.now) core.old m }
    ensures { (m : Machine) → IsCore (H.digest hash.now) core.old m → IfOk result (λ output. Follows (H.digest hash.now) m event.now output core.new) }
{
    match event {
        Event::Crash { image } => crash(core, alloc, image),
        Event::Open => reopen(core, alloc, hash),
        _ => answer(core, alloc, hash, event),
    }
}

// An event but a crash and an opening: none is allowed where the store isn't open.
fn answer<H: Hash32>(
    core: &mut Core,
    alloc: Global,
    hash: &H,
    event: &Event,
) -> Result<Output, AllocError>
    requires core { (m : Machine) × IsCore (H.digest hash.now) core.old m }
    requires no_crash { IsCrash event.now → ⊥ }
    requires no_opening { event.now ≡ Event.Open → ⊥ }
    ensures { (m : Machine) → IsCore (H.digest hash.now) core.old m → IfOk result (λ output. Follows (H.digest hash.now) m event.now output core.new) }
{
    match core {
        Core::Up { store } => store.answer(alloc, hash, event),
        Core::Down { .. } => Ok(Output::NotAllowed),
    }
}
