ghost use Rattle.std.specs.Prelude.{◌≡◌, Some, IfErr, IfOk, IfSome, OnOk};
ghost use Rattle.im_digest.specs.Digests.{Hash};
ghost use Rattle.im_disk.specs.Disk.{Told, seen};
ghost use Rattle.im_format.specs.Damages.{image_checks};
ghost use Rattle.im_hash_ahead.specs.Facts.{IsKnown};
ghost use Rattle.im_opening.specs.Answers.{HasOpenCause, Tells};
ghost use Rattle.im_opening.specs.Parts.{Shows};

use crate::errors::OpenError;
use crate::plans::{first_plan, plan_behind};
use crate::records::Progress;
use crate::source::RecordSource;
use im_digest::Hash32;
use im_disk::disk::Disk;
use im_hash_ahead::filling::begin;
use im_hash_ahead::plans::{Plan, Plans};
use im_hash_ahead::rows::Rows;
use im_hash_ahead::windows::Window;
use std::alloc::Global;
use std::mem;
use std::thread::Threads;

/// What is hashed ahead: the window that is read, the one that was read before, the rows of the tree as the window that is filled finds
/// it, and the plans of that window and of the one behind it.
#[derive(Drop)]
pub(crate) struct Hashing {
    pub window: Window,
    pub spent: Option<Window>,
    pub rows: Rows,
    pub plans: Plans,
}

impl Hashing {
    ghost use Rattle.std.specs.Prelude.{◌≡◌, Some, IfErr, IfSome, OnOk};
    ghost use Rattle.im_digest.specs.Digests.{Hash};
    ghost use Rattle.im_disk.specs.Disk.{Told, seen};
    ghost use Rattle.im_format.specs.Damages.{image_checks};
    ghost use Rattle.im_hash_ahead.specs.Facts.{IsKnown};
    ghost use Rattle.im_opening.specs.Answers.{HasOpenCause, Tells};
    ghost use Rattle.im_opening.specs.Parts.{Shows};

    // Nothing yet, before the window of a plan is filled.
    fn new(alloc: Global, plan: Plan) -> Self {
        Hashing {
            window: Window::empty(alloc),
            spent: None,
            rows: Rows::new(alloc),
            plans: Plans::first(alloc, plan),
        }
    }

    // Hashes the tree, which the leaves of the first plan join, and plans what is behind that plan, where nothing was read yet.
    fn begin<R: Threads + Sync, D: Disk, H: Hash32 + Sync>(
        &mut self,
        rt: &R,
        alloc: Global,
        hash: &H,
        disk: &mut D,
        source: &RecordSource,
        progress: &Progress,
    ) -> Result<(), OpenError>
        requires shows { IfSome (D.told disk.old) (λ t. Shows (seen t) source.now.log.now source.now.lengths) }
        ensures known { OnOk result (IsKnown (H.digest hash.now) self.new.window) }
        ensures unfit { (t : Told) → D.told disk.old ≡ Some t → IfErr result (Tells (image_checks (H.digest hash.now) (seen t))) }
        ensures told { D.told disk.new ≡ D.told disk.old }
        ensures cause { HasOpenCause (D.faults disk.old) (D.faults disk.new) result }
    {
        let window = begin(rt, alloc, hash, &self.plans.behind, &mut self.rows)?;
        drop(mem::replace(&mut self.window, window));
        let next = plan_behind(alloc, disk, source, progress, &self.plans)?;
        self.plans.go_on(next);
        Ok(())
    }

    /// Goes on to the window that was filled, and to the next plan, where there is one.
    pub(crate) fn go_on(&mut self, filled: Window, next: &mut Option<Plan>)
        ensures { (hash : Hash) → IsKnown hash self.old.window → IsKnown hash filled → IsKnown hash self.new.window }
    {
        let mut read = mem::replace(&mut self.window, filled);
        self.window.follow(&mut read);
        drop(mem::replace(&mut self.spent, Some(read)));
        if let Some(next) = next.take() {
            self.plans.go_on(next);
        }
    }
}

/// What is there before the first batch is read: the tree as the first window finds it, and the plans of two windows, for which the
/// values of the second are read.
pub(crate) fn first_hashing<R: Threads + Sync, D: Disk, H: Hash32 + Sync>(
    rt: &R,
    alloc: Global,
    hash: &H,
    disk: &mut D,
    source: &RecordSource,
    progress: &Progress,
) -> Result<Hashing, OpenError>
    requires shows { IfSome (D.told disk.old) (λ t. Shows (seen t) source.now.log.now source.now.lengths) }
    ensures known { IfOk result (λ hashing. IsKnown (H.digest hash.now) hashing.window) }
    ensures unfit { (t : Told) → D.told disk.old ≡ Some t → IfErr result (Tells (image_checks (H.digest hash.now) (seen t))) }
    ensures told { D.told disk.new ≡ D.told disk.old }
    ensures cause { HasOpenCause (D.faults disk.old) (D.faults disk.new) result }
{
    let plan = first_plan(alloc, hash, source.log, progress)?;
    let mut hashing = Hashing::new(alloc, plan);
    match hashing.begin(rt, alloc, hash, disk, source, progress) {
        Ok(()) => Ok(hashing),
        Err(error) => {
            drop(hashing);
            Err(error)
        }
    }
}
