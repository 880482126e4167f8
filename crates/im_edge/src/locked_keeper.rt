ghost use Rattle.std.specs.Prelude.{◌≡◌, ◌+◌, ◌++◌, ◌∷◌, ◌⊎◌, [], IfOk, IfSome, IsSome, OnOk, OnErr};
ghost use Rattle.std.specs.Option.{option_map};
ghost use Rattle.im_edge.specs.Keepers.{KeepCause};

use crate::file_lock::{FileLock, Lockable};
use crate::keeper::{Keeper, KeeperError, counted};
use im_octet::octets::Octets;
use std::alloc::Global;
use std::fs::Files;

/// A keeper that one program at a time has: it takes a lock at its first call, and holds it for as long as
/// it lives. Where another program holds it, that call fails, and the keeper behind it isn't asked. What
/// the lock is worth stands at `FileLock`.
#[derive(Drop)]
pub struct LockedKeeper<'a, R: Files, K> {
    /// The keeper that keeps the lines.
    pub inner: K,
    lock: FileLock<'a, R>,
    /// How often the lock couldn't be had, at most `u64::MAX`.
    pub failures: u64,
}

impl<'a, R: Files, K: Keeper> LockedKeeper<'a, R, K> {
    /// A keeper behind a lock that isn't held yet.
    pub fn new(inner: K, lock: FileLock<'a, R>) -> Self
        ensures inner { result.inner ≡ inner }
        ensures failures { result.failures ≡ 0 }
    {
        LockedKeeper {
            inner,
            lock,
            failures: 0,
        }
    }
}

impl<R: Files, K: Keeper> LockedKeeper<'_, R, K>
where
    R::File: Lockable,
{
    // Takes the lock, where it isn't held yet. A failure is counted.
    fn hold(&mut self) -> Result<(), KeeperError>
        ensures inner { self.new.inner ≡ self.old.inner }
        ensures cause { KeepCause self.old.failures self.new.failures result }
        ensures locked { OnOk result (IsSome self.new.lock.held) }
    {
        let answer = self.lock.hold().map_err(KeeperError::from);
        counted(&mut self.failures, answer)
    }
}

impl<R: Files, K: Keeper> Keeper for LockedKeeper<'_, R, K>
where
    R::File: Lockable,
{
    ghost kept = { λ keeper. K.kept keeper.inner };

    ghost faults = { λ keeper. K.faults keeper.inner + keeper.failures };

    fn lines(&mut self, alloc: Global) -> Result<Vec<Octets>, KeeperError>
        ensures lines { IfOk result (λ lines. IfSome (K.kept self.old.inner) (λ xs. lines.items ≡ xs)) }
        ensures kept { K.kept self.new.inner ≡ K.kept self.old.inner }
        ensures cause { KeepCause (K.faults self.old.inner + self.old.failures) (K.faults self.new.inner + self.new.failures) result }
        ensures held { (self.new.failures ≡ self.old.failures) ⊎ (self.new.inner ≡ self.old.inner) }
        ensures locked { OnOk result (IsSome self.new.lock.held) }
    {
        self.hold()?;
        self.inner.lines(alloc)
    }

    fn append(&mut self, line: &[u8]) -> Result<(), KeeperError>
        ensures ok { OnOk result (K.kept self.new.inner ≡ option_map (λ xs. xs ++ line.now ∷ []) (K.kept self.old.inner)) }
        ensures err { OnErr result (K.kept self.new.inner ≡ K.kept self.old.inner) }
        ensures cause { KeepCause (K.faults self.old.inner + self.old.failures) (K.faults self.new.inner + self.new.failures) result }
        ensures held { (self.new.failures ≡ self.old.failures) ⊎ (self.new.inner ≡ self.old.inner) }
        ensures locked { OnOk result (IsSome self.new.lock.held) }
    {
        self.hold()?;
        self.inner.append(line)
    }
}
